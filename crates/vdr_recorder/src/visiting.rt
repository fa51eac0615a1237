// What was recorded, for whoever makes something of it.
ghost use Rattle.std.specs.Prelude.{◌≡◌, ◌⊎◌, [], length, true, Ok, Err};
ghost use Rattle.vdr_entry.specs.Queries.{asked};
ghost use Rattle.vdr_vault.specs.Plays.{TellsDamageOf};
ghost use Rattle.vdr_vault.specs.Vaults.{AreRings};
ghost use Rattle.vdr_visit.specs.Prints.{whole_text};
ghost use Rattle.vdr_visit.specs.Refusals.{HasOutputCause, IsAccepted, after_fault, lacks_channel, lacks_incident, unanswered};
ghost use Rattle.vdr_vault.specs.Visits.{HasVisited, ReadsEachOnce};
ghost use Rattle.vdr_visit.specs.declared.visit_refused.VisitRefused.TheVariants.{Damaged, Fault as AFault, NoChannel, NoIncident, Output};
ghost use Rattle.vdr_recorder.specs.Looks.{HasLooked};

use crate::Recorder;
use vdr_entry::Query;
use vdr_outside::{Media, Sink};
use vdr_vault::accept;
use vdr_visit::{Reader, VisitRefused, Visitor, visit_buffered};

impl Recorder {
    /// Whether a query asks for a channel that is configured and for an incident that is live, where it asks for one.
    pub fn accept<R>(&self, query: &Query) -> Result<(), VisitRefused<R>>
        ensures { result ≡ unanswered (lacks_channel (length self.now.vault.config.channels) query.now.channel) (lacks_incident self.now.vault.table (asked query.now).medium) }
    {
        accept(&self.vault, query)
    }

    /// Hands the records that a query selects to the visitor, in order of place, each once, and then their end. What it prints goes to the
    /// output in few writes, through a buffer of 8,192 bytes. Reads the query's medium alone, and of it at most a
    /// segment for each that meets the query, each once (`bound`). Takes no memory of its own.
    ///
    /// `NoChannel` comes before `NoIncident`, and both before `Fault` of a write that had failed. After `Fault` and `Damaged` the text of
    /// just the records that were handed on stands in the output. On media that hold what was recorded, regular or not, `Damaged` never
    /// comes.
    pub fn visit<M: Media, V: Visitor, O: Sink>(
        &mut self,
        media: &mut M,
        query: &Query,
        visitor: &mut V,
        out: &mut O,
    ) -> Result<(), VisitRefused<V::Reason>>
        requires rings { AreRings self.old.vault (M.disk media.old).sizes }
        ensures accepted { IsAccepted (lacks_channel (length self.old.vault.config.channels) query.now.channel) (lacks_incident self.old.vault.table (asked query.now).medium) result }
        ensures visited { (first : V) → V.has first [] visitor.old
            → HasVisited (asked query.now) self.old.vault (M.disk media.old) (λ seen. V.has first seen visitor.new) (V.stops first) (V.line first) (whole_text (V.line first) (V.last first))
            (O.taken out.old) (O.taken out.new) result }
        ensures damage { TellsDamageOf (asked query.now) self.old.vault (M.disk media.old) (λ m offset. result ≡ Err (Damaged m offset)) (result ≡ Ok tt) }
        ensures unread { (result ≡ Err NoChannel) ⊎ (result ≡ Err NoIncident) → (self.new ≡ self.old) × (media.new ≡ media.old) × (visitor.new ≡ visitor.old) × (out.new ≡ out.old) }
        ensures failed { self.old.vault.failed ≡ true → (self.new ≡ self.old) × (media.new ≡ media.old) × (visitor.new ≡ visitor.old) × (out.new ≡ out.old)
            × (result ≡ after_fault (unanswered (lacks_channel (length self.old.vault.config.channels) query.now.channel) (lacks_incident self.old.vault.table (asked query.now).medium))) }
        ensures looked { HasLooked (asked query.now) self.old self.new (M.disk media.old) (M.disk media.new) (M.bytes_read media.old) (M.bytes_read media.new) (M.faults media.old) (M.faults media.new) (result ≡ Err AFault) }
        ensures bound { ReadsEachOnce (asked query.now) self.old.vault (M.bytes_read media.old) (M.bytes_read media.new) }
        ensures output { HasOutputCause (O.faults out.old) (O.faults out.new) (result ≡ Err Output) }
    {
        Recorder::law_of_visits::<M>();
        visit_buffered(self, media, query, visitor, out)
    }
}
