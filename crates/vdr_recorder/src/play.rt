// What was recorded, as text.
//
// Each record is printed as it is read, through 8,192 bytes. To make the text first printed all or nothing, and took
// as much memory as was selected.
ghost use Rattle.std.specs.Prelude.{◌≡◌, ◌⊎◌, ℕ, length, true, Err};
ghost use Rattle.vdr_entry.specs.Queries.{asked};
ghost use Rattle.vdr_play.specs.Streams.{nothing_seen};
ghost use Rattle.vdr_vault.specs.Vaults.{AreRings};
ghost use Rattle.vdr_visit.specs.Refusals.{HasOutputCause, IsAccepted, after_fault, lacks_channel, lacks_incident, unanswered};
ghost use Rattle.vdr_vault.specs.Visits.{ReadsEachOnce};
ghost use Rattle.vdr_visit.specs.declared.visit_refused.VisitRefused.TheVariants.{Fault as AFault, NoChannel, NoIncident, Output};
ghost use Rattle.vdr_recorder.specs.Looks.{HasLooked};
ghost use Rattle.vdr_recorder.specs.Playing.{HasPlayed};

use crate::Recorder;
use std::convert::Infallible;
use vdr_entry::{Query, Record};
use vdr_outside::{Media, Sink};
use vdr_play::{Tracks, print_record};
use vdr_visit::{VisitRefused, Visitor, VisitorRefused};

/// Prints records, each as `vdr_play::print_record` does. It takes no memory.
#[derive(Drop)]
pub struct Player {
    tracks: Tracks,
}

impl Player {
    /// A player that has printed nothing.
    pub fn new() -> Player
        ensures { result.tracks ≡ nothing_seen }
    {
        Player {
            tracks: Tracks::new(),
        }
    }
}

impl Visitor for Player {
    ghost use Rattle.std.specs.Prelude.{◌≡◌, []};
    ghost use Rattle.vdr_play.specs.Texts.{record_text, seen_by};

    type Reason = Infallible;

    ghost has = { λ first seen now. now.tracks ≡ seen_by first.tracks seen };

    ghost line = { λ first seen item. record_text (seen_by first.tracks seen) item };

    ghost last = { λ _ _. [] };

    ghost stops = { λ _ _ _. ⊥ };

    fn visit<O: Sink>(
        &mut self,
        item: &Record,
        out: &mut O,
    ) -> Result<(), VisitorRefused<Infallible>> {
        match print_record(item, &mut self.tracks, out) {
            Ok(()) => Ok(()),
            Err(_) => Err(VisitorRefused::Output),
        }
    }

    fn finish<O: Sink>(&mut self, _out: &mut O) -> Result<(), VisitorRefused<Infallible>> {
        Ok(())
    }
}

impl Recorder {
    /// Prints the records that a query selects, in order of place, each as `vdr_play::print_record` does, from new tracks on, and each as it is
    /// read: it takes no memory. Reads the query's medium alone, and of it at most a segment for each that meets the query, each once (`bound`).
    ///
    /// `NoChannel` comes before `NoIncident`, and both before `Fault` of a write that had failed. After `Fault` and `Damaged` the lines of
    /// whole records stand in the output, the first of those that are selected; after `Output` a front of the text. On media that hold
    /// what was recorded, regular or not, `Damaged` never comes.
    pub fn play<M: Media, O: Sink>(
        &mut self,
        media: &mut M,
        query: &Query,
        out: &mut O,
    ) -> Result<(), VisitRefused<Infallible>>
        requires rings { AreRings self.old.vault (M.disk media.old).sizes }
        ensures accepted { IsAccepted (lacks_channel (length self.old.vault.config.channels) query.now.channel) (lacks_incident self.old.vault.table (asked query.now).medium) result }
        ensures played { HasPlayed (asked query.now) self.old.vault (M.disk media.old) (O.taken out.old) (O.taken out.new) result }
        ensures unread { (result ≡ Err NoChannel) ⊎ (result ≡ Err NoIncident) → (self.new ≡ self.old) × (media.new ≡ media.old) × (out.new ≡ out.old) }
        ensures failed { self.old.vault.failed ≡ true → (self.new ≡ self.old) × (media.new ≡ media.old) × (out.new ≡ out.old)
            × (result ≡ after_fault (unanswered (lacks_channel (length self.old.vault.config.channels) query.now.channel) (lacks_incident self.old.vault.table (asked query.now).medium))) }
        ensures looked { HasLooked (asked query.now) self.old self.new (M.disk media.old) (M.disk media.new) (M.bytes_read media.old) (M.bytes_read media.new) (M.faults media.old) (M.faults media.new) (result ≡ Err AFault) }
        ensures bound { ReadsEachOnce (asked query.now) self.old.vault (M.bytes_read media.old) (M.bytes_read media.new) }
        ensures output { HasOutputCause (O.faults out.old) (O.faults out.new) (result ≡ Err Output) }
    {
        self.visit(media, query, &mut Player::new(), out)
    }
}
