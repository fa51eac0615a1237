// What is read, as a trait.
//
// Whoever makes something of records needs not to know where they come from. Of two visits, one after the other, the
// laws say what both leave, so that a file may be made in two passes.
ghost use Rattle.std.specs.Prelude.{◌≡◌, ◌⊎◌, ℕ, Bool, true, List, [], Err, Option};
ghost use Rattle.vdr_terms.specs.Queries.{Medium as Read, Query as Asked};
ghost use Rattle.vdr_terms.specs.Records.{Record as Entry};
ghost use Rattle.vdr_outside.specs.declared.media.Media.{Ghosts as MediaTells};
ghost use Rattle.vdr_entry.specs.Queries.{asked};
ghost use Rattle.vdr_visit.specs.Prints.{whole_text};
ghost use Rattle.vdr_visit.specs.Refusals.{HasOutputCause, IsAccepted, after_fault, unanswered};
ghost use Rattle.vdr_visit.specs.Visits.{HasHanded, ReadEnd, end_of};
ghost use Rattle.vdr_visit.specs.Visits.ReadEnd.{AllRead, CutOff, ReadFault};
ghost use Rattle.vdr_visit.specs.declared.visit_refused.VisitRefused.TheVariants.{NoChannel, NoIncident, Output};

use crate::{VisitRefused, Visitor};
use vdr_entry::Query;
use vdr_outside::{Media, Sink};

/// What hands the records that a query selects to a visitor, in order of place, each once.
pub trait Reader {
    /// It may read media of these sizes.
    ghost may_read: { Self → List ℕ → Type 0 };

    /// It knows no channel of this number.
    ghost lacks_channel: { Self → Option ℕ → Bool };

    /// It asks for an incident that is not live there.
    ghost lacks_incident: { Self → Read → Bool };

    /// A write had failed, and nothing is read any more.
    ghost failed: { Self → Bool };

    /// The media tell what they read as, and so the query selects these records.
    ghost tells: { (M : Type 0) → MediaTells M → Self → M → Asked → List Entry → Type 0 };

    /// Visits of the query leave this of it and of the media, where the last of them ended so and all others with all read.
    ghost leaves: { (M : Type 0) → MediaTells M → Asked → (old new : Self) → (before after : M) → ReadEnd → Type 0 };

    /// One visit of the query reads at most this of the media.
    ghost costs: { (M : Type 0) → MediaTells M → Asked → Self → (before after : M) → Type 0 };

    /// Whether a write has failed since the media were opened.
    fn failed(&self) -> bool
        ensures { result ≡ failed self.now };

    /// Whether a query asks for a channel that is configured and for an incident that is live, where it asks for one.
    fn accept<R>(&self, query: &Query) -> Result<(), VisitRefused<R>>
        ensures { result ≡ unanswered (lacks_channel self.now query.now.channel) (lacks_incident self.now (asked query.now).medium) };

    /// Hands the records that a query selects to the visitor, and then their end. `NoChannel` comes before `NoIncident`, and both before
    /// `Fault` of a write that had failed. After `Fault` and `Damaged` the text of just the records that were handed on stands in the
    /// output.
    fn visit<M: Media, V: Visitor, O: Sink>(
        &mut self,
        media: &mut M,
        query: &Query,
        visitor: &mut V,
        out: &mut O,
    ) -> Result<(), VisitRefused<V::Reason>>
        requires may { may_read self.old (M.disk media.old).sizes }
        ensures accepted { IsAccepted (lacks_channel self.old query.now.channel) (lacks_incident self.old (asked query.now).medium) result }
        ensures handed { (first : V) → V.has first [] visitor.old
            → HasHanded (tells _ M.Media self.old media.old (asked query.now)) (λ seen. V.has first seen visitor.new) (V.stops first) (V.line first) (whole_text (V.line first) (V.last first))
            (O.taken out.old) (O.taken out.new) result }
        ensures unread { (result ≡ Err NoChannel) ⊎ (result ≡ Err NoIncident) → (self.new ≡ self.old) × (media.new ≡ media.old) × (visitor.new ≡ visitor.old) × (out.new ≡ out.old) }
        ensures failed { failed self.old ≡ true → (self.new ≡ self.old) × (media.new ≡ media.old) × (visitor.new ≡ visitor.old) × (out.new ≡ out.old)
            × (result ≡ after_fault (unanswered (lacks_channel self.old query.now.channel) (lacks_incident self.old (asked query.now).medium))) }
        ensures leaves { leaves _ M.Media (asked query.now) self.old self.new media.old media.new (end_of result) }
        ensures costs { costs _ M.Media (asked query.now) self.old media.old media.new }
        ensures output { HasOutputCause (O.faults out.old) (O.faults out.new) (result ≡ Err Output) };

    /// The law of visits: what they leave may be read as before, and of two, one after the other, all is left that both leave.
    fn law_of_visits<M: Media>()
        ensures may { (query : Asked) (a b : Self) (x y : M) (end : ReadEnd) → leaves _ M.Media query a b x y end → may_read b (M.disk y).sizes }
        ensures channel { (query : Asked) (a b : Self) (x y : M) (end : ReadEnd) → leaves _ M.Media query a b x y end → (k : Option ℕ) → lacks_channel b k ≡ lacks_channel a k }
        ensures incident { (query : Asked) (a b : Self) (x y : M) (end : ReadEnd) → leaves _ M.Media query a b x y end → (m : Read) → lacks_incident b m ≡ lacks_incident a m }
        ensures told { (query : Asked) (a b : Self) (x y : M) (end : ReadEnd) → leaves _ M.Media query a b x y end → (records : List Entry) → tells _ M.Media a x query records → tells _ M.Media b y query records }
        ensures failed { (query : Asked) (a : Self) (x : M) → may_read a (M.disk x).sizes → failed a ≡ true → leaves _ M.Media query a a x x ReadFault }
        ensures free { (query : Asked) (a : Self) (x : M) → may_read a (M.disk x).sizes → costs _ M.Media query a x x }
        ensures none { (query : Asked) (a : Self) (x : M) → may_read a (M.disk x).sizes → leaves _ M.Media query a a x x CutOff }
        ensures cut { (query : Asked) (a b : Self) (x y : M) (end : ReadEnd) → leaves _ M.Media query a b x y end → leaves _ M.Media query a b x y CutOff }
        ensures joined { (query : Asked) (a b c : Self) (x y z : M) (end : ReadEnd) → leaves _ M.Media query a b x y AllRead → leaves _ M.Media query b c y z end → leaves _ M.Media query a c x z end };
}
