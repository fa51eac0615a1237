// Handing the records that a query selects to a visitor.
ghost use Rattle.std.specs.Prelude.{◌≡◌, ◌⊎◌, [], length, true, Ok, Err};
ghost use Rattle.vdr_durability.specs.Playback.{medium_of};
ghost use Rattle.vdr_entry.specs.Queries.{asked};
ghost use Rattle.vdr_vault.specs.Plays.{TellsDamageOf};
ghost use Rattle.vdr_vault.specs.Vaults.{AreRings};
ghost use Rattle.vdr_visit.specs.Prints.{whole_text};
ghost use Rattle.vdr_visit.specs.Refusals.{HasOutputCause, IsAccepted, after_fault, lacks_channel, lacks_incident, unanswered};
ghost use Rattle.vdr_vault.specs.Refusals.{HasVisitCause};
ghost use Rattle.vdr_vault.specs.Visits.{HasOnlyRead, HasVisited, ReadsEachOnce};
ghost use Rattle.vdr_visit.specs.declared.visit_refused.VisitRefused.TheVariants.{Damaged, Fault as AFault, NoChannel, NoIncident, Output};

use crate::Vault;
use crate::asking::accept;
use crate::each::visit_all;
use vdr_entry::Query;
use vdr_outside::{Media, Sink};
use vdr_visit::{VisitRefused, Visitor};

/// Hands the records that a query selects to the visitor, in order of place, each once, and then their end. Reads the query's medium
/// alone, and of it at most a segment for each that meets the query, each once (`bound`). Takes no memory of its own.
///
/// `NoChannel` comes before `NoIncident`, and both before `Fault` of a write that had failed. After `Fault` and `Damaged` the text of just
/// the records that were handed on stands in the output. On media that hold what was recorded, regular or not, `Damaged` never comes.
pub fn visit_selected<M: Media, V: Visitor, O: Sink>(
    vault: &mut Vault,
    media: &mut M,
    query: &Query,
    visitor: &mut V,
    out: &mut O,
) -> Result<(), VisitRefused<V::Reason>>
    requires rings { AreRings vault.old (M.disk media.old).sizes }
    ensures accepted { IsAccepted (lacks_channel (length vault.old.config.channels) query.now.channel) (lacks_incident vault.old.table (asked query.now).medium) result }
    ensures visited { (first : V) → V.has first [] visitor.old
        → HasVisited (asked query.now) vault.old (M.disk media.old) (λ seen. V.has first seen visitor.new) (V.stops first) (V.line first) (whole_text (V.line first) (V.last first))
        (O.taken out.old) (O.taken out.new) result }
    ensures unread { (result ≡ Err NoChannel) ⊎ (result ≡ Err NoIncident) → (vault.new ≡ vault.old) × (media.new ≡ media.old) × (visitor.new ≡ visitor.old) × (out.new ≡ out.old) }
    ensures failed { vault.old.failed ≡ true → (vault.new ≡ vault.old) × (media.new ≡ media.old) × (visitor.new ≡ visitor.old) × (out.new ≡ out.old)
        × (result ≡ after_fault (unanswered (lacks_channel (length vault.old.config.channels) query.now.channel) (lacks_incident vault.old.table (asked query.now).medium))) }
    ensures damage { TellsDamageOf (asked query.now) vault.old (M.disk media.old) (λ m offset. result ≡ Err (Damaged m offset)) (result ≡ Ok tt) }
    ensures read { HasOnlyRead (asked query.now) vault.old vault.new (M.disk media.old) (M.disk media.new) (M.bytes_read media.old) (M.bytes_read media.new) }
    ensures bound { ReadsEachOnce (asked query.now) vault.old (M.bytes_read media.old) (M.bytes_read media.new) }
    ensures cause { HasVisitCause (medium_of (asked query.now).medium) vault.old.failed (M.faults media.old) (M.faults media.new) (result ≡ Err AFault) }
    ensures output { HasOutputCause (O.faults out.old) (O.faults out.new) (result ≡ Err Output) }
{
    accept(vault, query)?;
    if vault.failed() {
        return Err(VisitRefused::Fault);
    }
    visit_all(vault, media, query, visitor, out)
}
