// One record after another.
ghost use Rattle.std.specs.Prelude.{◌≡◌, ◌⊎◌, [], Ok, Err};
ghost use Rattle.vdr_durability.specs.Playback.{medium_of};
ghost use Rattle.vdr_entry.specs.Queries.{asked};
ghost use Rattle.vdr_vault.specs.Plays.{TellsDamageOf};
ghost use Rattle.vdr_vault.specs.Vaults.{AreRings};
ghost use Rattle.vdr_visit.specs.Prints.{text_of, whole_text};
ghost use Rattle.vdr_visit.specs.Refusals.{HasOutputCause};
ghost use Rattle.vdr_vault.specs.Refusals.{HasVisitCause, stop_by};
ghost use Rattle.vdr_vault.specs.Visits.{HasOnlyRead, HasVisited, ReadsEachOnce};
ghost use Rattle.vdr_visit.specs.declared.visit_refused.VisitRefused.TheVariants.{Damaged, Fault as AFault, NoChannel, NoIncident, Output};

use crate::Vault;
use vdr_entry::Query;
use vdr_outside::{Media, Sink};
use vdr_ring::{Cursor, ReadRefused};
use vdr_visit::{VisitRefused, Visitor};

// How a visit ends where a read is refused.
fn stop_by<R>(read: ReadRefused) -> VisitRefused<R>
    ensures { result ≡ stop_by read }
{
    match read {
        ReadRefused::Fault => VisitRefused::Fault,
        ReadRefused::Damaged { medium, offset } => VisitRefused::Damaged { medium, offset },
    }
}

// Hands the records of an accepted query to the visitor, until it stops. Each step leaves fewer, so that it ends on
// media that were changed from outside too.
fn visit_each<M: Media, V: Visitor, O: Sink>(
    vault: &mut Vault,
    media: &mut M,
    query: &Query,
    visitor: &mut V,
    out: &mut O,
) -> Result<(), VisitRefused<V::Reason>>
    requires rings { AreRings vault.old (M.disk media.old).sizes }
    ensures visited { (first : V) → V.has first [] visitor.old
        → HasVisited (asked query.now) vault.old (M.disk media.old) (λ seen. V.has first seen visitor.new) (V.stops first) (V.line first) (text_of (V.line first))
        (O.taken out.old) (O.taken out.new) result }
    ensures asked { (result ≡ Err NoChannel) ⊎ (result ≡ Err NoIncident) → ⊥ }
    ensures damage { TellsDamageOf (asked query.now) vault.old (M.disk media.old) (λ m offset. result ≡ Err (Damaged m offset)) (result ≡ Ok tt) }
    ensures read { HasOnlyRead (asked query.now) vault.old vault.new (M.disk media.old) (M.disk media.new) (M.bytes_read media.old) (M.bytes_read media.new) }
    ensures bound { ReadsEachOnce (asked query.now) vault.old (M.bytes_read media.old) (M.bytes_read media.new) }
    ensures cause { HasVisitCause (medium_of (asked query.now).medium) vault.old.failed (M.faults media.old) (M.faults media.new) (result ≡ Err AFault) }
    ensures output { HasOutputCause (O.faults out.old) (O.faults out.new) (result ≡ Err Output) }
{
    let mut cursor = Cursor::new();
    let mut found = match vault.first(media, query, &mut cursor) {
        Ok(found) => found,
        Err(refused) => return Err(stop_by(refused)),
    };
    while found {
        let Some(item) = cursor.item() else {
            unreachable!()
        };
        visitor.visit(item, out)?;
        found = match vault.next(media, query, &mut cursor) {
            Ok(found) => found,
            Err(refused) => return Err(stop_by(refused)),
        };
    }
    Ok(())
}

/// Hands the records of an accepted query to the visitor, and then their end, until it stops.
pub(crate) fn visit_all<M: Media, V: Visitor, O: Sink>(
    vault: &mut Vault,
    media: &mut M,
    query: &Query,
    visitor: &mut V,
    out: &mut O,
) -> Result<(), VisitRefused<V::Reason>>
    requires rings { AreRings vault.old (M.disk media.old).sizes }
    ensures visited { (first : V) → V.has first [] visitor.old
        → HasVisited (asked query.now) vault.old (M.disk media.old) (λ seen. V.has first seen visitor.new) (V.stops first) (V.line first) (whole_text (V.line first) (V.last first))
        (O.taken out.old) (O.taken out.new) result }
    ensures asked { (result ≡ Err NoChannel) ⊎ (result ≡ Err NoIncident) → ⊥ }
    ensures damage { TellsDamageOf (asked query.now) vault.old (M.disk media.old) (λ m offset. result ≡ Err (Damaged m offset)) (result ≡ Ok tt) }
    ensures read { HasOnlyRead (asked query.now) vault.old vault.new (M.disk media.old) (M.disk media.new) (M.bytes_read media.old) (M.bytes_read media.new) }
    ensures bound { ReadsEachOnce (asked query.now) vault.old (M.bytes_read media.old) (M.bytes_read media.new) }
    ensures cause { HasVisitCause (medium_of (asked query.now).medium) vault.old.failed (M.faults media.old) (M.faults media.new) (result ≡ Err AFault) }
    ensures output { HasOutputCause (O.faults out.old) (O.faults out.new) (result ≡ Err Output) }
{
    visit_each(vault, media, query, visitor, out)?;
    visitor.finish(out)?;
    Ok(())
}
