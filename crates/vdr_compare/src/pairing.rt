// Two media in step, from place to place.
ghost use Rattle.std.specs.Prelude.{◌≡◌, ◌<◌, ◌+◌, List, Some, IfOk};
ghost use Rattle.vdr_outside.specs.Disk.{Unchanged, content};
ghost use Rattle.vdr_segment.specs.Areas.{HasRoom};
ghost use Rattle.vdr_compare.specs.declared.standing.Standing.{Standing as AStanding};
ghost use Rattle.vdr_compare.specs.Sides.{AreAhead, GoesTo, HasReadCause, ahead_of, is_on_capsule, is_on_longterm, of_both, standing_at};

use crate::Standing;
use crate::side::Side;
use crate::standing::is_same;
use vdr_entry::Record;
use vdr_outside::{Fault, Media};

// What stands at the lesser of the places of two records.
fn of_both(capsule: &Record, longterm: &Record) -> Standing
    ensures { result ≡ of_both capsule.now longterm.now }
{
    let place = capsule.place;
    let other = longterm.place;
    if place == other {
        let same = is_same(capsule, longterm);
        return Standing::Both { place, same };
    }
    if place < other {
        Standing::of_capsule(capsule)
    } else {
        Standing::of_longterm(longterm)
    }
}

// What stands at the least place that is at hand. None where no record is left on either medium.
fn standing_at(capsule: &Side, longterm: &Side) -> Option<Standing>
    ensures { result ≡ standing_at capsule.now.more capsule.now.item longterm.now.more longterm.now.item }
{
    if capsule.more {
        if longterm.more {
            return Some(of_both(&capsule.item, &longterm.item));
        }
        return Some(Standing::of_capsule(&capsule.item));
    }
    if longterm.more {
        return Some(Standing::of_longterm(&longterm.item));
    }
    None
}

fn is_on_capsule(standing: Standing) -> bool
    ensures { result ≡ is_on_capsule standing }
{
    match standing {
        Standing::Both { .. } | Standing::Capsule { .. } => true,
        Standing::LongTerm { .. } => false,
    }
}

fn is_on_longterm(standing: Standing) -> bool
    ensures { result ≡ is_on_longterm standing }
{
    match standing {
        Standing::Both { .. } | Standing::LongTerm { .. } => true,
        Standing::Capsule { .. } => false,
    }
}

/// Goes on to the next place, and answers what stands there. None where no record is left on either medium. `Fault`: a read failed.
pub(crate) fn next_standing<M: Media>(
    capsule: &mut Side,
    longterm: &mut Side,
    media: &mut M,
) -> Result<Option<Standing>, Fault>
    requires capsule { HasRoom capsule.old.cursor.area (M.disk media.old).sizes }
    requires longterm { HasRoom longterm.old.cursor.area (M.disk media.old).sizes }
    ensures areas { (capsule.new.cursor.area ≡ capsule.old.cursor.area) × (longterm.new.cursor.area ≡ longterm.old.cursor.area) }
    ensures onward { (standing : AStanding) → result ≡ Ok (Some standing) → ahead_of capsule.new + ahead_of longterm.new < ahead_of capsule.old + ahead_of longterm.old }
    ensures gives { IfOk result (λ standing. M.tells → (ahead : List AStanding)
        → AreAhead (content (M.disk media.old).reads capsule.old.cursor.area.medium) (content (M.disk media.old).reads longterm.old.cursor.area.medium) capsule.old longterm.old ahead
        → GoesTo (content (M.disk media.old).reads capsule.old.cursor.area.medium) (content (M.disk media.old).reads longterm.old.cursor.area.medium) standing capsule.new longterm.new ahead) }
    ensures unchanged { Unchanged (M.disk media.old) (M.disk media.new) }
    ensures cause { HasReadCause (M.faults media.old) (M.faults media.new) result }
{
    let Some(standing) = standing_at(capsule, longterm) else {
        return Ok(None);
    };
    capsule.pass(is_on_capsule(standing), media)?;
    longterm.pass(is_on_longterm(standing), media)?;
    Ok(Some(standing))
}
