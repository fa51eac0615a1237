// Which segment is written over.
ghost use Rattle.std.specs.Prelude.{◌≡◌, ◌<◌, ◌≤◌, ◌+◌, ℕ, List, All, IfSome, IfNone, find, get_or, nat_le, None};
ghost use Rattle.std.specs.List.{list_all};
ghost use Rattle.vdr_durability.specs.Victims.{IsLastSecond, is_apart};
ghost use Rattle.vdr_index.specs.Indexes.{passes_by};
ghost use Rattle.vdr_directory.specs.Sequence.{Placed, all_records};
ghost use Rattle.vdr_directory.specs.Order.{AreInOrder};
ghost use Rattle.vdr_directory.specs.Directories.{count_of};
ghost use Rattle.vdr_directory.specs.Holds.{Tells};
ghost use Rattle.vdr_ring.specs.Stages.{IsOldest};
ghost use Rattle.vdr_ring.specs.Candidates.{MayGoAsKnown, goes, known_of, pin_of};

use crate::pins::{Pin, Pins};
use vdr_directory::Directory;
use vdr_index::{Index, Known};

// The second of the last record, 0 where there is none.
fn last_second(directory: &Directory) -> u64
    ensures { (count : ℕ) (placed : List Placed) → Tells count placed directory.now → IsLastSecond result (all_records placed) }
{
    match directory.ending() {
        None => 0,
        Some(ending) => ending.tick / 1000,
    }
}

// Whether so many from this number on end at another, or before. No sum is taken: what is known of a segment are any numbers.
fn end_by(from: u64, count: u64, end: u64) -> bool
    ensures { result ≡ nat_le (from + count) end }
{
    from <= end && count <= end - from
}

// Whether a segment of which this is known has no pinned place.
fn is_apart(known: Known, pin: Pin) -> bool
    ensures { result ≡ is_apart (known_of known) (pin_of pin) }
{
    pin.b < pin.a || pin.b < known.first || end_by(known.first, known.summary.count as u64, pin.a)
}

fn is_apart_from(known: Known, pins: &[Pin]) -> bool
    ensures { result ≡ list_all (λ pin. is_apart (known_of known) (pin_of pin)) pins.now }
{
    pins.iter().all(|pin| is_apart(known, *pin))
}

// Whether a segment of which this is known may go from a medium whose last record is of this second. Where nothing is known there
// is none that may.
fn may_go(known: Option<Known>, medium_second: u64, seconds: u64, pins: &Pins) -> bool
    ensures { result ≡ passes_by (goes seconds pins.now medium_second) known }
{
    let Some(known) = known else {
        return false;
    };
    end_by(known.summary.last_second, seconds, medium_second)
        && is_apart_from(known, pins.as_slice())
}

// The first of these slots whose segment may go from a medium whose last record is of this second.
fn first_to_go(
    index: &Index,
    slots: &[u32],
    medium_second: u64,
    seconds: u64,
    pins: &Pins,
) -> Option<u32>
    ensures { result ≡ find (λ j. passes_by (goes seconds pins.now medium_second) (get_or index.now j None)) slots.now }
{
    slots.iter().copied().find(|slot| may_go(index.known(*slot), medium_second, seconds, pins))
}

// The slot of the oldest candidate: of the first segment that, by what is known of it, has no record of the medium's window and no
// pinned place.
pub(crate) fn oldest_candidate(directory: &Directory, seconds: u64, pins: &Pins) -> Option<u32>
    ensures within { IfSome result (λ slot. slot < count_of directory.now) }
    ensures some { IfSome result (λ slot. (count : ℕ) (placed : List Placed) → Tells count placed directory.now → AreInOrder placed
        → (before : List Placed) × (victim : Placed) × (after : List Placed) × IsOldest seconds pins.now placed before victim after × (slot ≡ victim.slot)) }
    ensures none { IfNone result ((count : ℕ) (placed : List Placed) → Tells count placed directory.now → AreInOrder placed
        → All (λ p. MayGoAsKnown seconds pins.now (all_records placed) p → ⊥) placed) }
{
    let index = directory.index();
    if let Some(slot) = first_to_go(
        index,
        index.in_order(),
        last_second(directory),
        seconds,
        pins,
    ) {
        return Some(slot);
    }
    let newest = directory.empty_newest()?;
    Some(newest.slot)
}
