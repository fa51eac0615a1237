// What a ring's index tells of where places stand.
ghost use Rattle.std.specs.Prelude.{◌≡◌, ◌<◌, ◌≤◌, ◌+◌, ◌↔◌, ℕ, List, IsTrue};
ghost use Rattle.vdr_index.specs.declared.known.Known.{Known as AKnown};
ghost use Rattle.vdr_index.specs.Indexes.{Keeps};
ghost use Rattle.vdr_directory.specs.Sequence.{Placed};
ghost use Rattle.vdr_index.specs.Indexes.{IsAbove};
ghost use Rattle.vdr_directory.specs.Telling.{HoldAllBy, IsIndexedBy, RiseBy};

use vdr_index::{Index, Known};

// Where no number is given, each is above.
pub(crate) fn is_above(seq: u64, after: Option<u64>) -> bool
    ensures { IsTrue result ↔ IsAbove after seq }
{
    match after {
        None => true,
        Some(after) => after < seq,
    }
}

// A slot that has a segment, and the segment's sequence number.
pub(crate) fn with_seq(index: &Index, slot: u32) -> (u32, u64)
    requires { (k : AKnown) × Keeps index.now slot k }
    ensures slot { result.0 ≡ slot }
    ensures seq { (k : AKnown) → Keeps index.now slot k → result.1 ≡ k.seq }
{
    let Some(known) = index.known(slot) else {
        unreachable!()
    };
    (slot, known.seq)
}

// Whether the segment of which this is known has this place. No sum is taken: what is known are any numbers.
fn has_place(known: Known, place: u64) -> bool
    ensures { IsTrue result ↔ ((known.first ≤ place) × (place < known.first + known.summary.count)) }
{
    known.first <= place && place - known.first < known.summary.count as u64
}

// Whether all places from a to b stand in the segments of an index.
pub(crate) fn holds_all(index: &Index, a: u64, b: u64) -> bool
    ensures { (count : ℕ) (known : List Placed) → IsIndexedBy count known index.now → RiseBy known → IsTrue result ↔ HoldAllBy a b known }
{
    if a > b {
        return true;
    }
    let order = index.in_order();
    let mut place = a;
    for slot in order {
        let Some(known) = index.known(*slot) else {
            continue;
        };
        if !has_place(known, place) {
            continue;
        }
        if has_place(known, b) {
            return true;
        }
        place = known.first + known.summary.count as u64;
    }
    false
}
