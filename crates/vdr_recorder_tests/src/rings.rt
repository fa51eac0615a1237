// A ring of which slots are written over: batches of one record each, which no command of the program appends.
mod capsule;
mod remakes;

use capsule::{Capsule, contents};
pub(crate) use remakes::left_by_stops;
use std::alloc::Global;
use vdr_memory::{MemoryMedia, RamMedia, Torn};
use vdr_outside::Media;
use vdr_ring::{Pins, Ring};

// How many batches stand on the capsule before a slot is written over: 54 in each of 11 segments.
const FIRST_ROUND: u64 = 594;

// Four writes and syncs for each batch, four for each segment that is begun, and four for the summary of each that is
// left.
const CALLS_BEFORE: u64 = 4 * FIRST_ROUND + 4 * 11 + 4 * 10;

// Two writes and syncs close the oldest segment; four begin the next one, four append its batch, four write the
// summary of the one before.
const LEAVING: u64 = 14;

// Appends the batches of these numbers. Whether each is appended, and the last 60 seconds are held after each.
fn appends<M: Media + Drop>(capsule: &mut Capsule<M>, from: u64, to: u64) -> bool {
    for number in from..to {
        if !capsule.append(number) || !holds_minute(capsule.ring(), number) {
            return false;
        }
    }
    true
}

// Whether the ring ends with the batch of this number, and holds all of the 60 seconds up to it.
fn holds_minute(ring: &Ring, number: u64) -> bool {
    let first = 2 * (number / 2).saturating_sub(59);
    let Some((place, _, _)) = ring.last() else {
        return false;
    };
    place == number && ring.last_batch() == Some(number) && ring.holds(first, number)
}

fn is_empty(ring: &Ring) -> bool {
    (ring.last(), ring.next_slot(None)) == (None, None)
}

// Whether each slot is used, and the first one is the next.
fn is_full(ring: &Ring) -> bool {
    (ring.next_slot(None), ring.victim(&Pins::new())) == (Some((0, 0)), 0)
}

// Whether the first slot is written over, and the batches from 54 on are held.
fn is_wrapped(ring: &Ring) -> bool {
    (ring.next_slot(None), ring.next_slot(Some(10))) == (Some((1, 1)), Some((0, 11)))
        && ring.holds(54, 599)
        && !ring.holds(53, 599)
}

/// Whether the last 60 seconds are held after each of 600 batches, which write the first slot over.
pub(crate) fn held_after_each(alloc: Global) -> Option<bool> {
    let media = RamMedia::new(contents(alloc).ok()?);
    let mut capsule = Capsule::open(alloc, media)?;
    Some(
        is_empty(capsule.ring())
            && appends(&mut capsule, 0, FIRST_ROUND)
            && is_full(capsule.ring())
            && appends(&mut capsule, FIRST_ROUND, 600)
            && is_wrapped(capsule.ring()),
    )
}

// What the medium holds once it is opened again: the place of its last record, and whether the 60 seconds up to it
// are there.
fn last_minute(alloc: Global, image: Vec<Vec<u8>>) -> Option<(u64, bool)> {
    if image.len() > 3 {
        return None;
    }
    let capsule = Capsule::open(alloc, RamMedia::new(image))?;
    let (place, _, _) = capsule.ring().last()?;
    Some((place, holds_minute(capsule.ring(), place)))
}

// The capsule before a slot is written over, whose power goes after so many writes and syncs more.
fn first_round(alloc: Global, stop: u64) -> Option<Capsule<MemoryMedia>> {
    let stop = Some(CALLS_BEFORE.saturating_add(stop));
    let media = MemoryMedia::new(alloc, contents(alloc).ok()?, Vec::new(alloc), stop).ok()?;
    let mut capsule = Capsule::open(alloc, media)?;
    if appends(&mut capsule, 0, FIRST_ROUND) && capsule.media().made().changes() == CALLS_BEFORE {
        Some(capsule)
    } else {
        None
    }
}

// Whether such an image holds the last minute without the batch that writes a slot over or with it, and with it where it
// was appended.
fn is_held(alloc: Global, media: &MemoryMedia, torn: &Torn, is_appended: bool) -> Option<bool> {
    let (last, is_held) = last_minute(alloc, media.image(&[], torn).ok()?)?;
    Some(is_held && (last == FIRST_ROUND || (last == FIRST_ROUND - 1 && !is_appended)))
}

// Whether each image of this stop holds it.
fn are_held(alloc: Global, stop: u64) -> Option<bool> {
    let mut capsule = first_round(alloc, stop)?;
    let is_appended = capsule.append(FIRST_ROUND);
    let media = capsule.into_media();
    for torn in [Torn::Old, Torn::New, Torn::Filled(0xA5)] {
        if !is_held(alloc, &media, &torn, is_appended)? {
            return Some(false);
        }
    }
    Some(is_appended == (stop == LEAVING))
}

/// Whether a stop at each call of the batch that writes a slot over leaves the last minute without that batch or with it.
pub(crate) fn left_by_each_stop(alloc: Global) -> Option<bool> {
    for stop in 0..LEAVING + 1 {
        if !are_held(alloc, stop)? {
            return Some(false);
        }
    }
    Some(true)
}
