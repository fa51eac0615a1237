// A medium that is made from the capsule, with a stop at each of its writes and syncs.
ghost use Rattle.std.specs.Prelude.{◌≤◌, length, IfOk};

use super::capsule::{BENCH, Capsule, bench, contents};
use std::alloc::{AllocError, Global};
use vdr_config::{Config, fits, read_config};
use vdr_memory::{MemoryMedia, RamMedia, Torn};
use vdr_outside::Media;
use vdr_remake::remake;
use vdr_ring::Ring;
use vdr_segment::OPEN_GATE;

// How many batches of one record each stand on the capsule: 54 in a segment.
const BATCHES: u64 = 130;

// How many writes and syncs it takes: one sync, a write for each of the 83 slots and 32 incident slots, three for its text and
// superblock, and a sync; one write for each of three segments, and a sync; a write and a sync of its gate.
const CALLS: u64 = 126;

// The bytes of a long-term medium, of 83 slots.
const LONG: usize = 712_704;

// A capsule on which so much was recorded.
fn recorded(alloc: Global) -> Option<RamMedia> {
    let mut capsule = Capsule::open(alloc, RamMedia::new(contents(alloc).ok()?))?;
    for number in 0..BATCHES {
        if !capsule.append(number) {
            return None;
        }
    }
    Some(capsule.into_media())
}

// That capsule beside an empty medium, from which the power goes after so many writes and syncs.
fn beside(alloc: Global, capsule: &RamMedia, stop: u64) -> Result<MemoryMedia, AllocError> {
    let mut bytes = Vec::new(alloc);
    bytes.extend_from_slice(capsule.contents(0))?;
    let media = vec![in alloc; bytes, vec![in alloc; 0u8; LONG]?]?;
    MemoryMedia::new(alloc, media, Vec::new(alloc), Some(stop))
}

// Whether a medium ends with the last batch, and holds the minute up to it.
fn is_whole(alloc: Global, media: &mut RamMedia, m: u8, config: &Config) -> Option<bool> {
    if m > 1 || media.count() != 2 || fits(config, &[media.size(0), media.size(1)]).is_err() {
        return None;
    }
    let ring = Ring::open(alloc, media, m, config).ok()?;
    let (place, _, _) = ring.last()?;
    Some(place == BATCHES - 1 && ring.holds(BATCHES - 120, BATCHES - 1))
}

// Whether such an image has the capsule as it was, and beside it a medium that is closed or whole, and whole where it was made.
fn is_left(alloc: Global, image: Vec<Vec<u8>>, config: &Config, is_made: bool) -> Option<bool> {
    if image.len() > 3 {
        return None;
    }
    let mut media = RamMedia::new(image);
    let is_open = media.contents(1).first() == Some(&OPEN_GATE);
    if !is_whole(alloc, &mut media, 0, config)? || (is_made && !is_open) {
        return Some(false);
    }
    if !is_open {
        return Some(true);
    }
    is_whole(alloc, &mut media, 1, config)
}

// Makes the long-term medium from the capsule. None where the two have no room.
fn is_made(alloc: Global, media: &mut MemoryMedia) -> Option<bool> {
    let Ok(config) = read_config(alloc, BENCH) else {
        return None;
    };
    if media.count() != 2 || fits(&config, &[media.size(0), media.size(1)]).is_err() {
        return None;
    }
    Some(remake(alloc, media, 0, 1, &config, BENCH).is_ok())
}

// Whether each image of this stop is as it should be, and whether the medium was made.
fn left_by(alloc: Global, capsule: &RamMedia, config: &Config, stop: u64) -> Option<(bool, bool)> {
    let mut media = beside(alloc, capsule, stop).ok()?;
    let made = is_made(alloc, &mut media)?;
    for torn in [Torn::Old, Torn::New, Torn::Filled(0xA5)] {
        if !is_left(alloc, media.image(&[], &torn).ok()?, config, made)? {
            return Some((false, made));
        }
    }
    Some((true, made))
}

/// Whether a stop at each of the first and of the last calls leaves the capsule as it was, and the other medium closed or whole, and
/// whole after the last.
pub(crate) fn left_by_stops(alloc: Global) -> Option<bool> {
    let config = bench(alloc)?;
    let capsule = recorded(alloc)?;
    for stop in 0..CALLS + 1 {
        if (3..CALLS - 6).contains(&stop) {
            continue;
        }
        let (is_left, is_made) = left_by(alloc, &capsule, &config, stop)?;
        if !is_left || is_made != (stop == CALLS) {
            return Some(false);
        }
    }
    Some(true)
}
