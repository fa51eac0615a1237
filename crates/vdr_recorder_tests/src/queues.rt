// What a run is made of whose queue was full.
ghost use Rattle.std.specs.Prelude.{◌≡◌, []};

mod bench;
mod plays;

use bench::{Bench, FOUR_FULL, Run};
pub(crate) use plays::{gone_between_turns, printed_in_turns};
use std::alloc::{AllocError, Global};
use std::sync::Wait;
use vdr_capture::{Lane, capture};
use vdr_intake::{Feeder, Intake, Taker};
use vdr_media::format;
use vdr_memory::{MemoryPort, PortItem, RamMedia, are_in_order};
use vdr_outside::Media;
use vdr_recorder::Medium;

// The bench configuration: windows of 60 and 600 seconds.
const BENCH: &[u8] =
    b"{\"profile\":\"bench\",\"capsule_seconds\":60,\"long_seconds\":600,\"incident_seconds\":30,\"incident_slots\":2,\"segment\":8192,\"batch\":2048,\"queue\":16,\"groups\":[{\"name\":\"NAVD\",\"datagrams\":2,\"bytes\":200}],\"channels\":[{\"name\":\"heading\",\"group\":\"NAVD\",\"kind\":\"sentence\",\"formatter\":\"HDT\"}]}";

// Media of 16 and 145 slots.
fn unformatted(alloc: Global) -> Result<Vec<Vec<u8>>, AllocError> {
    let mut media = Vec::new(alloc);
    media.push(vec![in alloc; 0u8; 163_840]?)?;
    media.push(vec![in alloc; 0u8; 1_220_608]?)?;
    Ok(media)
}

// The same, formatted.
fn formatted(alloc: Global) -> Option<RamMedia> {
    let media = unformatted(alloc).ok()?;
    if media.len() != 2 {
        return None;
    }
    let mut media = RamMedia::new(media);
    if media.count() == 2 && format(alloc, &mut media, BENCH, false).is_ok() {
        Some(media)
    } else {
        None
    }
}

// Twenty datagrams, half a second apart.
fn twenty(alloc: Global) -> Result<Vec<PortItem>, AllocError> {
    let mut items = Vec::new(alloc);
    for number in 0..20 {
        items.push(PortItem {
            received: 500 * number,
            utc: 0,
            bytes: b"AbCdE\0".to_vec(alloc)?,
        })?;
    }
    Ok(items)
}

// A port that gives them.
fn port(alloc: Global) -> Option<MemoryPort> {
    let items = twenty(alloc).ok()?;
    if are_in_order(items.as_slice()) {
        Some(MemoryPort::new(items, Vec::new(alloc), Vec::new(alloc)))
    } else {
        None
    }
}

// Captures the port, which the queue has room for sixteen items of. Whether four are counted as full.
fn captures_sixteen<R: Wait>(rt: &R, queue: &Intake, feeder: Feeder, port: MemoryPort) -> bool
    requires group { queue.now.group ≡ 3 }
    requires new { feeder ≡ record { queue = queue.now; pushed = []; full = 0 } }
{
    let mut lane = Lane::new(port, 3);
    lane.feeder = Some(feeder);
    capture(rt, &mut lane, 21, queue);
    lane.tally.counts() == FOUR_FULL
}

// Records the sixteen items of the queue, each as a batch. Whether these are all.
fn drains<M: Media + Drop, R: Wait>(
    rt: &R,
    queue: &Intake,
    mut taker: Taker,
    run: &mut Run<M>,
) -> bool
    requires { taker.queue ≡ queue.now }
{
    for _ in 0..16 {
        let Some(item) = queue.next(rt, &mut taker) else {
            return false;
        };
        if !run.take(item) {
            return false;
        }
    }
    queue.next(rt, &mut taker).is_none()
}

// What is played of the run: the Start, the sixteen items half a second apart, a Gap of the four, and the Stop.
fn played(alloc: Global) -> Result<String, AllocError> {
    let mut text = String::from_str(alloc, "0 - - 1970-01-01T00:00:00.000Z start\n")?;
    for number in 0..16u8 {
        let place = number + 1;
        write!(
            text,
            "{place} NAVD {number} 1970-01-01T00:00:00.000Z data 6 AbCdE<00>\n  opaque\n"
        )?;
    }
    text.push_str("17 NAVD 16 1970-01-01T00:00:00.000Z gap 4 0 0 0\n")?;
    text.push_str("18 - - 1970-01-01T00:00:00.000Z stop\n")?;
    Ok(text)
}

// Records what a queue of sixteen holds of twenty items. Whether it holds sixteen, and the other four are counted.
fn records_sixteen<M: Media + Drop, R: Wait>(
    rt: &R,
    alloc: Global,
    run: &mut Run<M>,
) -> Option<bool> {
    let port = port(alloc)?;
    let Ok((queue, feeder, taker)) = Intake::new(alloc, 3, 16) else {
        return None;
    };
    Some(captures_sixteen(rt, &queue, feeder, port) && drains(rt, &queue, taker, run))
}

/// Whether what found no room stands in a closing Gap, behind what the queue held.
pub(crate) fn drained<R: Wait>(rt: &R, alloc: Global) -> Option<bool> {
    let text = played(alloc).ok()?;
    let mut run = Bench::open(alloc, formatted(alloc)?)?.start()?;
    if !records_sixteen(rt, alloc, &mut run)? {
        return Some(false);
    }
    let mut bench = run.stop_full()?;
    Some(bench.plays(alloc, Medium::LongTerm, text.as_bytes()))
}
