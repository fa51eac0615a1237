// Media are opened, what the ports give is recorded on them, and the orders of the links are answered.
//
// The summary of a recording is that of a replay: one text and one type of sums.
ghost use Rattle.std.specs.Prelude.{◌≡◌, ◌≤◌, ◌<◌, ◌^◌, length};
ghost use Rattle.vdr_session.specs.Calls.{AreByGroup};
ghost use Rattle.vdr_live.specs.Links.{seen_links};
ghost use Rattle.vdr_live.specs.Ports.{seen_ports};
ghost use Rattle.vdr_live.specs.Recordings.{RecordingEnds, most_turns};

use std::alloc::Global;
use std::sync::Wait;
use std::thread::Threads;
use vdr_capture::Lane;
use vdr_opening::OpenRefused;
use vdr_outside::{Link, Media, Port};
use vdr_recorder::{Recorder, Watch};
use vdr_reply::Gauge;
use vdr_session::{Desk, Mark, SessionEnd, record_at_desks};

/// Opens the media, and records what the ports of the lanes give as one run, with at most so many takes of each. The orders of the desks are
/// answered, with at most so many calls of each link for a line.
pub(crate) fn record_ports<
    M: Media + Send,
    W: Watch<M> + Gauge<M> + Send,
    P: Port + Send,
    L: Link + Send,
    R: Threads + Wait + Sync,
>(
    rt: &R,
    alloc: Global,
    media: &mut M,
    watch: &mut W,
    lanes: &mut [Lane<P>],
    desks: &mut [Desk<L, Mark>],
    turns: u64,
) -> Result<SessionEnd, OpenRefused>
    requires two { 2 ≤ length (M.disk media.old).sizes }
    requires three { length (M.disk media.old).sizes ≤ 3 }
    requires lanes { AreByGroup lanes.old }
    requires desks { length desks.old < 2 ^ 32 }
    requires turns { turns ≤ most_turns }
    ensures ends { RecordingEnds turns (seen_ports P.Port lanes.old) (seen_ports P.Port lanes.new) (seen_links L.Link desks.old) (seen_links L.Link desks.new)
        (record { disk = M.disk media.old; faults = M.faults media.old; bytes_read = M.bytes_read media.old })
        (record { disk = M.disk media.new; faults = M.faults media.new; bytes_read = M.bytes_read media.new }) W.hears (W.seen watch.new) result }
    ensures sizes { (M.disk media.new).sizes ≡ (M.disk media.old).sizes }
{
    let recorder = Recorder::open_watched(alloc, media, watch)?;
    watch.begins(recorder.config(), recorder.status().records);
    Ok(record_at_desks(rt, alloc, recorder, media, watch, lanes, desks, turns))
}
