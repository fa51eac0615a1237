// A command behind its words, `record` among them.
ghost use Rattle.std.specs.Prelude.{◌≤◌, ◌<◌, ◌^◌, ℕ, length};
ghost use Rattle.vdr_recorder.specs.Watched.{nothing_told};
ghost use Rattle.vdr_session.specs.Calls.{AreByGroup};
ghost use Rattle.vdr_tool.specs.Answers.{Answers, Completes};
ghost use Rattle.vdr_tool.specs.Lives.{KeepsLife};
ghost use Rattle.vdr_tool.specs.Runs.{Asks, TouchesAsked};
ghost use Rattle.vdr_live.specs.Links.{seen_links};
ghost use Rattle.vdr_live.specs.Ports.{seen_ports};
ghost use Rattle.vdr_live.specs.Recordings.{AsksRecord};
ghost use Rattle.vdr_live.specs.Runs.{RecordsAlone, RunsAll};

use crate::recording::answer_record;
use crate::turns::turns_of;
use std::alloc::Global;
use std::sync::Wait;
use std::thread::Threads;
use vdr_capture::Lane;
use vdr_outside::{Link, Media, Port, Sink, Source};
use vdr_recorder::{Nobody, Watch};
use vdr_reply::Gauge;
use vdr_session::{Desk, Mark};
use vdr_tool::{Outer, Status, World, report, run_alone_watched};

/// Does what the words ask for, and tells how it ended.
///
/// - `record TURNS`, with 1 to 1,000,000,000,000 takes in decimal digits without a leading zero, reads no input. It opens the media and records on
///   them, as one run, what the ports of the configured groups give, each captured beside the others with at most TURNS takes. Meanwhile it
///   answers the orders of an operator that come over the links of the desks, with at most TURNS calls of each for a line. It ends when each
///   port and each link has ended, failed, or was asked so often, and prints the summary of the run, as `replay` does.
/// - For all other words it is `vdr_tool::run_alone`, and no port and no link is asked.
///
/// The lanes are those of the 16 transmission groups, each at the number of its group, and there are fewer than 2^32 desks. Where a port or a link
/// fails the others go on, and the run is closed and its summary printed before `PortFault`, which tells the least group whose port failed,
/// or, where no port failed, `LinkFault`, which tells the least link that did. A fault of the media wins over both; then no summary is
/// printed, and the media have to be opened again. For each status but `Done` and `OutputFault` the output ends with a status line.
///
/// The watch is told while media are recorded on: of their opening, and of each turn of the recorder that met no fault, behind it and before
/// anybody is answered. What it was told is on the media by then, whether the call returns or not. It gauges what an operator is told of the
/// ports and media, of which nothing is promised.
pub fn run_watched<
    I: Source + Drop,
    O: Sink + Drop,
    M: Media + Send + Drop,
    W: Watch<M> + Gauge<M> + Send,
    P: Port + Send,
    L: Link + Send,
    R: Threads + Wait + Sync,
>(
    rt: &R,
    alloc: Global,
    words: &[String],
    world: &mut World<I, O, M>,
    watch: &mut W,
    lanes: &mut [Lane<P>],
    desks: &mut [Desk<L, Mark>],
) -> Status
    requires two { 2 ≤ length (M.disk world.old.media).sizes }
    requires three { length (M.disk world.old.media).sizes ≤ 3 }
    requires lanes { AreByGroup lanes.old }
    requires desks { length desks.old < 2 ^ 32 }

    // `record` does what its page in `specs/` says, and then the line of its status is written; all other words are those of `run_alone`.
    ensures runs { let at = ⟦<World<I, O, M> as Outer>⟧.outside in RunsAll words.now (record { alone = at world.old; ports = seen_ports P.Port lanes.old; links = seen_links L.Link desks.old })
        (record { alone = at world.new; ports = seen_ports P.Port lanes.new; links = seen_links L.Link desks.new }) W.hears (W.seen watch.new) result }

    // Only a command that reads it touches the input, only one that uses them the media, and only `record` the ports and the links.
    ensures touches { TouchesAsked words.now world.old.input world.new.input world.old.media world.new.media result }
    ensures alone { RecordsAlone words.now world.old.input world.new.input lanes.old lanes.new desks.old desks.new result }

    // Media of this product stay so at every moment, and where nothing is formatted their life goes on.
    ensures lives { KeepsLife (Asks words.now) (M.disk world.old.media) (M.disk world.new.media) }

    // Over all words but `record`: each status comes only with its cause, and where nothing stands in the way, all is done.
    ensures answers { let at = ⟦<World<I, O, M> as Outer>⟧.outside in ((turns : ℕ) → AsksRecord words.now turns → ⊥) → Answers words.now (at world.old) (at world.new) W.hears (W.seen watch.new) result }
    ensures completes { let at = ⟦<World<I, O, M> as Outer>⟧.outside in ((turns : ℕ) → AsksRecord words.now turns → ⊥) → Completes words.now (at world.old) (at world.new) result }
{
    let Some(turns) = turns_of(words) else {
        return run_alone_watched(alloc, words, world, watch);
    };
    let Err(status) = answer_record(rt, alloc, turns, world, watch, lanes, desks) else {
        return Status::Done;
    };
    report(status, &mut world.output);
    status
}

/// Does what the words ask for as `run_watched` does, and tells nobody.
pub fn run<
    I: Source + Drop,
    O: Sink + Drop,
    M: Media + Send + Drop,
    P: Port + Send,
    L: Link + Send,
    R: Threads + Wait + Sync,
>(
    rt: &R,
    alloc: Global,
    words: &[String],
    world: &mut World<I, O, M>,
    lanes: &mut [Lane<P>],
    desks: &mut [Desk<L, Mark>],
) -> Status
    requires two { 2 ≤ length (M.disk world.old.media).sizes }
    requires three { length (M.disk world.old.media).sizes ≤ 3 }
    requires lanes { AreByGroup lanes.old }
    requires desks { length desks.old < 2 ^ 32 }
    ensures runs { let at = ⟦<World<I, O, M> as Outer>⟧.outside in RunsAll words.now (record { alone = at world.old; ports = seen_ports P.Port lanes.old; links = seen_links L.Link desks.old })
        (record { alone = at world.new; ports = seen_ports P.Port lanes.new; links = seen_links L.Link desks.new }) ⊥ nothing_told result }
    ensures touches { TouchesAsked words.now world.old.input world.new.input world.old.media world.new.media result }
    ensures alone { RecordsAlone words.now world.old.input world.new.input lanes.old lanes.new desks.old desks.new result }
    ensures lives { KeepsLife (Asks words.now) (M.disk world.old.media) (M.disk world.new.media) }
    ensures answers { let at = ⟦<World<I, O, M> as Outer>⟧.outside in ((turns : ℕ) → AsksRecord words.now turns → ⊥) → Answers words.now (at world.old) (at world.new) ⊥ nothing_told result }
    ensures completes { let at = ⟦<World<I, O, M> as Outer>⟧.outside in ((turns : ℕ) → AsksRecord words.now turns → ⊥) → Completes words.now (at world.old) (at world.new) result }
{
    run_watched(rt, alloc, words, world, &mut Nobody {}, lanes, desks)
}
