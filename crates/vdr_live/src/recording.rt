// The command `record TURNS`.
ghost use Rattle.std.specs.Prelude.{◌≡◌, ◌≤◌, ◌<◌, ◌^◌, length};
ghost use Rattle.vdr_session.specs.Calls.{AreByGroup};
ghost use Rattle.vdr_command.specs.Endings.{ending};
ghost use Rattle.vdr_tool.specs.Summaries.{summary_text};
ghost use Rattle.vdr_command.specs.declared.status.Status.TheVariants.{Words};
ghost use Rattle.vdr_live.specs.Links.{seen_links};
ghost use Rattle.vdr_live.specs.Ports.{seen_ports};
ghost use Rattle.vdr_live.specs.Recordings.{PrintsSession, Records, most_turns};

use crate::session::record_ports;
use std::alloc::Global;
use std::sync::Wait;
use std::thread::Threads;
use vdr_capture::{Lane, Outcome};
use vdr_outside::{Link, Media, Port, Sink, Source, print_buffered};
use vdr_recorder::Watch;
use vdr_reply::Gauge;
use vdr_session::{Desk, Mark, SessionEnd};
use vdr_tool::{Outer, Status, Summary, World, law_of_openings};

// Prints the summary of a session whose run was closed. A status that is already decided stands where the output fails.
fn print_session<O: Sink>(end: SessionEnd, output: &mut O) -> Result<(), Status>
    ensures printed { PrintsSession end.outcome (summary_text end.groups end.records) (ending result) (record { taken = O.taken output.old; faults = O.faults output.old })
        (record { taken = O.taken output.new; faults = O.faults output.new }) }
    ensures known { ending result ≡ Words → ⊥ }
    ensures later { O.faults output.old ≤ O.faults output.new }
{
    let SessionEnd {
        outcome,
        groups,
        records,
        ..
    } = end;
    let summary = Summary { groups, records };
    match outcome {
        Outcome::Done => match print_buffered(&summary, output) {
            Ok(()) => Ok(()),
            Err(_) => Err(Status::OutputFault),
        },
        Outcome::PortFault(group) => {
            let _ = print_buffered(&summary, output);
            Err(Status::PortFault(group))
        }
        Outcome::LinkFault(link) => {
            let _ = print_buffered(&summary, output);
            Err(Status::LinkFault(link))
        }
        Outcome::NoMemory => Err(Status::NoMemory),
        Outcome::Place => Err(Status::Place),
        Outcome::Tick => Err(Status::Tick),
        Outcome::MediaFault => Err(Status::MediaFault),
    }
}

/// Records what the ports of the lanes give on the media, with at most so many takes of each, has the orders of the desks answered meanwhile, with
/// at most so many calls of each link for a line, and prints the summary of the run.
pub(crate) fn answer_record<
    I: Source + Drop,
    O: Sink + Drop,
    M: Media + Send + Drop,
    W: Watch<M> + Gauge<M> + Send,
    P: Port + Send,
    L: Link + Send,
    R: Threads + Wait + Sync,
>(
    rt: &R,
    alloc: Global,
    turns: u64,
    world: &mut World<I, O, M>,
    watch: &mut W,
    lanes: &mut [Lane<P>],
    desks: &mut [Desk<L, Mark>],
) -> Result<(), Status>
    requires two { 2 ≤ length (M.disk world.old.media).sizes }
    requires three { length (M.disk world.old.media).sizes ≤ 3 }
    requires lanes { AreByGroup lanes.old }
    requires desks { length desks.old < 2 ^ 32 }
    requires turns { turns ≤ most_turns }
    ensures owed { let at = ⟦<World<I, O, M> as Outer>⟧.outside in Records turns (record { alone = at world.old; ports = seen_ports P.Port lanes.old; links = seen_links L.Link desks.old })
        (record { alone = at world.new; ports = seen_ports P.Port lanes.new; links = seen_links L.Link desks.new }) W.hears (W.seen watch.new) (ending result) }
    ensures known { ending result ≡ Words → ⊥ }
    ensures later { O.faults world.old.output ≤ O.faults world.new.output }
    ensures sizes { (M.disk world.new.media).sizes ≡ (M.disk world.old.media).sizes }
    ensures unread { world.new.input ≡ world.old.input }
{
    law_of_openings();
    let end = record_ports(rt, alloc, &mut world.media, watch, lanes, desks, turns)?;
    print_session(end, &mut world.output)
}
