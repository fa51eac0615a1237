// Recording a feed on the media.
//
// The sums of a closed run are printed whatever ended its feed; the line of the status is tried also after sums that
// failed.
ghost use Rattle.std.specs.Prelude.{◌≡◌, ◌≤◌, Err, length};
ghost use Rattle.vdr_command.specs.Endings.{ending};
ghost use Rattle.vdr_tool.specs.Replays.{PrintsRun, Replays};
ghost use Rattle.vdr_tool.specs.Summaries.{summary_text};
ghost use Rattle.vdr_command.specs.declared.status.Status.TheVariants.{OutputFault, Words};

use crate::summary::Summary;
use std::alloc::Global;
use vdr_command::{Outer, Status, World, law_of_openings};
use vdr_outside::{Media, Sink, Source, print_buffered};
use vdr_recorder::Watch;
use vdr_replay::{FeedEnd, Replayed, replay};

// Prints the summary of a run that was closed. A status that is already decided stands where the output fails.
fn print_run<O: Sink>(run: Replayed, output: &mut O) -> Result<(), Status>
    ensures printed { PrintsRun run.end (summary_text run.groups run.records) (ending result) (record { taken = O.taken output.old; faults = O.faults output.old })
        (record { taken = O.taken output.new; faults = O.faults output.new }) }
    ensures later { O.faults output.old ≤ O.faults output.new }
{
    let Replayed {
        groups,
        records,
        end,
    } = run;
    let printed = print_buffered(&Summary { groups, records }, output);
    match end {
        FeedEnd::Whole => match printed {
            Ok(()) => Ok(()),
            Err(_) => Err(Status::OutputFault),
        },
        FeedEnd::Input => Err(Status::InputFault),
        FeedEnd::Refused { number, offset } => Err(Status::Feed { number, offset }),
    }
}

/// Records the feed that the input is on the media, and prints the summary of the run.
pub(crate) fn answer_replay<I: Source + Drop, O: Sink + Drop, M: Media + Drop, W: Watch<M>>(
    alloc: Global,
    world: &mut World<I, O, M>,
    watch: &mut W,
) -> Result<(), Status>
    requires two { 2 ≤ length (M.disk world.old.media).sizes }
    requires three { length (M.disk world.old.media).sizes ≤ 3 }
    ensures owed { let at = ⟦<World<I, O, M> as Outer>⟧.outside in Replays (at world.old) (at world.new) W.hears (W.seen watch.new) (ending result) }
    ensures known { ending result ≡ Words → ⊥ }
    ensures later { O.faults world.old.output ≤ O.faults world.new.output }
    ensures sizes { (M.disk world.new.media).sizes ≡ (M.disk world.old.media).sizes }
{
    law_of_openings();
    let run = replay(alloc, &mut world.media, watch, &mut world.input)?;
    print_run(run, &mut world.output)
}
