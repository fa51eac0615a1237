// A capture becomes a feed.
ghost use Rattle.std.specs.Prelude.{◌≡◌, ◌≤◌};
ghost use Rattle.vdr_command.specs.Endings.{ending};
ghost use Rattle.vdr_command.specs.declared.status.Status.TheVariants.{Words};
ghost use Rattle.vdr_tool.specs.Captures.{status_of_import};
ghost use Rattle.vdr_tool.specs.Imports.{Imports};

use vdr_command::{Outer, Status, World};
use vdr_import::{ImportRefused, import};
use vdr_outside::{Media, Sink, Source};
use vdr_pcap::law_of_captures;

/// How a command ends that reads a capture no further.
pub(crate) fn status_of(refused: ImportRefused) -> Status
    ensures { result ≡ status_of_import refused }
{
    match refused {
        ImportRefused::Input => Status::InputFault,
        ImportRefused::Output => Status::OutputFault,
        ImportRefused::Refused { number, offset } => Status::Capture { number, offset },
    }
}

/// Writes the feed of the capture that the input is.
pub(crate) fn answer_import<I: Source + Drop, O: Sink + Drop, M: Media + Drop>(
    world: &mut World<I, O, M>,
) -> Result<(), Status>
    ensures owed { let at = ⟦<World<I, O, M> as Outer>⟧.outside in Imports (at world.old) (at world.new) (ending result) }
    ensures known { ending result ≡ Words → ⊥ }
    ensures later { O.faults world.old.output ≤ O.faults world.new.output }
    ensures untouched { world.new.media ≡ world.old.media }
{
    law_of_captures();
    match import(&mut world.input, &mut world.output) {
        Ok(()) => Ok(()),
        Err(refused) => Err(status_of(refused)),
    }
}
