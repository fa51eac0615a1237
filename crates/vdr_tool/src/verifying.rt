// What an evidence file holds.
ghost use Rattle.std.specs.Prelude.{◌≡◌, ◌≤◌};
ghost use Rattle.vdr_command.specs.Endings.{ending};
ghost use Rattle.vdr_command.specs.declared.status.Status.TheVariants.{Words};
ghost use Rattle.vdr_tool.specs.Verifying.{VerifiesFile, part_told, status_of_verify};

use std::alloc::Global;
use vdr_command::{EvidencePart, Outer, Status, World};
use vdr_outside::{Media, Sink, Source};
use vdr_verify::{Part, VerifyRefused, law_of_verification, verify};

// A part, as a status tells it.
fn part_told(part: Part) -> EvidencePart
    ensures { result ≡ part_told part }
{
    match part {
        Part::Token => EvidencePart::Token,
        Part::Configuration => EvidencePart::Configuration,
        Part::Medium => EvidencePart::Medium,
        Part::Incident => EvidencePart::Incident,
        Part::Label => EvidencePart::Label,
        Part::Query => EvidencePart::Query,
        Part::Record => EvidencePart::Record,
        Part::End => EvidencePart::End,
        Part::Digest => EvidencePart::Digest,
        Part::Behind => EvidencePart::Behind,
    }
}

/// How a file that is read no further ends a command.
pub fn status_of_verify(refused: VerifyRefused) -> Status
    ensures { result ≡ status_of_verify refused }
{
    match refused {
        VerifyRefused::Input => Status::InputFault,
        VerifyRefused::Output => Status::OutputFault,
        VerifyRefused::NoMemory => Status::NoMemory,
        VerifyRefused::Illegal { part, offset } => Status::NoEvidence {
            part: part_told(part),
            offset,
        },
    }
}

/// Prints what the evidence file holds that the input is.
pub(crate) fn answer_verify<I: Source + Drop, O: Sink + Drop, M: Media + Drop>(
    alloc: Global,
    world: &mut World<I, O, M>,
) -> Result<(), Status>
    ensures owed { let at = ⟦<World<I, O, M> as Outer>⟧.outside in VerifiesFile (at world.old) (at world.new) (ending result) }
    ensures known { ending result ≡ Words → ⊥ }
    ensures later { O.faults world.old.output ≤ O.faults world.new.output }
    ensures untouched { world.new.media ≡ world.old.media }
{
    law_of_verification();
    match verify(alloc, &mut world.input, &mut world.output) {
        Ok(()) => Ok(()),
        Err(refused) => Err(status_of_verify(refused)),
    }
}
