// How what stops a reading of a stored file ends the command.
ghost use Rattle.std.specs.Prelude.{◌≡◌, Err};
ghost use Rattle.vdr_from.specs.Stops.{changed_at, status_of_file, status_of_visit};

use std::alloc::AllocError;
use vdr_command::{EvidencePart, Status};
use vdr_export::ExportRefused;
use vdr_visit::VisitRefused;

// The file is another one by the time that it is read again: from this offset on it can't have the SHA-256 that it had.
fn changed_at(offset: u64) -> Status
    ensures { result ≡ changed_at offset }
{
    Status::NoEvidence {
        part: EvidencePart::Digest,
        offset,
    }
}

/// How a visit of the file that was stopped ends the command. An incident is never asked for.
pub(crate) fn stopped_as(stop: VisitRefused<AllocError>) -> Status
    ensures { result ≡ status_of_visit (Err stop) }
{
    match stop {
        VisitRefused::NoChannel | VisitRefused::NoIncident => Status::NoChannel,
        VisitRefused::Fault => Status::InputFault,
        VisitRefused::Damaged { offset, .. } => changed_at(offset),
        VisitRefused::Output => Status::OutputFault,
        VisitRefused::Own(_) => Status::NoMemory,
    }
}

/// How a file that is not made ends the command.
pub(crate) fn refused_as(refused: ExportRefused) -> Status
    ensures { result ≡ status_of_file (Err refused) }
{
    match refused {
        ExportRefused::Nothing => Status::ExportNothing,
        ExportRefused::Mixed { place } => Status::ExportMixed(place),
        ExportRefused::Long => Status::ExportLong,
        ExportRefused::Part { number } => Status::ExportPart(number),
        ExportRefused::Fault => Status::InputFault,
        ExportRefused::Damaged { offset, .. } => changed_at(offset),
        ExportRefused::Output => Status::OutputFault,
        ExportRefused::NoMemory => Status::NoMemory,
    }
}
