// Why no file is made of what a query selects.
ghost use Rattle.std.specs.Prelude.{◌≡◌, ◌⊎◌, Some};
ghost use Rattle.vdr_visit.specs.declared.visit_refused.VisitRefused.TheVariants.{NoChannel, NoIncident};
ghost use Rattle.vdr_export.specs.Refusals.{refusal_by};

use vdr_visit::VisitRefused;

/// Why no file is made of what a query selects.
#[derive(Clone, Copy, Drop)]
pub enum ExportRefused {
    /// No record has such a frame, or such a part of an image.
    Nothing,
    /// The record of this place is the first whose rate, or whose number of parts, isn't that of the first one.
    Mixed { place: u64 },
    /// The sound has more than 4,294,967,258 bytes, which no WAVE file can tell.
    Long,
    /// No record has this part, the first that is missing of the image.
    Part { number: u32 },
    /// A write had failed before, and nothing was called; or a read failed, and the count of faults of that medium rose.
    Fault,
    /// A slot of this medium that was read is damaged. Where, in bytes, as `vdr_visit::VisitRefused` says.
    Damaged { medium: u8, offset: u64 },
    /// The output failed, and its count of faults rose. A front of the file is written.
    Output,
    /// There was no memory for the parts of an image. Nothing is written.
    NoMemory,
}

/// The refusal of a visit whose channel and incident are there.
pub(crate) fn refusal_of(stop: VisitRefused<ExportRefused>) -> ExportRefused
    requires accepted { (stop ≡ NoChannel) ⊎ (stop ≡ NoIncident) → ⊥ }
    ensures { Some result ≡ refusal_by stop }
{
    match stop {
        VisitRefused::NoChannel | VisitRefused::NoIncident => unreachable!(),
        VisitRefused::Fault => ExportRefused::Fault,
        VisitRefused::Damaged { medium, offset } => ExportRefused::Damaged { medium, offset },
        VisitRefused::Output => ExportRefused::Output,
        VisitRefused::Own(refused) => refused,
    }
}
