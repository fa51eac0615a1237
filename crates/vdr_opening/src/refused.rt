// Why media were not opened.
use vdr_outside::{Failed, PartRefused};

/// Why media were not opened.
#[derive(Clone, Copy, Drop)]
pub enum OpenRefused {
    /// There was no memory for the configuration, a table or a buffer.
    NoMemory,
    /// The capsule has fewer than 32,768 bytes, or its byte 0 is not open.
    NotFormatted,
    /// A part of this medium is not legal: the first in the order in which the parts are tested. It begins at this offset, in bytes.
    Damaged { medium: u8, offset: u64 },
    /// A call on the media failed, and the count of faults of that medium rose.
    Fault,
}

impl From<Failed> for OpenRefused {
    ghost use Rattle.std.specs.Prelude.{◌≡◌};
    ghost use Rattle.vdr_opening.specs.declared.refused.OpenRefused.TheVariants as refusals;

    ghost from_gives = { λ _ refused. refused ≡ refusals.Fault };

    fn from(_: Failed) -> OpenRefused {
        OpenRefused::Fault
    }
}

impl From<PartRefused> for OpenRefused {
    ghost use Rattle.std.specs.Prelude.{◌≡◌};
    ghost use Rattle.vdr_opening.specs.Parts.{refusal_by};

    ghost from_gives = { λ part refused. refused ≡ refusal_by part };

    fn from(part: PartRefused) -> OpenRefused {
        match part {
            PartRefused::NoMemory => OpenRefused::NoMemory,
            PartRefused::Damaged { medium, offset } => OpenRefused::Damaged { medium, offset },
            PartRefused::Fault => OpenRefused::Fault,
        }
    }
}
