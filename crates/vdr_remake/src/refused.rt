// Why a medium was not made anew.
use vdr_config::TooSmall;
use vdr_outside::{Fault, PartRefused};
use vdr_ring::ReadRefused;

/// Why a medium was not made anew from another.
#[derive(Drop)]
pub enum RemakeRefused {
    /// It has fewer slots than the configuration needs, none where it is not there. All media are as before.
    TooSmall(TooSmall),
    /// There was no memory for what is known of the segments, or for one segment. All media are as before.
    NoMemory,
    /// A segment of this medium, which is the one that is copied, is not legal, or its batches do not agree with its summary. That
    /// begins at this offset, in bytes. The medium that was to be made anew is as before, or its gate is closed.
    Damaged { medium: u8, offset: u64 },
    /// A call on one of the two media failed, and its count of faults rose.
    Fault,
}

impl From<TooSmall> for RemakeRefused {
    ghost use Rattle.std.specs.Prelude.{◌≡◌};
    ghost use Rattle.vdr_remake.specs.declared.refused.RemakeRefused.TheVariants as refusals;

    ghost from_gives = { λ small refused. refused ≡ refusals.TooSmall small };

    fn from(small: TooSmall) -> RemakeRefused {
        RemakeRefused::TooSmall(small)
    }
}

impl From<PartRefused> for RemakeRefused {
    ghost use Rattle.std.specs.Prelude.{◌≡◌};
    ghost use Rattle.vdr_remake.specs.Answers.{refusal_of_part};

    ghost from_gives = { λ part refused. refused ≡ refusal_of_part part };

    fn from(part: PartRefused) -> RemakeRefused {
        match part {
            PartRefused::NoMemory => RemakeRefused::NoMemory,
            PartRefused::Damaged { medium, offset } => RemakeRefused::Damaged { medium, offset },
            PartRefused::Fault => RemakeRefused::Fault,
        }
    }
}

impl From<ReadRefused> for RemakeRefused {
    ghost use Rattle.std.specs.Prelude.{◌≡◌};
    ghost use Rattle.vdr_remake.specs.Answers.{refusal_of_read};

    ghost from_gives = { λ read refused. refused ≡ refusal_of_read read };

    fn from(read: ReadRefused) -> RemakeRefused {
        match read {
            ReadRefused::Fault => RemakeRefused::Fault,
            ReadRefused::Damaged { medium, offset } => RemakeRefused::Damaged { medium, offset },
        }
    }
}

impl From<Fault> for RemakeRefused {
    ghost use Rattle.std.specs.Prelude.{◌≡◌};
    ghost use Rattle.vdr_remake.specs.declared.refused.RemakeRefused.TheVariants as refusals;

    ghost from_gives = { λ _ refused. refused ≡ refusals.Fault };

    fn from(_: Fault) -> RemakeRefused {
        RemakeRefused::Fault
    }
}
