// Why a record is not read.
use vdr_outside::Fault;

/// Why a record is not read.
#[derive(Clone, Copy, Debug, PartialEq, Eq, Drop)]
pub enum ReadRefused {
    /// A call on the media failed, and the count of faults of that medium rose.
    Fault,
    /// The header of a segment of this medium is not legal, or one of its batches is not or does not agree with the
    /// summary in the header. It begins at this offset, in bytes. Where a segment has fewer records than its summary
    /// counts, this is where its batches end.
    Damaged { medium: u8, offset: u64 },
}

impl From<Fault> for ReadRefused {
    ghost use Rattle.std.specs.Prelude.{◌≡◌};
    ghost use Rattle.vdr_ring.specs.declared.refused.ReadRefused.TheVariants.{Fault as AFault};

    ghost from_gives = { λ _ refused. refused ≡ AFault };

    fn from(_: Fault) -> ReadRefused {
        ReadRefused::Fault
    }
}
