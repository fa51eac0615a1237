// A call outside that failed, as the layers above answer it.
ghost use Rattle.std.specs.Prelude.{◌≡◌};

/// A call outside failed. The object's count of faults rose in that call.
#[derive(Clone, Copy, Debug, PartialEq, Eq, Drop)]
pub struct Failed;

/// A call of a layer above met a failure of the outside.
#[derive(Clone, Copy, Debug, PartialEq, Eq, Drop)]
pub struct Fault;

impl From<Failed> for Fault {
    ghost from_gives = { λ _ _. Unit {0} };

    fn from(_: Failed) -> Fault {
        Fault
    }
}

/// Why a part of a medium is refused.
#[derive(Clone, Copy, Debug, PartialEq, Eq, Drop)]
pub enum PartRefused {
    /// There was no memory for it.
    NoMemory,
    /// A part of this medium is not legal. It begins at this offset, in bytes.
    Damaged { medium: u8, offset: u64 },
    /// A call on the media failed, and the count of faults of that medium rose.
    Fault,
}

impl From<Failed> for PartRefused {
    ghost use Rattle.vdr_outside.specs.declared.fault.PartRefused.TheVariants.{Fault};

    ghost from_gives = { λ _ refused. refused ≡ Fault };

    fn from(_: Failed) -> PartRefused {
        PartRefused::Fault
    }
}
