// Why a record was not watched.
use std::alloc::AllocError;
use vdr_outside::Failed;

/// Why a record was not watched.
#[derive(Clone, Copy, Debug, PartialEq, Eq, Drop)]
pub enum WatchFault {
    /// There was no memory for one more source, alarm or alert.
    NoMemory,
    /// The output failed.
    Output,
}

impl From<AllocError> for WatchFault {
    ghost use Rattle.std.specs.Prelude.{◌≡◌};
    ghost use Rattle.vdr_watch.specs.declared.fault.WatchFault.TheVariants.{NoMemory};

    ghost from_gives = { λ none fault. fault ≡ NoMemory };

    fn from(_: AllocError) -> WatchFault {
        WatchFault::NoMemory
    }
}

impl From<Failed> for WatchFault {
    ghost use Rattle.std.specs.Prelude.{◌≡◌};
    ghost use Rattle.vdr_watch.specs.declared.fault.WatchFault.TheVariants.{Output};

    ghost from_gives = { λ failed fault. fault ≡ Output };

    fn from(_: Failed) -> WatchFault {
        WatchFault::Output
    }
}
