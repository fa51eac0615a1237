// Why an incident is not saved, or not released.
use vdr_outside::Fault;

/// Why an incident is not saved.
#[derive(Clone, Copy, Debug, PartialEq, Eq, Drop)]
pub enum TableRefused {
    /// No slot is free.
    TableFull,
    /// A write or a sync of medium 1 failed, and its count of faults rose.
    Fault,
}

impl From<Fault> for TableRefused {
    ghost use Rattle.std.specs.Prelude.{◌≡◌};
    ghost use Rattle.vdr_incident.specs.declared.refused.TableRefused.TheVariants.{Fault as AFault};

    ghost from_gives = { λ _ refused. refused ≡ AFault };

    fn from(_: Fault) -> TableRefused {
        TableRefused::Fault
    }
}

/// Why an incident is not released.
#[derive(Clone, Copy, PartialEq, Eq, Drop)]
pub enum ReleaseRefused {
    /// No live save has this id.
    NoSuch,
    /// A write or a sync of medium 1 failed, and its count of faults rose.
    Fault,
}

impl From<Fault> for ReleaseRefused {
    ghost use Rattle.std.specs.Prelude.{◌≡◌};
    ghost use Rattle.vdr_incident.specs.declared.refused.ReleaseRefused.TheVariants.{Fault as AFault};

    ghost from_gives = { λ _ refused. refused ≡ AFault };

    fn from(_: Fault) -> ReleaseRefused {
        ReleaseRefused::Fault
    }
}
