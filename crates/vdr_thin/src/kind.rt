// What series are of.
ghost use Rattle.std.specs.Prelude.{◌≡◌};
ghost use Rattle.vdr_thin.specs.Tables.{longest, rank};

/// What a series is of.
#[derive(Clone, Copy, Drop)]
pub enum Kind {
    /// A number that a sentence says.
    Value,
    /// A position that a sentence says of its source.
    Position,
    /// The reports of a ship.
    Ship,
}

impl Kind {
    /// Its place in the order of kinds.
    pub(crate) fn rank(self) -> u8
        ensures { result ≡ rank self }
    {
        match self {
            Kind::Value => 0,
            Kind::Position => 1,
            Kind::Ship => 2,
        }
    }

    /// The longest time within a run, in milliseconds.
    pub(crate) fn longest(self) -> u64
        ensures { result ≡ longest self }
    {
        match self {
            Kind::Value | Kind::Position => 10_000,
            Kind::Ship => 180_000,
        }
    }
}
