// The profiles, ship and bench: which windows a configuration has to have.
ghost use Rattle.std.specs.Prelude.{◌≡◌};
ghost use Rattle.vdr_config.specs.Configuration.{is_ship};

/// Which windows a configuration has to have.
#[derive(Clone, Copy, Drop)]
pub enum Profile {
    /// 48 hours and 30 days at least (IEC 61996-1, IMO MSC.333(90)).
    Ship,
    /// Any.
    Bench,
}

impl Profile {
    /// Whether the windows have to be a ship's.
    pub(crate) fn is_ship(self) -> bool
        ensures { result ≡ is_ship self }
    {
        matches!(self, Profile::Ship)
    }
}
