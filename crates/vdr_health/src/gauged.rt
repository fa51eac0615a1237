// What is gauged outside of a recording: no contract says anything of these numbers.
ghost use Rattle.std.specs.Prelude.{◌≡◌};
ghost use Rattle.vdr_health.specs.Health.{nothing_gauged};

/// What is gauged of the port of a transmission group.
#[derive(Clone, Copy, Debug, PartialEq, Eq, Drop)]
pub struct GroupGauge {
    /// How many datagrams the host dropped for its socket, None where it tells none.
    pub kernel: Option<u64>,
    /// How many milliseconds ago its last datagram came, None where none came yet.
    pub ago: Option<u64>,
}

/// What is gauged of a recording: of its ports by the numbers of their groups, and the longest sync of each medium in the last
/// minute, in milliseconds, None where none is told.
#[derive(Clone, Copy, Debug, PartialEq, Eq, Drop)]
pub struct Gauged {
    pub groups: [GroupGauge; 16],
    pub capsule_sync: Option<u64>,
    pub long_term_sync: Option<u64>,
}

impl Gauged {
    /// Nothing is told.
    pub fn nothing() -> Gauged
        ensures { result ≡ nothing_gauged }
    {
        let none = GroupGauge {
            kernel: None,
            ago: None,
        };
        Gauged {
            groups: [none; 16],
            capsule_sync: None,
            long_term_sync: None,
        }
    }
}
