// The records that a medium keeps besides those of its window.
ghost use Rattle.std.specs.Prelude.{◌≡◌, ◌<◌, [], ◌∷◌, ◌++◌, length, map};
ghost use Rattle.vdr_ring.specs.Candidates.{pin_of};

use arrayvec::ArrayVec;
use std::marker::Model;

// The first and the last place of a live save. Where the last is below the first it pins nothing.
#[derive(Clone, Copy, Default, Drop)]
pub(crate) struct Pin {
    pub(crate) a: u64,
    pub(crate) b: u64,
}

/// The records that a medium keeps besides those of its window: those of the live saves, at most 32.
#[derive(Drop)]
pub struct Pins {
    pins: ArrayVec<Pin, 32>,
}

impl Model for Pins {
    ghost use Rattle.std.specs.Prelude.{List, map};
    ghost use Rattle.vdr_durability.specs.Retention.{Pin as APin};
    ghost use Rattle.vdr_ring.specs.Candidates.{pin_of};

    ghost Value = { List APin };

    ghost view = { λ p. map pin_of p.pins.items };
}

impl Pins {
    /// No pin.
    pub fn new() -> Pins
        ensures { result ≡ [] }
    {
        Pins {
            pins: ArrayVec::new(),
        }
    }

    /// Keeps the records of the places from `a` to `b` too, both included.
    pub fn add(&mut self, a: u64, b: u64)
        requires { length self.old < 32 }
        ensures { self.new ≡ self.old ++ record { a = a; b = b } ∷ [] }
    {
        self.pins.push(Pin { a, b });
    }

    pub(crate) fn as_slice(&self) -> &[Pin]
        ensures { map pin_of result.now ≡ self.now }
    {
        self.pins.as_slice()
    }
}
