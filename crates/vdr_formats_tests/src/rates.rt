// What a rate admits, and what a window has.

ghost use Rattle.std.specs.Prelude.{◌≡◌};

use crate::printing::word;
use std::alloc::Global;
use std::marker::Model;
use vdr_config::{Config, Rate};
use vdr_memory::MemorySink;
use vdr_meter::Meter;
use vdr_window::in_window;

/// A configuration that admits two datagrams and 200 bytes a second of each group.
pub(crate) fn one_rate(alloc: Global) -> Config {
    let rate = Rate {
        datagrams: 2,
        bytes: 200,
    };
    Config::with_rate(alloc, rate)
}

/// A meter, and a second that is not below its last one.
#[derive(Drop)]
pub(crate) struct Metered {
    meter: Meter,
    second: u64,
}

impl Model for Metered {
    ghost use Rattle.std.specs.Prelude.{◌≤◌};

    ghost Value = { Unit {0} };

    ghost view = { λ _. tt };

    ghost invariant = { λ m. m.meter.second ≤ m.second };
}

impl Metered {
    pub fn new(alloc: Global) -> Metered {
        Metered {
            meter: Meter::new(&one_rate(alloc)),
            second: 0,
        }
    }

    /// Whether an item is admitted of this group, tick in milliseconds and length.
    pub fn put_item(&mut self, [group, tick, len]: [u64; 3], out: &mut MemorySink) {
        if group < 16 && len < 65_536 && self.second <= tick / 1000 {
            self.second = tick / 1000;
            if self.meter.admit(group as u8, tick, len as u16) {
                word(out, b"admitted");
            }
        }
    }
}

/// Whether a second is in the window of so many seconds that ends with the last one.
pub(crate) fn put_window([second, last, seconds]: [u64; 3], out: &mut MemorySink) {
    if second < 1 << 62 && seconds < 1 << 62 && in_window(second, last, seconds) {
        word(out, b"in");
    }
}
