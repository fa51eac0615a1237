// A heartbeat.
ghost use Rattle.std.specs.Prelude.{◌≡◌, ◌-◌};
ghost use Rattle.vdr_durability.specs.Sources.{source_cmp};
ghost use Rattle.vdr_watch.specs.Supervision.{is_silent};

use arrayvec::ArrayVec;
use std::cmp::Ordering;
use std::marker::Model;

/// What is kept of a heartbeat.
#[derive(Drop)]
pub(crate) struct Heartbeat {
    pub(crate) group: u8,
    pub(crate) name: ArrayVec<u8, 15>,
    /// Recording time in milliseconds.
    pub(crate) tick: u64,
    /// Until the next one is due, in millionths of a second.
    pub(crate) interval: u64,
    /// 0 to 9.
    pub(crate) sequence: Option<u32>,
}

impl Model for Heartbeat {
    ghost use Rattle.std.specs.Prelude.{◌≤◌};
    ghost use Rattle.vdr_watch.specs.Signs.{Heartbeat as Beat};

    ghost Value = { Beat };

    ghost view = { λ b. record { source = record { group = b.group; name = b.name.items }; tick = b.tick; interval = b.interval; sequence = b.sequence } };

    ghost invariant = { λ b. b.group ≤ 15 };
}

impl Heartbeat {
    /// How its source stands to this one, by group and then by name in byte order.
    pub(crate) fn order(&self, group: u8, name: &[u8]) -> Ordering
        ensures { result ≡ source_cmp self.now.source (record { group = group; name = name.now }) }
    {
        self.group.cmp(&group).then(self.name.as_slice().cmp(&name))
    }

    /// How many milliseconds of recording time have passed since.
    pub(crate) fn age(&self, tick: u64) -> u64
        ensures { result ≡ tick - self.now.tick }
    {
        tick.saturating_sub(self.tick)
    }

    /// Whether more than twice its interval has passed since.
    pub(crate) fn is_silent(&self, tick: u64) -> bool
        ensures { result ≡ is_silent self.now tick }
    {
        self.age(tick) > self.interval / 500
    }
}
