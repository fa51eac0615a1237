// The state of an alarm.
ghost use Rattle.std.specs.Prelude.{◌≡◌};
ghost use Rattle.vdr_watch.specs.Supervision.{alarm_cmp, same_state};

use arrayvec::ArrayVec;
use std::cmp::Ordering;
use std::marker::Model;

/// What is kept of an alarm.
#[derive(Drop)]
pub(crate) struct Alarm {
    pub(crate) group: u8,
    pub(crate) name: ArrayVec<u8, 15>,
    pub(crate) number: u32,
    /// `A` where the threshold is exceeded, `V` where it is not.
    pub(crate) condition: Option<u8>,
    /// `A` where it is acknowledged, `V` where it is not.
    pub(crate) acknowledged: Option<u8>,
}

impl Model for Alarm {
    ghost use Rattle.std.specs.Prelude.{◌≤◌};
    ghost use Rattle.vdr_watch.specs.Signs.{Alarm as State};

    ghost Value = { State };

    ghost view = { λ a. record { source = record { group = a.group; name = a.name.items }; number = a.number; condition = a.condition; acknowledged = a.acknowledged } };

    ghost invariant = { λ a. a.group ≤ 15 };
}

impl Alarm {
    /// How it stands to another alarm, by group, by name in byte order, and by number.
    pub(crate) fn order(&self, other: &Alarm) -> Ordering
        ensures { result ≡ alarm_cmp self.now other.now }
    {
        self.group
            .cmp(&other.group)
            .then(self.name.as_slice().cmp(&other.name.as_slice()))
            .then(self.number.cmp(&other.number))
    }

    /// Whether its condition and its acknowledgement are those of another.
    pub(crate) fn is_in_state(&self, other: &Alarm) -> bool
        ensures { result ≡ same_state self.now other.now }
    {
        self.condition == other.condition && self.acknowledged == other.acknowledged
    }
}
