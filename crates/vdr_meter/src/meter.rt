// The meter: what was admitted of each group in the present second of recording time.
ghost use Rattle.std.specs.Prelude.{◌≡◌, ◌≢◌, ◌≤◌, ◌<◌, ◌+◌, ◌&&◌, ◌++◌, ◌∷◌, [], ℕ, List, nat_lt, nat_le, true, is_some, IfSome};
ghost use Rattle.std.specs.Bool.{OnTrue, OnFalse};
ghost use Rattle.vdr_terms.specs.Records.{Record, second};
ghost use Rattle.vdr_terms.specs.Rates.{is_admitted};
ghost use Rattle.vdr_config.specs.Sizes.{limits_in};

use std::marker::Model;
use vdr_config::{Config, Rate};

// A second of recording time has so many milliseconds.
const SECOND: u64 = 1_000;

/// What was admitted of a group in a second.
#[derive(Clone, Copy, Drop)]
struct Used {
    datagrams: u32,
    bytes: u32,
}

const NOTHING: Used = Used {
    datagrams: 0,
    bytes: 0,
};

/// Admits the items of each group by its rate, second by second of recording time.
#[derive(Drop)]
pub struct Meter {
    rates: [Option<Rate>; 16],
    second: u64,
    used: [Used; 16],
}

impl Model for Meter {
    ghost use Rattle.vdr_meter.specs.Metering.{Metering};

    ghost Value = { Metering };

    ghost view = { λ m. record { rates = m.rates; second = m.second; used = m.used } };
}

impl Used {
    /// With one more item of `len` bytes, None where the rate has no room for it.
    fn with_item(self, rate: &Rate, len: u16) -> Option<Used>
        ensures room { is_some result
            ≡ (nat_lt self.datagrams rate.now.datagrams && nat_le (self.bytes + len) rate.now.bytes) }
        ensures sums { IfSome result
            (λ used. (used.datagrams ≡ self.datagrams + 1) × (used.bytes ≡ self.bytes + len)) }
    {
        let bytes = self.bytes as u64 + len as u64;
        if self.datagrams < rate.datagrams && bytes <= rate.bytes as u64 {
            Some(Used {
                datagrams: self.datagrams + 1,
                bytes: bytes as u32,
            })
        } else {
            None
        }
    }
}

impl Meter {
    ghost use Rattle.vdr_meter.specs.Metering.{Measures, HasNoDatagram, IsDatagramOf, used_in};

    /// A meter by the rates of a configuration, which has admitted nothing.
    pub fn new(config: &Config) -> Meter
        ensures rates { result.rates ≡ config.now.groups }
        ensures start { result.second ≡ 0 }
        ensures nothing { (records : List Record) → HasNoDatagram records → Measures result records }
    {
        Meter {
            rates: config.groups,
            second: 0,
            used: [NOTHING; 16],
        }
    }

    /// Whether an item of a group, of `len` bytes, is admitted at this tick (in milliseconds). It is refused exactly where
    /// the Datagrams of its group in the same second are already as many as the rate has, or have no room for its bytes. A
    /// group that is not configured has no room at all.
    pub fn admit(&mut self, group: u8, tick: u64, len: u16) -> bool
        requires group { group < 16 }
        requires forward { self.old.second ≤ second tick }

        ensures exact { (records : List Record) → Measures self.old records
            → result ≡ is_admitted (limits_in self.old.rates group) records group (second tick) len }
        ensures refused { OnFalse result (self.new ≡ self.old) }

        ensures rates { self.new.rates ≡ self.old.rates }
        ensures second { OnTrue result (self.new.second ≡ second tick) }

        // Where the item is recorded, behind its Gap if it has one, the meter knows the records with it.
        ensures recorded { (records gap : List Record) (r : Record) → Measures self.old records
            → HasNoDatagram gap → IsDatagramOf r group tick len → result ≡ true
            → Measures self.new (records ++ (gap ++ r ∷ [])) }
    {
        let second = tick / SECOND;
        let Some(rate) = self.rates[group as usize] else {
            return false;
        };
        match self.used_in(group, second).with_item(&rate, len) {
            Some(used) => {
                self.put(group, second, used);
                true
            }
            None => false,
        }
    }

    /// Whether an item of a group, of `len` bytes, would be admitted at this tick (in milliseconds), as `admit` says.
    pub fn admits(&self, group: u8, tick: u64, len: u16) -> bool
        requires group { group < 16 }
        requires forward { self.now.second ≤ second tick }
        ensures exact { (records : List Record) → Measures self.now records
            → result ≡ is_admitted (limits_in self.now.rates group) records group (second tick) len }
    {
        let Some(rate) = self.rates[group as usize] else {
            return false;
        };
        self.used_in(group, tick / SECOND)
            .with_item(&rate, len)
            .is_some()
    }

    fn used_in(&self, group: u8, second: u64) -> Used
        requires { group < 16 }
        ensures { result ≡ used_in self.now group second }
    {
        if second == self.second {
            self.used[group as usize]
        } else {
            NOTHING
        }
    }

    // What was admitted in an earlier second is forgotten.
    fn put(&mut self, group: u8, second: u64, used: Used)
        requires { group < 16 }
        ensures rates { self.new.rates ≡ self.old.rates }
        ensures second { self.new.second ≡ second }
        ensures own { used_in self.new group second ≡ used }
        ensures others { (g : ℕ) → g ≢ group → used_in self.new g second ≡ used_in self.old g second }
    {
        if second != self.second {
            self.second = second;
            self.used = [NOTHING; 16];
        }
        self.used[group as usize] = used;
    }
}
