// How many bytes the records of a run's next item take, before the item is taken.
//
// What decides it is the greatest `received` so far, what the meter has admitted, and of which groups a Gap is due. Where a
// run begins decides nothing, since it begins at a whole second.
ghost use Rattle.std.specs.Prelude.{◌≡◌, ◌≤◌, ◌<◌, ◌+◌, ◌^◌, ◌↔◌, ◌∷◌, ◌++◌, ℕ, List, [], true, false, length, replicate};
ghost use Rattle.vdr_terms.specs.Counting.{with_missed};
ghost use Rattle.vdr_terms.specs.Rates.{Limit};
ghost use Rattle.vdr_terms.specs.Records.{second, total};
ghost use Rattle.vdr_terms.specs.Sizes.{records_size};
ghost use Rattle.vdr_config.specs.Sizes.{limits_in};
ghost use Rattle.vdr_core.specs.Recorder.{recorder_after};
ghost use Rattle.vdr_core.specs.Runs.{RunStart};
ghost use Rattle.vdr_core.specs.Taken.{Captured};
ghost use Rattle.vdr_run.specs.Sizes.{IsDue, bytes_of, charge, run_by};

use crate::maker::ItemHead;
use vdr_config::Config;
use vdr_meter::Meter;
use vdr_terms::Counts;

// The bytes of a Datagram besides its item's own, and of a Gap.
const DATAGRAM: usize = 44;

const GAP: usize = 84;

/// Tells how many bytes the records of a run's items take, item by item.
#[derive(Drop)]
pub struct Charges {
    // The greatest `received` of the items that were taken.
    greatest: u64,
    // Whether the group has missed anything since its last Datagram.
    due: [bool; 16],
    meter: Meter,
    ghost in_time: { greatest < 2 ^ 48 },
    ghost forward: { meter.second ≤ second greatest },
}

// Whether anything was missed.
fn is_any(missed: &Counts) -> bool
    ensures { (result ≡ true) ↔ (0 < total missed.now) }
{
    missed.full > 0 || missed.rate > 0 || missed.bad > 0 || missed.large > 0
}

// The bytes of the records of an item of so many bytes.
fn size_as(is_admitted: bool, is_due: bool, len: u16) -> usize
    ensures { result ≡ charge is_admitted is_due len }
{
    if !is_admitted {
        0
    } else if is_due {
        GAP + DATAGRAM + len as usize
    } else {
        DATAGRAM + len as usize
    }
}

impl Charges {
    ghost use Rattle.vdr_run.specs.Charges.{Foretells, TakesWithin};
    ghost use Rattle.vdr_run.specs.Making.{item_told};

    /// Nothing was taken in a run of this configuration.
    pub fn new(config: &Config) -> Charges
        ensures { Foretells (limits_in config.now.groups) [] result }
    {
        Charges {
            greatest: 0,
            due: [false; 16],
            meter: Meter::new(config),
        }
    }

    /// Takes the run's next item, of `len` bytes, where its records fit so many bytes: answers how many they take, 0 where
    /// its rate refuses it. None where they don't fit, and then the item is not taken.
    pub fn take(&mut self, item: &ItemHead, len: u16, left: usize) -> Option<usize>
        requires group { item.now.group < 16 }
        requires received { item.now.received < 2 ^ 48 }
        ensures { (limits : ℕ → Limit) (popped : List Captured) (bytes : List ℕ) → Foretells limits popped self.old → length bytes ≡ len
            → TakesWithin limits popped (item_told item.now bytes) left self.new result }
    {
        let size = self.size_of(item, len);
        if left < size {
            return None;
        }
        self.count(item, len);
        Some(size)
    }

    /// How many bytes the records of the run's next item take, if it is this one, of `len` bytes.
    pub fn size_of(&self, item: &ItemHead, len: u16) -> usize
        requires group { item.now.group < 16 }
        requires received { item.now.received < 2 ^ 48 }
        ensures { (limits : ℕ → Limit) (popped : List Captured) (bytes : List ℕ) → Foretells limits popped self.now → length bytes ≡ len
            → bytes_of limits (popped ++ item_told item.now bytes ∷ []) ≡ bytes_of limits popped + result }
    {
        let tick = self.greatest.max(item.received);
        let is_admitted = self.meter.admits(item.group, tick, len);
        size_as(is_admitted, self.is_due(item), len)
    }

    // Whether a Gap stands before the item, if that is recorded.
    fn is_due(&self, item: &ItemHead) -> bool
        requires { item.now.group < 16 }
        ensures { (limits : ℕ → Limit) (popped : List Captured) → Foretells limits popped self.now
            → (result ≡ true) ↔ IsDue (with_missed item.now.missed ((recorder_after (run_by limits) popped).pending item.now.group)) }
    {
        self.due[item.group as usize] || is_any(&item.missed)
    }

    /// Takes the run's next item, of `len` bytes.
    pub fn count(&mut self, item: &ItemHead, len: u16)
        requires group { item.now.group < 16 }
        requires received { item.now.received < 2 ^ 48 }
        ensures { (limits : ℕ → Limit) (popped : List Captured) (bytes : List ℕ) → Foretells limits popped self.old → length bytes ≡ len
            → Foretells limits (popped ++ item_told item.now bytes ∷ []) self.new }
    {
        self.greatest = self.greatest.max(item.received);
        self.due[item.group as usize] = !self.meter.admit(item.group, self.greatest, len);
    }
}

/// How many bytes the records of a run take is decided by its limits and its items, wherever it begins; further items take
/// none of them away, and one more adds at most 128 and its own.
pub fn law_of_charges()
    ensures anywhere { (start : RunStart) (items : List Captured) → records_size (recorder_after start items).made ≡ bytes_of start.limits items }
    ensures grow { (limits : ℕ → Limit) (items more : List Captured) → bytes_of limits items ≤ bytes_of limits (items ++ more) }
    ensures most { (limits : ℕ → Limit) (items : List Captured) (c : Captured) → bytes_of limits (items ++ c ∷ []) ≤ bytes_of limits items + (128 + length c.bytes) }
{}
