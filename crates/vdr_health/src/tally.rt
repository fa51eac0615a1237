// What a run tallies of the items that were taken into it.
ghost use Rattle.std.specs.Prelude.{◌≡◌, ◌++◌, ◌∷◌, [], List, Bool, true, false, if◌then◌else◌, IfSome};
ghost use Rattle.vdr_core.specs.Taken.{Captured as CapturedTold};
ghost use Rattle.vdr_terms.specs.Stamps.{IsStamp};
ghost use Rattle.vdr_health.specs.Tallies.{Tallies, with_counts, with_item};

use crate::{GroupTally, RunTally};
use vdr_intake::Captured;
use vdr_terms::Counts;

/// Nothing was taken.
const NOTHING: GroupTally = GroupTally {
    taken: 0,
    missed: Counts {
        full: 0,
        rate: 0,
        bad: 0,
        large: 0,
    },
};

// Counts with further ones.
fn with_counts(counts: Counts, further: Counts) -> Counts
    ensures { result ≡ with_counts counts further }
{
    Counts {
        full: counts.full.saturating_add(further.full),
        rate: counts.rate.saturating_add(further.rate),
        bad: counts.bad.saturating_add(further.bad),
        large: counts.large.saturating_add(further.large),
    }
}

// The tally of an item's group with that item.
fn with_item(tally: GroupTally, item: &Captured) -> GroupTally
    ensures { result ≡ with_item tally item.now }
{
    GroupTally {
        taken: item.number.saturating_add(1),
        missed: with_counts(tally.missed, item.missed),
    }
}

// One item was taken.
fn take_item(tally: &mut RunTally, item: &Captured)
    ensures { (begun : Bool) (popped : List CapturedTold) → Tallies begun popped tally.old → Tallies begun (popped ++ item.now ∷ []) tally.new }
{
    let group = usize::from(item.group);
    tally.groups[group] = with_item(tally.groups[group], item);
    tally.since = tally.since.or(Some(item.utc));
}

// These items were taken.
fn take_all(tally: &mut RunTally, items: &[Captured])
    ensures { (begun : Bool) (popped : List CapturedTold) → Tallies begun popped tally.old → Tallies begun (popped ++ items.now) tally.new }
{
    for item in items {
        take_item(tally, item);
    }
}

impl RunTally {
    /// No run is begun.
    pub fn new() -> RunTally
        ensures { Tallies false [] result }
    {
        RunTally {
            is_open: false,
            groups: [NOTHING; 16],
            since: None,
        }
    }

    /// Whether a run was begun.
    pub fn is_open(&self) -> bool
        ensures { result ≡ self.now.is_open }
    {
        self.is_open
    }

    /// The UTC stamp of the first item of the run, in milliseconds since 1970, None before it.
    #[tactic(auto, using(crate::proofs::Items::stamped))]
    pub fn since(&self) -> Option<i64>
        ensures same { result ≡ self.now.since }
        ensures stamp { IfSome result IsStamp }
    {
        self.since
    }

    /// A run is begun.
    pub fn begin(&mut self)
        ensures { (begun : Bool) (popped : List CapturedTold) → Tallies begun popped self.old → Tallies true popped self.new }
    {
        self.is_open = true;
    }

    /// These items were taken into the run, unless the media had failed before.
    pub fn take_unless(&mut self, failed: bool, items: &[Captured])
        ensures { (begun : Bool) (popped : List CapturedTold) → Tallies begun popped self.old → Tallies begun (popped ++ (if failed then [] else items.now)) self.new }
    {
        if !failed {
            take_all(self, items);
        }
    }
}
