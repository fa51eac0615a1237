// What a recorder asks of its maker: a run of a configuration, and batches of items.
ghost use Rattle.std.specs.Prelude.{◌≡◌, ◌≤◌, ◌<◌, ◌+◌, ◌*◌, ◌^◌, ℕ, [], ◌∷◌, ◌++◌, List, length, IfOk, IfSome, option_map};
ghost use Rattle.vdr_terms.specs.Records.{Record as Told, total};
ghost use Rattle.vdr_terms.specs.Counting.{next_number};
ghost use Rattle.vdr_terms.specs.Stamps.{IsStamp};
ghost use Rattle.vdr_core.specs.Runs.{RunStart, base_after};
ghost use Rattle.vdr_core.specs.Taken.{Captured as CapturedTold};
ghost use Rattle.vdr_core.specs.Recorder.{recorder_after, begun};
ghost use Rattle.vdr_run.specs.Calls.{FitsRun};
ghost use Rattle.vdr_run.specs.Making.{IsMaking, Makes, TakesOne, counted_of, item_told};
ghost use Rattle.vdr_run.specs.Starts.{stamp_of, start_with};
ghost use Rattle.vdr_recorder.specs.Making.{FitBehind, HasRoom, MakesBy, NumbersFit, numbers_of};

use std::alloc::{AllocError, Global};
use vdr_config::Config;
use vdr_intake::Captured;
use vdr_meter::Meter;
use vdr_run::{ItemHead, Maker};

/// The fewest bytes of a recorded item: a Datagram has 44 besides its own, and none is shorter than the token of six that it
/// begins with.
pub const LEAST_DATAGRAM: usize = 50;

// The fewest bytes of a record.
const LEAST_RECORD: usize = 44;

/// A maker for this configuration, with room for as many records as a batch may have, for the two of one more item, and for
/// those of a close.
pub(crate) fn maker_for(alloc: Global, config: &Config) -> Result<Maker, AllocError>
    ensures { IfOk result (λ maker. HasRoom config.now maker) }
{
    Maker::new(alloc, config.batch as usize / (2 * LEAST_RECORD) + 2)
}

/// A run of this configuration begins at this place, after a record of this tick and UTC if there is one. Its Start is made.
pub(crate) fn start_run(maker: &mut Maker, config: &Config, place: u64, last: Option<(u64, i64)>)
    requires place { place < 2 ^ 62 }
    requires base { base_after (option_map stamp_of last) < 2 ^ 62 }
    requires utc { IfSome last (λ told. IsStamp told.1) }
    ensures makes { MakesBy config.now (start_with config.now place last) [] maker.new }
    ensures place { maker.new.place ≡ place + 1 }
    ensures numbers { (g : ℕ) → g < 16 → next_number (counted_of maker.new g).pending ≡ 0 }
    ensures records { maker.new.records.items ≡ (begun (start_with config.now place last)).made }
    ensures room { HasRoom config.now maker.old → HasRoom config.now maker.new }
{
    maker.start(config, Some(Meter::new(config)), place, last);
}

/// The item without its bytes.
pub fn head_of(item: &Captured) -> ItemHead
    ensures told { item_told result item.now.bytes ≡ item.now }
    ensures fits { FitsRun result item.now.bytes }
{
    ItemHead {
        group: item.group,
        number: item.number,
        received: item.received,
        utc: item.utc,
        missed: item.missed,
    }
}

// Takes an item.
fn take(maker: &mut Maker, config: &Config, item: &Captured)
    requires room { length maker.old.records.items + 2 ≤ maker.old.records.capacity }
    requires place { maker.old.place + 2 < 2 ^ 63 }
    requires number { item.now.group < 16 → next_number (counted_of maker.old item.now.group).pending + total item.now.missed + 1 < 2 ^ 63 }
    ensures making { (start : RunStart) (popped : List CapturedTold) (before : List Told) → IsMaking config.now start popped before maker.old
        → IsMaking config.now start (popped ++ item.now ∷ []) before maker.new }
    ensures one { TakesOne maker.old maker.new item.now }
{
    maker.take(config, head_of(item), item.bytes.as_slice());
}

/// Takes items, in this order: those that the rate of their group admits are recorded.
pub(crate) fn make(maker: &mut Maker, config: &Config, items: &[Captured])
    requires room { HasRoom config.now maker.old }
    requires short { FitBehind config.now maker.old items.now config.now.batch }
    requires places { maker.old.place + 2 * length items.now < 2 ^ 63 }
    requires numbers { NumbersFit maker.old items.now }
    ensures makes { (start : RunStart) (popped : List CapturedTold) → MakesBy config.now start popped maker.old
        → MakesBy config.now start (popped ++ items.now) maker.new }
    ensures records { (start : RunStart) (popped : List CapturedTold) → Makes config.now start popped maker.old
        → (recorder_after start (popped ++ items.now)).made ≡ (recorder_after start popped).made ++ maker.new.records.items }
    ensures place { maker.new.place ≡ maker.old.place + length maker.new.records.items }
    ensures count { length maker.new.records.items ≤ 2 * length items.now }
    ensures numbers { (g : ℕ) → g < 16
        → next_number (counted_of maker.new g).pending ≡ next_number (counted_of maker.old g).pending + numbers_of g items.now }
    ensures room { HasRoom config.now maker.new }
{
    maker.clear();
    for item in items {
        take(maker, config, item);
    }
}
