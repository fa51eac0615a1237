// The records of a run, as they are made of its items.
//
// It takes an item as its head and its bytes, since a recorder's items stand in queues and a review's in its reader.
// A review has no meter.
ghost use Rattle.std.specs.Prelude.{◌≡◌, ◌≤◌, ◌<◌, ◌+◌, ◌*◌, ◌^◌, ℕ, [], ◌∷◌, ◌++◌, List, length, replicate, max, IfOk, IfSome};
ghost use Rattle.vdr_terms.specs.declared.datagram.Verdict.TheVariants.{Yes};
ghost use Rattle.vdr_terms.specs.Datagrams.{verdict};
ghost use Rattle.vdr_terms.specs.Records.{Record as Told, second, total};
ghost use Rattle.vdr_terms.specs.Counting.{next_number};
ghost use Rattle.vdr_terms.specs.Stamps.{IsStamp};
ghost use Rattle.vdr_datagram.specs.Channels.{channels_of};
ghost use Rattle.vdr_core.specs.Runs.{RunStart, base_after};
ghost use Rattle.vdr_core.specs.Taken.{Captured as CapturedTold};
ghost use Rattle.vdr_core.specs.Recorder.{recorder_after, begun};
ghost use Rattle.vdr_core.specs.Sums.{recorded_in, missed_in, counted_by};
ghost use Rattle.vdr_config.specs.Configuration.{Configuration};
ghost use Rattle.vdr_run.specs.Accounts.{nothing_counted, gap_records, datagram_record};
ghost use Rattle.vdr_run.specs.Meters.{second_of};

use crate::account::Account;
use crate::bits::{gap_bits, marker_bits};
use crate::metering::admit;
use crate::start::{base_after, utc_after};
use std::alloc::{AllocError, Global};
use std::array;
use vdr_config::Config;
use vdr_core::law_of_sums;
use vdr_datagram::channel_bits;
use vdr_entry::{Record, RecordBuffer};
use vdr_meter::Meter;
use vdr_terms::Counts;

/// The most records of a close: a Gap of each group, and a Stop.
const CLOSING_RECORDS: usize = 17;

/// What is told of a recordable item besides its bytes.
#[derive(Clone, Copy, Drop)]
pub struct ItemHead {
    /// The number of the transmission group.
    pub group: u8,
    /// The number of the item in its port's run, from 0.
    pub number: u64,
    /// Milliseconds since the run began.
    pub received: u64,
    /// UTC in milliseconds since 1970.
    pub utc: i64,
    /// What the port missed since its last recordable item.
    pub missed: Counts,
}

/// What a run has counted so far, and the records that were made since they were last cleared.
#[derive(Drop)]
pub struct Maker {
    // The tick of the run's Start.
    base: u64,
    // The greatest `received` of the items that were taken in the run.
    greatest: u64,
    // The UTC of the item that was taken last; before any item, of the last record before the run.
    utc: i64,
    // The place of the next record.
    place: u64,
    accounts: [Account; 16],
    // None where the rates of the groups are not limited.
    meter: Option<Meter>,
    records: RecordBuffer,
    ghost base_in_time: { base < 2 ^ 62 },
    ghost in_time: { greatest < 2 ^ 48 },
    ghost stamp: { IsStamp utc },
    ghost forward: { second_of meter ≤ second (base + greatest) },
    ghost room: { 17 ≤ records.capacity },
}

// One for each group.
fn accounts() -> [Account; 16]
    ensures { result ≡ replicate 16 nothing_counted }
{
    array::from_fn(|_| Account::new())
}

impl Maker {
    ghost use Rattle.vdr_run.specs.Calls.{BeginsAt, FitsRun, FitsStart, HasRoomFor};
    ghost use Rattle.vdr_run.specs.Making.{Makes, CountsItems, TakesOne, counted_of, closing_by, run_closed_by, rest_of, item_told};
    ghost use Rattle.vdr_run.specs.Making.{Adds, IsMaking, RecordsItem, ClosesBelow};

    /// A maker with room for the records of so many items, and for those of a close. It takes no memory later. No run has begun.
    pub fn new(alloc: Global, items: usize) -> Result<Maker, AllocError>
        requires { items < 2 ^ 32 }
        ensures { IfOk result (λ maker. 2 * items ≤ maker.records.capacity) }
    {
        let room = 2 * items;
        Ok(Maker {
            base: 0,
            greatest: 0,
            utc: 0,
            place: 0,
            accounts: accounts(),
            meter: None,
            records: RecordBuffer::with_capacity(alloc, room.max(CLOSING_RECORDS))?,
        })
    }

    /// A run begins at this place, after a record of this tick and UTC (in milliseconds) if there is one. The meter, if there is one, has
    /// admitted nothing. The run's Start is made.
    pub fn start(
        &mut self,
        config: &Config,
        meter: Option<Meter>,
        place: u64,
        last: Option<(u64, i64)>,
    )
        requires { FitsStart meter place last }
        ensures { BeginsAt config.now meter place last self.old self.new }
    {
        self.base = base_after(last);
        self.greatest = 0;
        self.utc = utc_after(last);
        self.place = place + 1;
        self.accounts = accounts();
        self.meter = meter;
        self.records.clear();
        self.records
            .push_start(marker_bits(config), place, self.base, self.utc);
    }

    /// Lets go of the records that were made.
    pub fn clear(&mut self)
        ensures same { (self.new.base ≡ self.old.base) × (self.new.greatest ≡ self.old.greatest) × (self.new.utc ≡ self.old.utc)
            × (self.new.place ≡ self.old.place) × (self.new.accounts ≡ self.old.accounts) × (self.new.meter ≡ self.old.meter) }
        ensures makes { (config : Configuration) (start : RunStart) (popped : List CapturedTold)
            → Makes config start popped self.old → Makes config start popped self.new }
        ensures empty { self.new.records.items ≡ [] }
        ensures room { self.new.records.capacity ≡ self.old.records.capacity }
    {
        self.records.clear();
    }

    /// Takes an item: it is recorded, behind a Gap if its group has missed anything since its last Datagram, or counted as refused by its
    /// rate. What is made stands behind what was made before.
    pub fn take(&mut self, config: &Config, item: ItemHead, bytes: &[u8])
        requires fits { FitsRun item bytes.now }
        requires room { HasRoomFor self.old item }
        ensures making { (start : RunStart) (popped : List CapturedTold) (before : List Told) → IsMaking config.now start popped before self.old
            → IsMaking config.now start (popped ++ item_told item bytes.now ∷ []) before self.new }
        ensures one { TakesOne self.old self.new (item_told item bytes.now) }
    {
        law_of_sums();
        self.greatest = self.greatest.max(item.received);
        self.utc = item.utc;
        let tick = self.tick();
        if admit(&mut self.meter, item.group, tick, bytes.len() as u16) {
            self.record(config, item, bytes);
        } else {
            self.accounts[item.group as usize].refuse(&item.missed);
        }
    }

    /// Closes the run, by what each port missed since its last item: each group that has missed anything since its last
    /// Datagram has a closing gap, in order of group, and then Stop is made.
    pub fn close(&mut self, config: &Config, rest: &[Counts; 16])
        requires place { self.old.place + 17 < 2 ^ 63 }
        requires numbers { (g : ℕ) → g < 16 → next_number (counted_of self.old g).pending + total (rest_of rest.now g) < 2 ^ 63 }
        ensures records { (start : RunStart) (popped : List CapturedTold) → Makes config.now start popped self.old
            → self.new.records.items ≡ closing_by start popped rest.now }
        ensures place { self.new.place ≡ self.old.place + length self.new.records.items }
        ensures counts { (start : RunStart) (popped : List CapturedTold) → Makes config.now start popped self.old
            → CountsItems start popped self.new }
        ensures closed { (start : RunStart) (popped : List CapturedTold) (g : ℕ) → Makes config.now start popped self.old
            → g < 16 → (rest_of rest.now g).rate ≡ 0
            → ((counted_of self.new g).recorded ≡ recorded_in g (run_closed_by start popped rest.now))
            × ((counted_of self.new g).refused ≡ (missed_in g (run_closed_by start popped rest.now)).rate) }
        ensures room { self.old.records.capacity ≤ self.new.records.capacity }
    {
        law_of_sums();
        self.records.clear();
        self.push_closing_gaps(config, rest);
        let tick = self.tick();
        self.records
            .push_stop(marker_bits(config), self.place, tick, self.utc);
        self.place += 1;
    }

    /// What was made since the records were last cleared.
    pub fn records(&self) -> &[Record]
        ensures { result.now ≡ self.now.records.items }
    {
        self.records.as_slice()
    }

    /// How many Datagrams of the group the run has, and how many of its items the rate refused. A group from 16 on has none.
    pub fn recorded(&self, group: u8) -> (u64, u64)
        ensures sums { (start : RunStart) (popped : List CapturedTold) → CountsItems start popped self.now → group < 16
            → result ≡ (recorded_in group (recorder_after start popped).made, (counted_by (recorder_after start popped) group).rate) }
        ensures none { 16 ≤ group → result ≡ (0, 0) }
    {
        match self.accounts.get(group as usize) {
            Some(account) => account.sums(),
            None => (0, 0),
        }
    }

    /// The tick of what is made now.
    pub fn tick(&self) -> u64
        ensures tick { result ≡ self.now.base + self.now.greatest }
        ensures low { result < 2 ^ 63 }
    {
        self.base + self.greatest
    }

    // Makes the records of an item under the present tick and stamp.
    fn record(&mut self, config: &Config, item: ItemHead, bytes: &[u8])
        requires group { item.group < 16 }
        requires recordable { verdict bytes.now ≡ Yes }
        requires room { length self.old.records.items + 2 ≤ self.old.records.capacity }
        requires place { self.old.place + 2 < 2 ^ 63 }
        requires number { next_number (counted_of self.old item.group).pending + total item.missed + 1 < 2 ^ 63 }
        ensures { RecordsItem (channels_of config.now) (item_told item bytes.now) self.old self.new }
    {
        let gap = self.accounts[item.group as usize].record(&item.missed);
        self.push_gap(config, item.group, gap);
        self.push_datagram(config, item.group, item.number, bytes);
    }

    // Makes the gap of a group under the present tick and stamp, if there is one.
    fn push_gap(&mut self, config: &Config, group: u8, gap: Option<(u64, Counts)>)
        requires group { group < 16 }
        requires missed { IfSome gap (λ told. 0 < total told.1) }
        requires place { self.old.place + 1 < 2 ^ 63 }
        requires room { length self.old.records.items < self.old.records.capacity }
        ensures { Adds (gap_records (channels_of config.now) group self.old.place (self.old.base + self.old.greatest) self.old.utc gap) self.old self.new }
    {
        let Some((first, missed)) = gap else {
            return;
        };
        let bits = gap_bits(config, group);
        let tick = self.tick();
        self.records
            .push_gap(group, bits, self.place, first, tick, self.utc, missed);
        self.place += 1;
    }

    // Makes the Datagram of an item under the present tick and stamp.
    fn push_datagram(&mut self, config: &Config, group: u8, number: u64, bytes: &[u8])
        requires group { group < 16 }
        requires recordable { verdict bytes.now ≡ Yes }
        requires place { self.old.place + 1 < 2 ^ 63 }
        requires room { length self.old.records.items < self.old.records.capacity }
        ensures { Adds (datagram_record (channels_of config.now) group self.old.place number (self.old.base + self.old.greatest) self.old.utc bytes.now ∷ []) self.old self.new }
    {
        let bits = channel_bits(config, group, bytes);
        let tick = self.tick();
        self.records
            .push_datagram(group, bits, self.place, number, tick, self.utc, bytes);
        self.place += 1;
    }

    // Makes the closing gaps, in order of group.
    fn push_closing_gaps(&mut self, config: &Config, rest: &[Counts; 16])
        requires room { length self.old.records.items + 16 < self.old.records.capacity }
        requires place { self.old.place + 17 < 2 ^ 63 }
        requires numbers { (g : ℕ) → g < 16 → next_number (counted_of self.old g).pending + total (rest_of rest.now g) < 2 ^ 63 }
        ensures { ClosesBelow 16 (channels_of config.now) rest.now self.old self.new }
    {
        for group in 0..16 {
            let gap = self.accounts[group as usize].close(&rest[group as usize]);
            self.push_gap(config, group, gap);
        }
    }
}
