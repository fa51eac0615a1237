// A recorder without its media, how it is opened, and what it answers without a call on them.
//
// A run is closed whatever the commit of its close answers: after a fault nothing is recorded any more. Place is
// tested before tick, and both before any call.
ghost use Rattle.std.specs.Prelude.{◌≡◌, ◌≤◌, ◌<◌, List, [], length, count_by, is_some, option_map, false, Err, IfOk};
ghost use Rattle.vdr_core.specs.Histories.{Event, Opening, done, incidents};
ghost use Rattle.vdr_core.specs.Recorder.{recorder_after};
ghost use Rattle.vdr_core.specs.RunStates.{state_left};
ghost use Rattle.vdr_core.specs.Runs.{RunStart, last_tick};
ghost use Rattle.vdr_core.specs.Sums.{counted_by, recorded_in};
ghost use Rattle.vdr_core.specs.Taken.{Captured as CapturedTold};
ghost use Rattle.vdr_durability.specs.Readings.{EndsMeet};
ghost use Rattle.vdr_opening.specs.Costs.{ReadsToOpen};
ghost use Rattle.vdr_opening.specs.Media.{Contents, HoldsContents, HoldsParts, members_with, opening_of, reading_of};
ghost use Rattle.vdr_opening.specs.declared.refused.OpenRefused.TheVariants.{Damaged, NotFormatted};
ghost use Rattle.vdr_vault.specs.Openings.{OpensAtEachMoment, ReachesLongTerm, RefusesMedia, WritesMissing};
ghost use Rattle.vdr_vault.specs.Regularity.{AreSound};
ghost use Rattle.vdr_vault.specs.Vaults.{ShowsHistory};
ghost use Rattle.vdr_recorder.specs.Calls.{OpensRecorder};
ghost use Rattle.vdr_run.specs.Making.{CountsItems};
ghost use Rattle.vdr_recorder.specs.Recordings.{TellsLeft};
ghost use Rattle.vdr_run.specs.Starts.{stamp_of};

use crate::making::maker_for;
use std::alloc::Global;
use std::marker::Model;
use vdr_config::Config;
use vdr_opening::OpenRefused;
use vdr_outside::Media;
use vdr_run::Maker;
use vdr_vault::Vault;

/// A recorder without its media: the vault on them, what the present run has counted, and whether a run is open. Each call on the
/// media is one event of one history. After a fault of a write all its calls answer `Fault` and touch nothing, until the media are
/// opened again.
#[derive(Drop)]
pub struct Recorder {
    pub(crate) vault: Vault,
    pub(crate) maker: Maker,
    pub(crate) is_open: bool,
}

/// What a recorder tells of itself.
#[derive(Clone, Copy, Debug, PartialEq, Eq, Drop)]
pub struct State {
    /// How many records were made: the place of the next one.
    pub records: u64,
    /// The tick of the last record, in milliseconds of recording time. 0 where nothing is recorded.
    pub tick: u64,
    /// How many saved incidents are live.
    pub incidents: u8,
}

impl Model for Recorder {
    ghost use Rattle.vdr_recorder.specs.Recordings.{IsReady, RecorderState};

    ghost Value = { RecorderState };

    ghost view = { λ s. record { vault = s.vault; maker = s.maker; is_open = s.is_open } };

    ghost invariant = { λ s. IsReady (record { vault = s.vault; maker = s.maker; is_open = s.is_open }) };
}

impl Recorder {
    /// Opens the media for recording, as `vdr_vault::Vault::open` does, and takes all memory that recording needs. No run is open.
    ///
    /// `NotFormatted` and `Damaged` come exactly as `vdr_opening::read_media` says, and nothing was written. `Fault`: a call failed, and
    /// the count of faults of that medium rose.
    pub fn open<M: Media>(alloc: Global, media: &mut M) -> Result<Recorder, OpenRefused>
        requires two { 2 ≤ length (M.disk media.old).sizes }
        requires three { length (M.disk media.old).sizes ≤ 3 }
        ensures opened { OpensRecorder result (M.disk media.old) (M.disk media.new) }
        ensures missing { (x : Contents) → M.tells → HoldsContents (M.disk media.old).reads x → WritesMissing x (M.disk media.old) (M.disk media.new) }
        ensures moments { (x : Contents) → M.tells → HoldsContents (M.disk media.old).reads x → EndsMeet (members_with x.further) (reading_of x) → AreSound x
            → OpensAtEachMoment (M.disk media.old) (M.disk media.new) result (ShowsHistory (opening_of x) []) }
        ensures refused { RefusesMedia result (M.disk media.old) (M.disk media.new) }
        ensures bytes { IfOk result (λ _. (x : Contents) → M.tells → HoldsParts (M.disk media.old).reads x
            → ReadsToOpen x (M.disk media.old).sizes (M.bytes_read media.old) (M.bytes_read media.new)) }
        ensures writes { ReachesLongTerm M.Media media.old media.new result }
    {
        let vault = Vault::open(alloc, media)?;
        let config = vault.config();
        // The maker has room for a batch of this many bytes.
        let _batch = config.batch;
        let Ok(maker) = maker_for(alloc, config) else {
            return Err(OpenRefused::NoMemory);
        };
        Ok(Recorder {
            vault,
            maker,
            is_open: false,
        })
    }

    /// The configuration that the media hold.
    pub fn config(&self) -> &Config
        ensures { result.now ≡ self.now.vault.config }
    {
        self.vault.config()
    }

    /// How many Datagrams of the group the run has, and how many of its items the rate refused. A group from 16 on has none.
    pub fn recorded(&self, group: u8) -> (u64, u64)
        ensures sums { (start : RunStart) (popped : List CapturedTold) → CountsItems start popped self.now.maker → group < 16
            → result ≡ (recorded_in group (recorder_after start popped).made, (counted_by (recorder_after start popped) group).rate) }
        ensures none { 16 ≤ group → result ≡ (0, 0) }
    {
        self.maker.recorded(group)
    }

    /// Whether a write has failed since the media were opened.
    pub fn failed(&self) -> bool
        ensures { result ≡ self.now.vault.failed }
    {
        self.vault.failed()
    }

    /// How far the recording is. A batch that met a fault doesn't count.
    pub fn status(&self) -> State
        ensures records { result.records ≡ self.now.vault.next_place }
        ensures tick { result.tick ≡ last_tick (option_map stamp_of self.now.vault.last) }
        ensures incidents { result.incidents ≡ count_by is_some self.now.vault.table }
        ensures left { (opening : Opening) (events : List Event) → TellsLeft opening events self.now.vault
            → (result.records ≡ (state_left opening events).place) × (result.tick ≡ last_tick (state_left opening events).last)
            × (result.incidents ≡ count_by is_some (incidents opening (done events))) }
    {
        let tick = match self.vault.last() {
            Some((tick, _)) => tick,
            None => 0,
        };
        State {
            records: self.vault.next_place(),
            tick,
            incidents: self.vault.live_saves(),
        }
    }
}
