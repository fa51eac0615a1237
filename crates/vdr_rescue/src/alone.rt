// One medium, opened alone.
ghost use Rattle.std.specs.Prelude.{◌≡◌, ◌<◌, ◌≤◌, ◌*◌, ◌+◌, ◌↔◌, ℕ, List, [], length, get_or, take, drop, option_copied, IsTrue, IfOk, Err, All};
ghost use Rattle.vdr_core.specs.Histories.{live};
ghost use Rattle.vdr_outside.specs.Disk.{Unchanged, content};
ghost use Rattle.vdr_outside.specs.declared.fault.PartRefused.TheVariants.{Damaged};
ghost use Rattle.vdr_config.specs.Sizes.{sizes_of};
ghost use Rattle.vdr_terms.specs.Needs.{slots_in};
ghost use Rattle.vdr_directory.specs.Costs.{ReadsAtMost};
ghost use Rattle.vdr_directory.specs.Opening.{HasFaultCause};
ghost use Rattle.vdr_segment.specs.Areas.{HasRoom};
ghost use Rattle.vdr_opening.specs.Parts.{SaysSegment};
ghost use Rattle.vdr_rescue.specs.Alones.{IsAloneOn, IsOfKind, IsReadingOrder, RefusesAlone, kind_bytes};
ghost use Rattle.vdr_opening.specs.Media.{HoldsConfigText};
ghost use Rattle.vdr_media.specs.Medium.{IsSuperblock};
ghost use Rattle.vdr_rescue.specs.Costs.{ReadsNoOther};
ghost use Rattle.vdr_rescue.specs.Saves.{AreSaves, saved_slots};

use crate::saves::{Saves, read_saves};
use crate::{Cursor, Fronts, Head, read_fronts};
use std::alloc::{AllocError, Global};
use std::marker::Model;
use vdr_config::Config;
use vdr_incident::{LONG_TERM, Save};
use vdr_media::superblock_bytes;
use vdr_opening::read_config_of;
use vdr_outside::{Media, PartRefused};
use vdr_segment::{Area, OPEN_GATE};
use vdr_terms::{SLOTS_FROM, slot_count};

// The gate of a superblock and its fields; what stands behind them is unread.
const SUPERBLOCK_SIZE: usize = 23;

/// What one medium alone holds.
#[derive(Drop)]
pub struct Alone {
    pub(crate) config: Config,
    // Whether its superblock is legal in full.
    pub(crate) legal: bool,
    pub(crate) saves: Saves,
    // The slots with a torn gate, and those without a header.
    pub(crate) torn: Vec<u32>,
    pub(crate) headless: Vec<u32>,
    // How many slots are not open, and the last one whose gate is 0.
    pub(crate) closed: u32,
    pub(crate) last_closed: Option<u32>,
    pub(crate) cursor: Cursor,
}

impl Model for Alone {
    ghost use Rattle.vdr_rescue.specs.Alones.{AloneState};

    ghost Value = { AloneState };

    ghost view = { λ a. record { config = a.config; legal = a.legal; saves = a.saves; torn = a.torn.items; headless = a.headless.items; closed = a.closed; last_closed = a.last_closed; cursor = a.cursor } };
}

// The first bytes of medium m. `Damaged`: it has fewer than stand before its slots.
fn read_first<M: Media>(media: &mut M, m: u8) -> Result<[u8; SUPERBLOCK_SIZE], PartRefused>
    requires there { m < length (M.disk media.old).sizes }
    ensures bytes { IfOk result (λ bytes. M.tells → bytes ≡ take 23 (content (M.disk media.old).reads m)) }
    ensures size { IfOk result (λ bytes. length bytes ≡ 23) }
    ensures room { IfOk result (λ bytes. 32768 ≤ get_or (M.disk media.old).sizes m 0) }
    ensures damaged { (k offset : ℕ) → result ≡ Err (Damaged k offset) → (k ≡ m) × (offset ≡ 0) × (M.tells → length (content (M.disk media.old).reads m) < 32768) }
    ensures unchanged { Unchanged (M.disk media.old) (M.disk media.new) }
    ensures counts { ReadsAtMost m 23 (M.bytes_read media.old) (M.bytes_read media.new) }
    ensures cause { HasFaultCause m (M.faults media.old) (M.faults media.new) result }
{
    if media.size(m) < SLOTS_FROM {
        return Err(PartRefused::Damaged {
            medium: m,
            offset: 0,
        });
    }
    let mut bytes = [0; SUPERBLOCK_SIZE];
    media.read(m, 0, &mut bytes)?;
    Ok(bytes)
}

// Whether the first bytes of a medium are those of medium m of version 1, whatever its gate and its sizes are.
fn is_of_kind(bytes: &[u8; SUPERBLOCK_SIZE], m: u8) -> bool
    ensures { IsTrue result ↔ (take 6 (drop 1 bytes.now) ≡ kind_bytes m) }
{
    let kind = [b'V', b'D', b'R', b'M', 1, m];
    if &bytes[1..7] != kind.as_slice() {
        return false;
    }
    true
}

// Whether they are a legal superblock of medium m, of so many bytes, with segments of this size.
fn is_superblock(bytes: &[u8], m: u8, segment: u32, size: u64) -> bool
    requires size { length bytes.now ≡ 23 }
    requires low { 8192 ≤ segment }
    requires high { segment ≤ 16777216 }
    ensures { IsTrue result ↔ SaysSegment m size segment bytes.now }
{
    if bytes[0] != OPEN_GATE {
        return false;
    }
    let legal = superblock_bytes(m, size, segment, slot_count(segment, size));
    if &bytes[1..] != legal.as_slice() {
        return false;
    }
    true
}

// What stands before the slots, but for the incident slots: the configuration, and whether the superblock is legal in full.
fn read_before<M: Media>(alloc: Global, media: &mut M, m: u8) -> Result<(Config, bool), PartRefused>
    requires there { m < length (M.disk media.old).sizes }
    ensures kind { IfOk result (λ x. M.tells → IsOfKind m (content (M.disk media.old).reads m)) }
    ensures config { IfOk result (λ x. M.tells → HoldsConfigText x.0 (content (M.disk media.old).reads m)) }
    ensures legal { IfOk result (λ x. M.tells → IsTrue x.1 ↔ IsSuperblock m x.0.segment (content (M.disk media.old).reads m)) }
    ensures room { IfOk result (λ x. 32768 ≤ get_or (M.disk media.old).sizes m 0) }
    ensures damaged { (k offset : ℕ) → result ≡ Err (Damaged k offset) → (k ≡ m) × (M.tells → RefusesAlone m (content (M.disk media.old).reads m) offset) }
    ensures unchanged { Unchanged (M.disk media.old) (M.disk media.new) }
    ensures counts { ReadsAtMost m 16407 (M.bytes_read media.old) (M.bytes_read media.new) }
    ensures cause { HasFaultCause m (M.faults media.old) (M.faults media.new) result }
{
    let size = media.size(m);
    let bytes = read_first(media, m)?;
    if !is_of_kind(&bytes, m) {
        return Err(PartRefused::Damaged {
            medium: m,
            offset: 0,
        });
    }
    let config = read_config_of(alloc, media, m)?;
    let legal = is_superblock(&bytes, m, config.segment, size);
    Ok((config, legal))
}

// The slots of medium m, of so many bytes.
fn area_of(config: &Config, m: u8, size: u64) -> Area
    ensures medium { result.medium ≡ m }
    ensures segment { result.segment ≡ config.now.segment }
    ensures slots { result.slots ≡ slots_in (sizes_of config.now) size }
    ensures room { 32768 ≤ size → 32768 + result.slots * result.segment ≤ size }
{
    Area {
        medium: m,
        segment: config.segment,
        slots: slot_count(config.segment, size),
    }
}

// The incident slots of medium m, of which the long-term medium alone has some.
fn read_saves_of<M: Media>(media: &mut M, m: u8, config: &Config) -> Result<Saves, PartRefused>
    requires there { m < length (M.disk media.old).sizes }
    requires room { 32768 ≤ get_or (M.disk media.old).sizes m 0 }
    ensures saves { IfOk result (λ saves. M.tells → AreSaves (content (M.disk media.old).reads m) (saved_slots m config.now) saves) }
    ensures damaged { (k offset : ℕ) → result ≡ Err (Damaged k offset) → ⊥ }
    ensures unchanged { Unchanged (M.disk media.old) (M.disk media.new) }
    ensures counts { ReadsAtMost m 8192 (M.bytes_read media.old) (M.bytes_read media.new) }
    ensures cause { HasFaultCause m (M.faults media.old) (M.faults media.new) result }
{
    if m != LONG_TERM {
        return Ok(Saves::new());
    }
    match read_saves(media, config.incident_slots) {
        Ok(saves) => Ok(saves),
        Err(_) => Err(PartRefused::Fault),
    }
}

// Puts segments in the order in which they are read.
fn sort(heads: &mut Vec<Head>)
    ensures { IsReadingOrder heads.old.items heads.new.items }
{
    heads.sort_unstable_by_key(|head| (head.first, head.seq, head.slot));
}

impl Alone {
    // With what was read of it.
    fn of(
        alloc: Global,
        config: Config,
        legal: bool,
        saves: Saves,
        area: Area,
        fronts: Fronts,
    ) -> Result<Alone, AllocError>
        requires slots { All (λ head. head.slot < area.slots) fronts.heads }
        ensures config { IfOk result (λ a. a.config ≡ config) }
        ensures legal { IfOk result (λ a. a.legal ≡ legal) }
        ensures saves { IfOk result (λ a. a.saves ≡ saves) }
        ensures area { IfOk result (λ a. a.cursor.area ≡ area) }
        ensures order { IfOk result (λ a. IsReadingOrder fronts.heads a.cursor.heads) }
        ensures shown { IfOk result (λ a. (a.torn ≡ fronts.torn) × (a.headless ≡ fronts.headless) × (a.closed ≡ fronts.closed) × (a.last_closed ≡ fronts.last_closed)) }
    {
        let Fronts {
            mut heads,
            torn,
            headless,
            closed,
            last_closed,
        } = fronts;
        sort(&mut heads);
        let cursor = Cursor::new(alloc, area, heads)?;
        Ok(Alone {
            config,
            legal,
            saves,
            torn,
            headless,
            closed,
            last_closed,
            cursor,
        })
    }

    /// Opens medium m alone, to be read: what stands before its slots, and the front of each slot. Writes nothing, and reads no
    /// other medium. Takes 64 bytes of memory for each slot and those of a segment.
    ///
    /// `Damaged { medium: m, offset }`: 0 where it has fewer than 32,768 bytes or its bytes 1 to 6 are not those of medium m of
    /// version 1; else 12,288 where its text is no configuration. Nothing else is refused. `Fault`: a read failed, and the
    /// count of faults of this medium rose.
    pub fn open<M: Media>(alloc: Global, media: &mut M, m: u8) -> Result<Alone, PartRefused>
        requires there { m < length (M.disk media.old).sizes }
        requires few { m < 2 }
        ensures opened { IfOk result (λ alone. M.tells → IsAloneOn m (content (M.disk media.old).reads m) alone) }
        ensures room { IfOk result (λ alone. HasRoom alone.cursor.area (M.disk media.old).sizes) }
        ensures medium { IfOk result (λ alone. alone.cursor.area.medium ≡ m) }
        ensures damaged { (k offset : ℕ) → result ≡ Err (Damaged k offset) → (k ≡ m) × (M.tells → RefusesAlone m (content (M.disk media.old).reads m) offset) }
        ensures unchanged { Unchanged (M.disk media.old) (M.disk media.new) }
        ensures others { ReadsNoOther m (M.bytes_read media.old) (M.bytes_read media.new) }
        ensures cause { HasFaultCause m (M.faults media.old) (M.faults media.new) result }
    {
        let (config, legal) = read_before(alloc, media, m)?;
        let saves = read_saves_of(media, m, &config)?;
        let area = area_of(&config, m, media.size(m));
        let fronts = read_fronts(alloc, media, area)?;
        let Ok(alone) = Alone::of(alloc, config, legal, saves, area, fronts) else {
            return Err(PartRefused::NoMemory);
        };
        Ok(alone)
    }

    /// The configuration that the medium holds.
    pub fn config(&self) -> &Config
        ensures { result.now ≡ self.now.config }
    {
        &self.config
    }

    /// Its number: 0 is the capsule, 1 the long-term medium.
    pub fn medium(&self) -> u8
        ensures { result ≡ self.now.cursor.area.medium }
    {
        self.cursor.area().medium
    }

    /// The reader of its records, wherever it stands.
    pub fn into_cursor(self) -> Cursor
        ensures { result ≡ self.cursor }
    {
        self.cursor
    }

    /// The live save of an id. None where its slot is free or is not legal, and on the capsule.
    pub fn live(&self, id: u32) -> Option<&Save>
        ensures { option_copied result ≡ live self.now.saves.table id }
    {
        self.saves.live(id)
    }
}
