// What is kept of an incident, and until when.
//
// A read that fails while the first record is looked for counts as a fault of the save. A place that is not on the
// medium is damage at offset 0: with such a save legible media would be legible no more.
ghost use Rattle.std.specs.Prelude.{◌≡◌, ◌⊎◌, ◌-◌, ◌≤◌, ℕ, ℤ, suc, List, is_none, position, option_map, IfOk, IfNone, IfSome, OnErr, None, Some, Err, Ok, false};
ghost use Rattle.vdr_terms.specs.Records.{Record, last, second};
ghost use Rattle.vdr_core.specs.Histories.{Event, Incident, Opening, live, with_slot};
ghost use Rattle.vdr_core.specs.Histories.Act.{Release};
ghost use Rattle.vdr_outside.specs.Disk.{SameBut, Unchanged};
ghost use Rattle.vdr_config.specs.Configuration.{IsConfiguration};
ghost use Rattle.vdr_directory.specs.Sequence.{Placed, all_records};
ghost use Rattle.vdr_directory.specs.Order.{AreInOrder};
ghost use Rattle.vdr_directory.specs.Lookup.{HoldAll};
ghost use Rattle.vdr_directory.specs.Holds.{Tells};
ghost use Rattle.vdr_ring.specs.Rings.{Reads};
ghost use Rattle.vdr_incident.specs.Saves.{IsSave};
ghost use Rattle.vdr_incident.specs.declared.refused.ReleaseRefused.TheVariants.{Fault as AReleaseFault, NoSuch};
ghost use Rattle.vdr_vault.specs.Vaults.{AreJudged, AreRings, IsDamagedOn, Stands, of_stamp, ring_of};
ghost use Rattle.vdr_ring.specs.Walks.{HasRead};
ghost use Rattle.vdr_vault.specs.Plays.{ReadsNoOther, ReadsOn};
ghost use Rattle.vdr_vault.specs.Saves.{Does, HasFaultOn, Saves, first_in_window, save_refusal};
ghost use Rattle.vdr_vault.specs.Keeps.{FailsWhere, FreesSlot, KeepsHistory, MeetsDamage, PutsIncident, RefusesRelease, RefusesSave, WritesToLongTerm};
ghost use Rattle.vdr_vault.specs.declared.refused.SaveRefused.{SaveRefused as Refused};
ghost use Rattle.vdr_vault.specs.declared.refused.SaveRefused.TheVariants.{Damaged, Fault as AFault, Label, Nothing, TableFull};

use crate::{SaveRefused, Vault};
use vdr_entry::{Medium, Query};
use vdr_incident::{LONG_TERM, ReleaseRefused, Save, is_label};
use vdr_index::{Selection, Span};
use vdr_outside::Media;
use vdr_ring::Cursor;

// The records of a medium, whatever their channels and stamps.
pub(crate) const ALL: Query = Query {
    medium: Medium::LongTerm,
    channel: None,
    from: i64::MIN,
    to: i64::MAX,
};

impl Vault {
    // Tick and stamp of the last record, where the label may be saved.
    fn accept(&self, label: &[u8]) -> Result<(u64, i64), SaveRefused>
        ensures refused { (refused : Refused) → save_refusal label.now self.now ≡ Some refused → result ≡ Err refused }
        ensures accepted { save_refusal label.now self.now ≡ None → (stamp : ℕ × ℤ) × (result ≡ Ok stamp) × (self.now.last ≡ Some stamp) }
        ensures stamp { IfOk result (λ stamp. (save_refusal label.now self.now ≡ None) × (self.now.last ≡ Some stamp)) }
    {
        if !is_label(label) {
            return Err(SaveRefused::Label);
        }
        let Some(stamp) = self.last else {
            return Err(SaveRefused::Nothing);
        };
        if self.table.is_full() {
            return Err(SaveRefused::TableFull);
        }
        Ok(stamp)
    }

    // The configuration is within its limits.
    fn law_of_limits(&self)
        ensures { IsConfiguration self.now.config }
    {
        let _slots = self.config.incident_slots;
    }

    // The seconds of an incident.
    fn incident_seconds(&self) -> u64
        ensures seconds { result ≡ self.now.config.incident_seconds }
        ensures some { 1 ≤ result }
    {
        self.config.incident_seconds
    }

    // The place of the first record of an incident that ends with this second. What is before it is not read.
    fn first_of_incident<M: Media>(
        &mut self,
        media: &mut M,
        last_second: u64,
    ) -> Result<u64, SaveRefused>
        requires rings { AreRings self.old (M.disk media.old).sizes }
        ensures vault { ReadsOn 1 self.old self.new }
        ensures read { HasRead (ring_of self.old 1) (ring_of self.new 1) (M.disk media.old) (M.disk media.new) }
        ensures rings { AreRings self.new (M.disk media.new).sizes }
        ensures found { (placed : List Placed) (newest : Record) → M.tells → Reads (ring_of self.old 1) placed (M.disk media.old)
            → last (all_records placed) ≡ Some newest → second newest.tick ≡ last_second
            → IfOk result (λ a. first_in_window self.old.config.incident_seconds (all_records placed) ≡ Some a) }
        ensures undamaged { (placed : List Placed) (newest : Record) (m offset : ℕ) → M.tells → Reads (ring_of self.old 1) placed (M.disk media.old)
            → last (all_records placed) ≡ Some newest → second newest.tick ≡ last_second → result ≡ Err (Damaged m offset) → ⊥ }
        ensures damaged { (m offset : ℕ) → result ≡ Err (Damaged m offset) → (m ≡ 1)
            × (M.tells → AreJudged self.old (M.disk media.old) → (offset ≡ 0) ⊎ IsDamagedOn self.old.config (M.disk media.old) m offset) }
        ensures own { (result ≡ Err Label → ⊥) × (result ≡ Err Nothing → ⊥) × (result ≡ Err TableFull → ⊥) }
        ensures counts { ReadsNoOther 1 (M.bytes_read media.old) (M.bytes_read media.new) }
        ensures cause { HasFaultOn 1 false (M.faults media.old) (M.faults media.new) (result ≡ Err AFault) }
    {
        let seconds = self.incident_seconds();
        let selection = Selection {
            span: Span::Window {
                last: last_second,
                seconds,
            },
            query: ALL,
        };
        let mut cursor = Cursor::new();
        if !self.step_on(LONG_TERM, media, &selection, &mut cursor)? {
            return Err(SaveRefused::Damaged {
                medium: LONG_TERM,
                offset: 0,
            });
        }
        let Some(item) = cursor.item() else {
            unreachable!()
        };
        Ok(item.place)
    }

    // The save of an incident from this place to the last one. None where it is not legal, or a place of it is not on the long-term
    // medium: with such a save the medium would not be legible.
    fn incident_from(&self, label: &[u8], a: u64, tick: u64, utc: i64) -> Option<Save>
        ensures made { IfSome result (λ save. save ≡ record { label = label.now; a = a; b = self.now.next_place - 1; stamp = record { tick = tick; utc = utc } }) }
        ensures there { IfSome result (λ save. (placed : List Placed) → Tells (ring_of self.now 1).slots placed (ring_of self.now 1).directory → AreInOrder placed
            → HoldAll a (self.now.next_place - 1) placed) }
        ensures none { IfNone result ((placed : List Placed) → Tells (ring_of self.now 1).slots placed (ring_of self.now 1).directory → AreInOrder placed
            → HoldAll a (self.now.next_place - 1) placed → IsSave (record { label = label.now; a = a; b = self.now.next_place - 1; stamp = record { tick = tick; utc = utc } }) → ⊥) }
    {
        let b = self.next_place.saturating_sub(1);
        if !self.ring(LONG_TERM).holds(a, b) {
            return None;
        }
        Save::new(label, a, b, tick, utc)
    }

    // Saves an incident that may be saved, under this tick and this stamp.
    fn save_accepted<M: Media>(
        &mut self,
        media: &mut M,
        label: &[u8],
        tick: u64,
        utc: i64,
    ) -> Result<u32, SaveRefused>
        requires rings { AreRings self.old (M.disk media.old).sizes }
        requires accepted { save_refusal label.now self.old ≡ None }
        requires newest { self.old.last ≡ Some (tick, utc) }
        ensures saves { (opening : Opening) (events : List Event) (placed : ℕ → List Placed) → M.tells → Stands opening events self.old placed (M.disk media.old)
            → Saves opening events label.now placed self.new (M.disk media.old) (M.disk media.new) result }
        ensures undamaged { (opening : Opening) (events : List Event) (placed : ℕ → List Placed) (m offset : ℕ) → M.tells → Stands opening events self.old placed (M.disk media.old)
            → result ≡ Err (Damaged m offset) → ⊥ }
        ensures stands { (opening : Opening) (events : List Event) (placed : ℕ → List Placed) (m offset : ℕ) → M.tells → result ≡ Err (Damaged m offset)
            → Stands opening events self.old placed (M.disk media.old) → Stands opening events self.new placed (M.disk media.new) }
        ensures damaged { (m offset : ℕ) → result ≡ Err (Damaged m offset) → Unchanged (M.disk media.old) (M.disk media.new) × (m ≡ 1) }
        ensures named { (m offset : ℕ) → result ≡ Err (Damaged m offset) → M.tells → AreJudged self.old (M.disk media.old)
            → (offset ≡ 0) ⊎ IsDamagedOn self.old.config (M.disk media.old) m offset }
        ensures own { (result ≡ Err Label → ⊥) × (result ≡ Err Nothing → ⊥) × (result ≡ Err TableFull → ⊥) }
        ensures id { IfOk result (λ id. option_map suc (position is_none self.old.table) ≡ Some id) }
        ensures table { IfOk result (λ id. (saved : Incident) × (self.new.table ≡ with_slot self.old.table id (Some saved)) × (saved.label ≡ label.now)
            × (saved.b ≡ self.old.next_place - 1) × (self.old.last ≡ Some (of_stamp saved.stamp))) }
        ensures kept { OnErr result (self.new.table ≡ self.old.table) }
        ensures failed { self.new.failed ≡ self.old.failed }
        ensures next_place { self.new.next_place ≡ self.old.next_place }
        ensures last { self.new.last ≡ self.old.last }
        ensures config { self.new.config ≡ self.old.config }
        ensures capsule { ring_of self.new 0 ≡ ring_of self.old 0 }
        ensures rings { AreRings self.new (M.disk media.new).sizes }
        ensures others { M.tells → SameBut 1 (M.disk media.old).reads (M.disk media.new).reads }
        ensures sizes { (M.disk media.new).sizes ≡ (M.disk media.old).sizes }
        ensures counts { ReadsNoOther 1 (M.bytes_read media.old) (M.bytes_read media.new) }
        ensures cause { HasFaultOn 1 false (M.faults media.old) (M.faults media.new) (result ≡ Err AFault) }
    {
        self.law_of_limits();
        let a = self.first_of_incident(media, tick / 1000)?;
        let Some(save) = self.incident_from(label, a, tick, utc) else {
            return Err(SaveRefused::Damaged {
                medium: LONG_TERM,
                offset: 0,
            });
        };
        Ok(self.table.save(media, &save)?)
    }

    /// Saves an incident: keeps the records of the long-term medium from the first one in the window of `incident_seconds` to the
    /// last one, until it is released. It gets the least id that is free, from 1 on. The save is acknowledged: at every moment a
    /// stop leaves media that show what was recorded and saved before, or that with the save, and after Ok they show it. No byte
    /// of the capsule is touched. Takes no memory.
    ///
    /// The refusals stand in their order in `SaveRefused`. Of the first three no byte was read or written, of `Damaged` none was written:
    /// a slot that was read is damaged, or a place of the incident is not on the medium. After `Fault` each call answers `Fault`,
    /// until the media are opened again.
    pub fn save<M: Media>(&mut self, media: &mut M, label: &[u8]) -> Result<u32, SaveRefused>
        requires rings { AreRings self.old (M.disk media.old).sizes }
        ensures refuses { RefusesSave label.now self.old self.old self.new media.old media.new result }
        ensures saves { (opening : Opening) (events : List Event) (placed : ℕ → List Placed) → M.tells → Stands opening events self.old placed (M.disk media.old)
            → save_refusal label.now self.old ≡ None → Saves opening events label.now placed self.new (M.disk media.old) (M.disk media.new) result }
        ensures damage { MeetsDamage self.old self.new (M.disk media.old) (M.disk media.new) result }
        ensures failing { FailsWhere (result ≡ Err AFault) self.new.failed }
        ensures saved { PutsIncident label.now self.old self.new.table result }
        ensures keeps { KeepsHistory self.old self.new (M.disk media.new).sizes }
        ensures writes { WritesToLongTerm M.Media self.old.failed media.old media.new (ReadsNoOther 1) (result ≡ Err AFault) }
    {
        if self.failed {
            return Err(SaveRefused::Fault);
        }
        let (tick, utc) = self.accept(label)?;
        let saved = self.save_accepted(media, label, tick, utc);
        self.failed = saved == Err(SaveRefused::Fault);
        saved
    }

    /// Releases a saved incident: its records stay until they are outside of the window and their slot is needed, and its id is free.
    /// At every moment a stop leaves media that show the history without the release or with it, and after Ok they show it. No byte
    /// of the capsule is touched. Takes no memory.
    ///
    /// `NoSuch`: no live save has this id, and nothing was called. `Fault`: a write had failed before, and nothing was called; or a
    /// write or a sync failed, and the count of faults of the long-term medium rose. After it each call answers `Fault`, until
    /// the media are opened again.
    pub fn release<M: Media>(&mut self, media: &mut M, id: u32) -> Result<(), ReleaseRefused>
        requires rings { AreRings self.old (M.disk media.old).sizes }
        ensures refuses { RefusesRelease id self.old self.old self.new media.old media.new result }
        ensures releases { (opening : Opening) (events : List Event) (placed : ℕ → List Placed) (saved : Incident) (e : Event) → M.tells
            → Stands opening events self.old placed (M.disk media.old) → live self.old.table id ≡ Some saved → e.act ≡ Release id
            → Does opening events e placed self.new (M.disk media.old) (M.disk media.new) result }
        ensures failing { FailsWhere (result ≡ Err AReleaseFault) self.new.failed }
        ensures released { FreesSlot id self.old.table self.new.table result }
        ensures keeps { KeepsHistory self.old self.new (M.disk media.new).sizes }
        ensures long_term { ring_of self.new 1 ≡ ring_of self.old 1 }
        ensures writes { WritesToLongTerm M.Media self.old.failed media.old media.new (λ before now. now ≡ before) (result ≡ Err AReleaseFault) }
    {
        if self.failed {
            return Err(ReleaseRefused::Fault);
        }
        self.law_of_limits();
        let released = self.table.release(media, id);
        self.failed = released == Err(ReleaseRefused::Fault);
        released
    }
}
