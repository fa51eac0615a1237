// The table of incident saves: read from its slots, with saves added and released.
ghost use Rattle.std.specs.Prelude.{◌≡◌, ◌≤◌, ◌<◌, ◌↔◌, ◌+◌, ℕ, suc, Option, Some, None, is_none, position, set, length, option_copied, Err, Ok, OnOk, IfOk, IsErrOf, OnErr, IfSome, IsSome, IsTrue, count_by, is_some};
ghost use Rattle.vdr_core.specs.Histories.{Incident, live, with_slot};
ghost use Rattle.vdr_outside.specs.Disk.{content};
ghost use Rattle.vdr_outside.specs.Moments.{ChangesOnly, Settled};
ghost use Rattle.vdr_outside.specs.declared.fault.PartRefused.TheVariants.{Damaged, NoMemory};
ghost use Rattle.vdr_incident.specs.declared.refused.TableRefused.TheVariants.{Fault as SaveFault, TableFull};
ghost use Rattle.vdr_incident.specs.declared.refused.ReleaseRefused.TheVariants.{Fault as ReleaseFault, NoSuch};
ghost use Rattle.vdr_incident.specs.Tables.{HasIncidents, HoldsTable, HoldsBeside, HoldsEither, Refuses};
ghost use Rattle.vdr_incident.specs.Calls.{PutsSave, ReadsTable, WritesUnlessRefused};

use crate::reading::read_slots;
use crate::save::Save;
use crate::writing::{close_slot, write_save};
use crate::{ReleaseRefused, TableRefused};
use arrayvec::ArrayVec;
use std::marker::Model;
use vdr_outside::{Media, PartRefused};

/// The incident saves of the long-term medium by their slots, of which there are at most 32 (this project's profile). The save
/// of id i + 1 stands in slot i; a slot without one is free.
#[derive(Drop)]
pub struct Table {
    saves: ArrayVec<Option<Save>, 32>,
}

impl Model for Table {
    ghost use Rattle.std.specs.Prelude.{List, Option};
    ghost use Rattle.vdr_core.specs.Histories.{Incident};

    ghost Value = { List (Option Incident) };

    ghost view = { λ t. t.saves.items };
}

fn first_free(saves: &[Option<Save>]) -> Option<usize>
    ensures free { result ≡ position is_none saves.now }
    ensures within { IfSome result (λ slot. slot < length saves.now) }
{
    saves.iter().position(|saved| saved.is_none())
}

impl Table {
    /// Reads the first `slots` incident slots, in order, and no others. Takes no memory.
    ///
    /// `Damaged { medium: 1, offset }`: this is where the first slot begins whose gate is open and whose bytes are no legal save.
    /// `Fault`: a read failed, and the count of faults of medium 1 rose. `NoMemory` is never answered.
    pub fn read<M: Media>(media: &mut M, slots: u8) -> Result<Table, PartRefused>
        requires incidents { HasIncidents (M.disk media.old).sizes }
        requires few { slots ≤ 32 }
        ensures table { IfOk result (λ table. M.tells → HoldsTable slots table (content (M.disk media.old).reads 1)) }
        ensures size { IfOk result (λ table. length table ≡ slots) }
        ensures damaged { (m offset : ℕ) → result ≡ Err (Damaged m offset) → (m ≡ 1) × (M.tells → Refuses slots (content (M.disk media.old).reads 1) offset) }
        ensures memory { result ≡ Err NoMemory → ⊥ }
        ensures reads { ReadsTable M.Media slots media.old media.new result }
    {
        let saves = read_slots(media, slots)?;
        Ok(Table { saves })
    }

    // The free slot of least index.
    fn free_slot(&self) -> Option<u8>
        ensures free { result ≡ position is_none self.now }
        ensures within { IfSome result (λ slot. (slot < 32) × (slot < length self.now)) }
    {
        match first_free(self.saves.as_slice()) {
            Some(slot) => Some(slot as u8),
            None => None,
        }
    }

    /// Whether no slot is free.
    pub fn is_full(&self) -> bool
        ensures { IsTrue result ↔ (position is_none self.now ≡ None) }
    {
        self.free_slot().is_none()
    }

    fn put(&mut self, slot: u8, saved: Option<Save>)
        requires { slot < length self.old }
        ensures { self.new ≡ set self.old slot saved }
    {
        self.saves.as_mut_slice()[slot as usize] = saved;
    }

    /// Saves an incident in the free slot of least index, and gives its id, which is that index plus 1. Writes what stands behind
    /// the slot's gate and syncs; then opens the gate, byte 0 of the slot, and syncs. Takes no memory.
    ///
    /// At every moment a stop leaves the table as it was, or with the save, and no byte outside the slot changed; after Ok it has
    /// the save.
    ///
    /// `TableFull`: no slot is free, and nothing was called. `Fault`: a write or a sync failed, and the count of faults of
    /// medium 1 rose. The table is then to be read again before it is used.
    pub fn save<M: Media>(&mut self, media: &mut M, save: &Save) -> Result<u32, TableRefused>
        requires incidents { HasIncidents (M.disk media.old).sizes }
        ensures full { position is_none self.old ≡ None → (result ≡ Err TableFull) × (media.new ≡ media.old) }
        ensures refused { result ≡ Err TableFull → position is_none self.old ≡ None }
        ensures saved { PutsSave self.old self.new save.now result }
        ensures moments { (slots slot : ℕ) → Settled 1 (HoldsTable slots self.old) (M.disk media.old) → position is_none self.old ≡ Some slot
            → ChangesOnly 1 (HoldsEither slot slots self.old (with_slot self.old (suc slot) (Some save.now)) (content (M.disk media.old).reads 1)) (M.disk media.old) (M.disk media.new) }
        ensures settled { (slots slot : ℕ) → Settled 1 (HoldsTable slots self.old) (M.disk media.old) → position is_none self.old ≡ Some slot
            → OnOk result (Settled 1 (HoldsBeside slot slots (with_slot self.old (suc slot) (Some save.now)) (content (M.disk media.old).reads 1)) (M.disk media.new)) }
        ensures writes { WritesUnlessRefused M.Media media.old media.new (result ≡ Err TableFull) (IsErrOf result SaveFault) }
    {
        let Some(slot) = self.free_slot() else {
            return Err(TableRefused::TableFull);
        };
        write_save(media, slot, save)?;
        self.put(slot, Some(save.copy()));
        Ok(slot as u32 + 1)
    }

    // The slot of a live save.
    fn slot_of(&self, id: u32) -> Option<u8>
        ensures found { IfSome result (λ slot. (id ≡ slot + 1) × (slot < 32) × (slot < length self.now)) }
        ensures live { IsSome result ↔ IsSome (live self.now id) }
    {
        let slot = id.checked_sub(1)?;
        match self.saves.as_slice().get(slot as usize) {
            Some(Some(_)) => Some(slot as u8),
            _ => None,
        }
    }

    /// Releases a save: closes the gate of its slot, byte 0, and syncs. Takes no memory.
    ///
    /// At every moment a stop leaves the table as it was, or without the save, and no byte outside the slot changed; after Ok it
    /// is without it.
    ///
    /// `NoSuch`: no live save has this id, and nothing was called. `Fault`: a write or a sync failed, and the count of faults of
    /// medium 1 rose. The table is then to be read again before it is used.
    pub fn release<M: Media>(&mut self, media: &mut M, id: u32) -> Result<(), ReleaseRefused>
        requires incidents { HasIncidents (M.disk media.old).sizes }
        ensures none { live self.old id ≡ None → (result ≡ Err NoSuch) × (media.new ≡ media.old) }
        ensures refused { result ≡ Err NoSuch → live self.old id ≡ None }
        ensures table { OnOk result (self.new ≡ with_slot self.old id None) }
        ensures kept { OnErr result (self.new ≡ self.old) }
        ensures moments { (slots slot : ℕ) (x : Incident) → Settled 1 (HoldsTable slots self.old) (M.disk media.old) → id ≡ suc slot → live self.old id ≡ Some x
            → ChangesOnly 1 (HoldsEither slot slots self.old (with_slot self.old id None) (content (M.disk media.old).reads 1)) (M.disk media.old) (M.disk media.new) }
        ensures settled { (slots slot : ℕ) (x : Incident) → Settled 1 (HoldsTable slots self.old) (M.disk media.old) → id ≡ suc slot → live self.old id ≡ Some x
            → OnOk result (Settled 1 (HoldsBeside slot slots (with_slot self.old id None) (content (M.disk media.old).reads 1)) (M.disk media.new)) }
        ensures writes { WritesUnlessRefused M.Media media.old media.new (result ≡ Err NoSuch) (IsErrOf result ReleaseFault) }
    {
        let Some(slot) = self.slot_of(id) else {
            return Err(ReleaseRefused::NoSuch);
        };
        close_slot(media, slot)?;
        self.put(slot, None);
        Ok(())
    }

    /// The live save of an id. None exactly where there is none; ids begin at 1.
    pub fn live(&self, id: u32) -> Option<&Save>
        ensures { option_copied result ≡ live self.now id }
    {
        let slot = id.checked_sub(1)?;
        self.saves.as_slice().get(slot as usize)?.as_ref()
    }

    /// How many saves are live.
    pub fn count(&self) -> u8
        ensures { result ≡ count_by is_some self.now }
    {
        self.saves
            .as_slice()
            .iter()
            .filter(|saved| saved.is_some())
            .count() as u8
    }
}
