// The incident slots of one medium alone: those that are legal, and where the others are.
ghost use Rattle.std.specs.Prelude.{◌≡◌, ◌≤◌, ◌<◌, ◌*◌, ◌++◌, length, IfOk, option_copied};
ghost use Rattle.vdr_core.specs.Histories.{live};
ghost use Rattle.vdr_outside.specs.Causes.{HasCauseOn};
ghost use Rattle.vdr_outside.specs.Disk.{Unchanged, content};
ghost use Rattle.vdr_outside.specs.Parts.{part};
ghost use Rattle.vdr_directory.specs.Costs.{ReadsAtMost};
ghost use Rattle.vdr_incident.specs.Tables.{HasIncidents, place_of};
ghost use Rattle.vdr_rescue.specs.Saves.{AreSaves, ShowsSave, no_saves, pin_in, with_save};
ghost use Rattle.vdr_rescue.specs.Lacking.{as_list};

use crate::Places;
use arrayvec::ArrayVec;
use std::marker::Model;
use vdr_incident::{Save, read_save};
use vdr_outside::{Fault, Media, PartRefused};
use vdr_terms::{INCIDENT_SIZE, INCIDENTS_FROM};

/// The saves by their slots, None where a slot is free or is not legal; the places of the live ones; and where slots begin
/// that are not legal.
#[derive(Drop)]
pub(crate) struct Saves {
    table: ArrayVec<Option<Save>, 32>,
    pins: ArrayVec<Places, 32>,
    bad: ArrayVec<u64, 32>,
}

impl Model for Saves {
    ghost use Rattle.vdr_rescue.specs.Saves.{SavesState};

    ghost Value = { SavesState };

    ghost view = { λ s. record { table = s.table.items; pins = s.pins.items; bad = s.bad.items } };
}

// The places of a save, where the slot has one.
fn pin_in(saved: &Option<Save>) -> Option<Places>
    ensures { as_list result ≡ pin_in saved.now }
{
    let save = saved.as_ref()?;
    Some(Places {
        a: save.a,
        b: save.b,
    })
}

impl Saves {
    /// Of no slot.
    pub(crate) fn new() -> Saves
        ensures { result ≡ no_saves }
    {
        Saves {
            table: ArrayVec::new(),
            pins: ArrayVec::new(),
            bad: ArrayVec::new(),
        }
    }

    fn add_pin(&mut self, pin: Option<Places>)
        requires { length self.old.pins < 32 }
        ensures { self.new ≡ record self.old { pins = self.old.pins ++ as_list pin } }
    {
        if let Some(pin) = pin {
            self.pins.push(pin);
        }
    }

    // Adds what one more slot shows.
    fn add(&mut self, slot: u8, shown: Option<Option<Save>>)
        requires table { length self.old.table < 32 }
        requires pins { length self.old.pins < 32 }
        requires bad { length self.old.bad < 32 }
        ensures { self.new ≡ with_save slot shown self.old }
    {
        let Some(saved) = shown else {
            self.table.push(None);
            self.bad.push(INCIDENTS_FROM + slot as u64 * INCIDENT_SIZE);
            return;
        };
        self.add_pin(pin_in(&saved));
        self.table.push(saved);
    }

    /// The live save of an id. Ids begin at 1.
    pub(crate) fn live(&self, id: u32) -> Option<&Save>
        ensures { option_copied result ≡ live self.now.table id }
    {
        let slot = id.checked_sub(1)?;
        self.table.as_slice().get(slot as usize)?.as_ref()
    }

    /// The places of the live saves, in order of slot.
    pub(crate) fn pins(&self) -> &[Places]
        ensures { result.now ≡ self.now.pins }
    {
        self.pins.as_slice()
    }

    /// Where slots begin that are not legal, in bytes.
    pub(crate) fn bad(&self) -> &[u64]
        ensures { result.now ≡ self.now.bad }
    {
        self.bad.as_slice()
    }
}

// What one slot holds. None where it is not legal.
fn read_shown<M: Media>(media: &mut M, slot: u8) -> Result<Option<Option<Save>>, Fault>
    requires incidents { HasIncidents (M.disk media.old).sizes }
    requires within { slot < 32 }
    ensures shown { IfOk result (λ shown. M.tells → ShowsSave (part (content (M.disk media.old).reads 1) (place_of slot) 256) shown) }
    ensures unchanged { Unchanged (M.disk media.old) (M.disk media.new) }
    ensures counts { ReadsAtMost 1 256 (M.bytes_read media.old) (M.bytes_read media.new) }
    ensures cause { HasCauseOn 1 (M.faults media.old) (M.faults media.new) result }
{
    match read_save(media, slot) {
        Ok(saved) => Ok(Some(saved)),
        Err(PartRefused::Damaged { .. }) => Ok(None),
        Err(PartRefused::Fault | PartRefused::NoMemory) => Err(Fault),
    }
}

/// Reads so many incident slots of the long-term medium. Takes no memory. `Fault`: a read failed, and the count of faults of
/// medium 1 rose.
pub(crate) fn read_saves<M: Media>(media: &mut M, slots: u8) -> Result<Saves, Fault>
    requires incidents { HasIncidents (M.disk media.old).sizes }
    requires few { slots ≤ 32 }
    ensures saves { IfOk result (λ saves. M.tells → AreSaves (content (M.disk media.old).reads 1) slots saves) }
    ensures unchanged { Unchanged (M.disk media.old) (M.disk media.new) }
    ensures counts { ReadsAtMost 1 (256 * slots) (M.bytes_read media.old) (M.bytes_read media.new) }
    ensures cause { HasCauseOn 1 (M.faults media.old) (M.faults media.new) result }
{
    let mut saves = Saves::new();
    for slot in 0..slots {
        let shown = read_shown(media, slot)?;
        saves.add(slot, shown);
    }
    Ok(saves)
}
