// Reading the incident slots of the long-term medium.
//
// Whether the places are on the medium is not asked here: the bytes alone say whether a slot is legal. Bytes of a
// negative stamp are no save.
ghost use Rattle.std.specs.Prelude.{◌≡◌, ◌≤◌, ◌<◌, ℕ, Option, IfOk, OnOk, length, Err};
ghost use Rattle.vdr_core.specs.Histories.{Incident};
ghost use Rattle.vdr_outside.specs.Causes.{HasCauseOn, counted};
ghost use Rattle.vdr_outside.specs.Disk.{Unchanged, content};
ghost use Rattle.vdr_outside.specs.Parts.{part};
ghost use Rattle.vdr_outside.specs.declared.fault.PartRefused.TheVariants.{Damaged, NoMemory};
ghost use Rattle.vdr_incident.specs.Saves.{IsIncidentSlot};
ghost use Rattle.vdr_incident.specs.Tables.{HasIncidents, HoldsTable, Refuses, ReadsSlots, place_of};
ghost use Rattle.vdr_incident.specs.Calls.{HasFaultCause};

use crate::Save;
use crate::save::{SLOT_SIZE, saved_in};
use crate::writing::{LONG_TERM, place_of};
use arrayvec::ArrayVec;
use vdr_outside::{Fault, Media, PartRefused};

fn read_bytes<M: Media>(media: &mut M, slot: u8, into: &mut [u8; SLOT_SIZE]) -> Result<(), Fault>
    requires incidents { HasIncidents (M.disk media.old).sizes }
    requires within { slot < 32 }
    ensures bytes { OnOk result (M.tells → into.new ≡ part (content (M.disk media.old).reads 1) (place_of slot) 256) }
    ensures unchanged { Unchanged (M.disk media.old) (M.disk media.new) }
    ensures counts { M.bytes_read media.new ≡ counted (M.bytes_read media.old) 1 256 }
    ensures cause { HasCauseOn 1 (M.faults media.old) (M.faults media.new) result }
{
    media.read(LONG_TERM, place_of(slot), into)?;
    Ok(())
}

/// Reads one incident slot: its save, None where it is free. Slot i has the save of id i + 1. Takes no memory.
///
/// `Damaged { medium: 1, offset }`: the slot's gate is open and its bytes are no legal save; the offset is where it begins.
/// `Fault`: the read failed, and the count of faults of medium 1 rose. `NoMemory` is never answered.
pub fn read_save<M: Media>(media: &mut M, slot: u8) -> Result<Option<Save>, PartRefused>
    requires incidents { HasIncidents (M.disk media.old).sizes }
    requires within { slot < 32 }
    ensures found { IfOk result (λ saved. M.tells → IsIncidentSlot (part (content (M.disk media.old).reads 1) (place_of slot) 256) saved) }
    ensures damaged { (m offset : ℕ) → result ≡ Err (Damaged m offset) → (m ≡ 1) × (offset ≡ place_of slot)
        × (M.tells → (saved : Option Incident) → IsIncidentSlot (part (content (M.disk media.old).reads 1) (place_of slot) 256) saved → ⊥) }
    ensures memory { result ≡ Err NoMemory → ⊥ }
    ensures unchanged { Unchanged (M.disk media.old) (M.disk media.new) }
    ensures counts { M.bytes_read media.new ≡ counted (M.bytes_read media.old) 1 256 }
    ensures cause { HasFaultCause (M.faults media.old) (M.faults media.new) result }
{
    let mut bytes = [0; SLOT_SIZE];
    let Ok(()) = read_bytes(media, slot, &mut bytes) else {
        return Err(PartRefused::Fault);
    };
    match saved_in(&bytes) {
        Some(saved) => Ok(saved),
        None => Err(PartRefused::Damaged {
            medium: LONG_TERM,
            offset: place_of(slot),
        }),
    }
}

/// Reads so many incident slots, in order.
pub(crate) fn read_slots<M: Media>(
    media: &mut M,
    slots: u8,
) -> Result<ArrayVec<Option<Save>, 32>, PartRefused>
    requires incidents { HasIncidents (M.disk media.old).sizes }
    requires few { slots ≤ 32 }
    ensures found { IfOk result (λ saves. M.tells → HoldsTable slots saves.items (content (M.disk media.old).reads 1)) }
    ensures size { IfOk result (λ saves. length saves.items ≡ slots) }
    ensures damaged { (m offset : ℕ) → result ≡ Err (Damaged m offset) → (m ≡ 1) × (M.tells → Refuses slots (content (M.disk media.old).reads 1) offset) }
    ensures memory { result ≡ Err NoMemory → ⊥ }
    ensures unchanged { Unchanged (M.disk media.old) (M.disk media.new) }
    ensures counts { ReadsSlots slots (M.bytes_read media.old) (M.bytes_read media.new) }
    ensures cause { HasFaultCause (M.faults media.old) (M.faults media.new) result }
{
    let mut saves = ArrayVec::new();
    for slot in 0..slots {
        let saved = read_save(media, slot)?;
        saves.push(saved);
    }
    Ok(saves)
}
