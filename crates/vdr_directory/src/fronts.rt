// What the fronts of a medium's slots tell: which are open, and their headers.
ghost use Rattle.std.specs.Prelude.{◌≡◌, ◌++◌, ◌<◌, ◌*◌, ℕ, Option, IfOk, OnOk, map};
ghost use Rattle.vdr_outside.specs.Causes.{counted};
ghost use Rattle.vdr_outside.specs.Disk.{Unchanged, content};
ghost use Rattle.vdr_outside.specs.declared.fault.PartRefused.TheVariants.{Damaged};
ghost use Rattle.vdr_segment.specs.declared.header.Header.{Header as AHeader};
ghost use Rattle.vdr_segment.specs.Areas.{HasRoom};
ghost use Rattle.vdr_segment.specs.Slots.{IsFront, place_of};
ghost use Rattle.vdr_directory.specs.Entries.{slot_of};
ghost use Rattle.vdr_directory.specs.Opening.{HasFaultCause, RefusesHeader, front_bytes};
ghost use Rattle.vdr_directory.specs.Costs.{ReadsAtMost};
ghost use Rattle.vdr_directory.specs.Fronts.{AreSlots, Ascends, TellFronts, opened_by};

use crate::entry::Entry;
use std::alloc::{AllocError, Global};
use vdr_outside::{Media, PartRefused};
use vdr_segment::{Area, HEADER_SIZE, Header, OPEN_GATE, read_front, read_header};

// Adds a slot with this header, if it is open.
fn add(opened: &mut Vec<Entry>, slot: u32, front: Option<Header>) -> Result<(), AllocError>
    ensures { OnOk result (opened.new.items ≡ opened.old.items ++ opened_by slot front) }
{
    let Some(header) = front else {
        return Ok(());
    };
    opened.push(Entry {
        slot,
        seq: header.seq,
        first: header.first,
        summary: header.summary,
        survey: None,
    })?;
    Ok(())
}

// The header of a slot's segment, None where the slot's gate is closed.
fn header_in<M: Media>(media: &mut M, area: Area, slot: u32) -> Result<Option<Header>, PartRefused>
    requires room { HasRoom area (M.disk media.old).sizes }
    requires within { slot < area.slots }
    ensures front { IfOk result (λ front. M.tells → IsFront (front_bytes area.segment slot (content (M.disk media.old).reads area.medium)) front) }
    ensures damaged { (k offset : ℕ) → result ≡ Err (Damaged k offset) → (k ≡ area.medium) × (offset ≡ place_of area.segment slot)
        × (M.tells → (front : Option AHeader) → IsFront (front_bytes area.segment slot (content (M.disk media.old).reads area.medium)) front → ⊥) }
    ensures unchanged { Unchanged (M.disk media.old) (M.disk media.new) }
    ensures counts { M.bytes_read media.new ≡ counted (M.bytes_read media.old) area.medium 64 }
    ensures cause { HasFaultCause area.medium (M.faults media.old) (M.faults media.new) result }
{
    let mut bytes = [0; HEADER_SIZE];
    let Ok(()) = read_front(media, area, slot, &mut bytes) else {
        return Err(PartRefused::Fault);
    };
    if bytes[0] != OPEN_GATE {
        return Ok(None);
    }
    match read_header(&bytes) {
        Some(header) => Ok(Some(header)),
        None => Err(PartRefused::Damaged {
            medium: area.medium,
            offset: area.place_of(slot),
        }),
    }
}

// Reads the fronts of all slots, and answers the open ones, in order.
pub(crate) fn read_fronts<M: Media>(
    alloc: Global,
    media: &mut M,
    area: Area,
) -> Result<Vec<Entry>, PartRefused>
    requires { HasRoom area (M.disk media.old).sizes }
    ensures slots { IfOk result (λ opened. AreSlots area.slots opened.items) }
    ensures ascends { IfOk result (λ opened. Ascends (map slot_of opened.items)) }
    ensures told { IfOk result (λ opened. M.tells → TellFronts area.segment area.slots (content (M.disk media.old).reads area.medium) opened.items) }
    ensures damaged { (k offset : ℕ) → result ≡ Err (Damaged k offset) → (k ≡ area.medium)
        × (M.tells → RefusesHeader area.segment area.slots (content (M.disk media.old).reads area.medium) offset) }
    ensures unchanged { Unchanged (M.disk media.old) (M.disk media.new) }
    ensures counts { ReadsAtMost area.medium (64 * area.slots) (M.bytes_read media.old) (M.bytes_read media.new) }
    ensures cause { HasFaultCause area.medium (M.faults media.old) (M.faults media.new) result }
{
    let Ok(mut opened) = Vec::with_capacity(alloc, area.slots as usize) else {
        return Err(PartRefused::NoMemory);
    };
    for slot in 0..area.slots {
        let header = header_in(media, area, slot)?;
        let Ok(()) = add(&mut opened, slot, header) else {
            return Err(PartRefused::NoMemory);
        };
    }
    Ok(opened)
}
