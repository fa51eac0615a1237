// Reading a slot, whole or its front alone.
ghost use Rattle.std.specs.Prelude.{◌≡◌, ◌<◌, length, slice_get, IfOk, OnOk, Some};
ghost use Rattle.vdr_outside.specs.Causes.{HasCauseOn, counted};
ghost use Rattle.vdr_outside.specs.Disk.{Unchanged, content};
ghost use Rattle.vdr_outside.specs.Parts.{part};
ghost use Rattle.vdr_segment.specs.Slots.{place_of};
ghost use Rattle.vdr_segment.specs.Areas.{HasRoom};

use crate::{Area, HEADER_SIZE};
use vdr_outside::{Fault, Media};

/// Reads the first 64 bytes of a slot: its gate, and the header of its segment where the gate is open. Where the read fails,
/// nothing is said of what they are.
pub fn read_front<M: Media>(
    media: &mut M,
    area: Area,
    slot: u32,
    front: &mut [u8; HEADER_SIZE],
) -> Result<(), Fault>
    requires room { HasRoom area (M.disk media.old).sizes }
    requires within { slot < area.slots }
    ensures bytes { OnOk result (M.tells → front.new ≡ part (content (M.disk media.old).reads area.medium) (place_of area.segment slot) 64) }
    ensures unchanged { Unchanged (M.disk media.old) (M.disk media.new) }
    ensures counts { M.bytes_read media.new ≡ counted (M.bytes_read media.old) area.medium 64 }
    ensures cause { HasCauseOn area.medium (M.faults media.old) (M.faults media.new) result }
{
    media.read(area.medium, area.place_of(slot), front)?;
    Ok(())
}

/// Reads a slot whole. Where the read fails, nothing is said of what it is.
pub fn read_slot<M: Media>(
    media: &mut M,
    area: Area,
    slot: u32,
    into: &mut [u8],
) -> Result<(), Fault>
    requires room { HasRoom area (M.disk media.old).sizes }
    requires within { slot < area.slots }
    requires whole { length into.old ≡ area.segment }
    ensures bytes { OnOk result (M.tells → into.new ≡ part (content (M.disk media.old).reads area.medium) (place_of area.segment slot) area.segment) }
    ensures unchanged { Unchanged (M.disk media.old) (M.disk media.new) }
    ensures counts { M.bytes_read media.new ≡ counted (M.bytes_read media.old) area.medium area.segment }
    ensures cause { HasCauseOn area.medium (M.faults media.old) (M.faults media.new) result }
{
    media.read(area.medium, area.place_of(slot), into)?;
    Ok(())
}

/// Reads the gate of the first batch of a slot's segment, behind its header. Where the read fails, nothing is said of what it is.
pub fn read_first_gate<M: Media>(media: &mut M, area: Area, slot: u32) -> Result<u8, Fault>
    requires room { HasRoom area (M.disk media.old).sizes }
    requires within { slot < area.slots }
    ensures gate { IfOk result (λ gate. M.tells
        → slice_get (part (content (M.disk media.old).reads area.medium) (place_of area.segment slot) area.segment) 64 ≡ Some gate) }
    ensures unchanged { Unchanged (M.disk media.old) (M.disk media.new) }
    ensures counts { M.bytes_read media.new ≡ counted (M.bytes_read media.old) area.medium 1 }
    ensures cause { HasCauseOn area.medium (M.faults media.old) (M.faults media.new) result }
{
    let mut gate = [0];
    media.read(
        area.medium,
        area.place_of(slot) + HEADER_SIZE as u64,
        &mut gate,
    )?;
    Ok(gate[0])
}
