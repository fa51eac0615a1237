// Copying segments whole from slots of one medium into the first slots of another. Nothing is synced.
ghost use Rattle.std.specs.Prelude.{◌≡◌, ◌≢◌, ◌<◌, ◌≤◌, [], ◌∷◌, ℕ, List, length, replicate, All, OnOk, None, Ok, Err};
ghost use Rattle.vdr_outside.specs.Causes.{HasCauseOn};
ghost use Rattle.vdr_outside.specs.Disk.{Unchanged, content, over};
ghost use Rattle.vdr_segment.specs.Areas.{HasRoom};
ghost use Rattle.vdr_segment.specs.Slots.{HoldsSlots, SameFront, place_of};
ghost use Rattle.vdr_media.specs.Writing.{WritesBehindGate};
ghost use Rattle.vdr_directory.specs.Opening.{slot_bytes};
ghost use Rattle.vdr_directory.specs.Sequence.{Placed};
ghost use Rattle.vdr_ring.specs.Damage.{HasDamage};
ghost use Rattle.vdr_ring.specs.declared.refused.ReadRefused.TheVariants.{Fault as AFault, Damaged};
ghost use Rattle.vdr_remake.specs.Causes.{RoseAmong};
ghost use Rattle.vdr_remake.specs.Copies.{Hold, filled};

use vdr_directory::Entry;
use vdr_outside::{Fault, Media};
use vdr_ring::{ReadRefused, first_damage};
use vdr_segment::{Area, read_slot};

// Writes the bytes of a whole slot, without a sync.
fn put_slot<M: Media>(media: &mut M, area: Area, slot: u32, bytes: &[u8]) -> Result<(), Fault>
    requires room { HasRoom area (M.disk media.old).sizes }
    requires within { slot < area.slots }
    requires whole { length bytes.now ≡ area.segment }
    ensures writes { WritesBehindGate area.medium (M.disk media.old) (M.disk media.new) }
    ensures reads { OnOk result (M.tells → content (M.disk media.new).reads area.medium
        ≡ over (content (M.disk media.old).reads area.medium) (place_of area.segment slot) bytes.now) }
    ensures front { M.tells → SameFront (content (M.disk media.old).reads area.medium) (content (M.disk media.new).reads area.medium) }
    ensures cause { HasCauseOn area.medium (M.faults media.old) (M.faults media.new) result }
{
    media.write(area.medium, area.place_of(slot), bytes)?;
    Ok(())
}

// Reads a slot whole, and judges it.
fn take_slot<M: Media>(
    media: &mut M,
    area: Area,
    slot: u32,
    buffer: &mut [u8],
) -> Result<(), ReadRefused>
    requires room { HasRoom area (M.disk media.old).sizes }
    requires within { slot < area.slots }
    requires whole { length buffer.old ≡ area.segment }
    ensures bytes { OnOk result (M.tells → buffer.new ≡ slot_bytes area.segment slot (content (M.disk media.old).reads area.medium)) }
    ensures damaged { (m offset : ℕ) → result ≡ Err (Damaged m offset) → (m ≡ area.medium)
        × (M.tells → HasDamage area.segment area.slots (content (M.disk media.old).reads area.medium) offset) }
    ensures unchanged { Unchanged (M.disk media.old) (M.disk media.new) }
    ensures cause { RoseAmong (area.medium ∷ []) (M.faults media.old) (M.faults media.new) (result ≡ Err AFault) }
{
    read_slot(media, area, slot, buffer)?;
    match first_damage(buffer) {
        None => Ok(()),
        Some(at) => Err(ReadRefused::Damaged {
            medium: area.medium,
            offset: area.place_of(slot) + at as u64,
        }),
    }
}

// Copies the segment in a slot of one medium into a slot of another.
fn copy_slot<M: Media>(
    media: &mut M,
    from: Area,
    slot: u32,
    to: Area,
    into: u32,
    buffer: &mut [u8],
) -> Result<(), ReadRefused>
    requires from_room { HasRoom from (M.disk media.old).sizes }
    requires to_room { HasRoom to (M.disk media.old).sizes }
    requires from_within { slot < from.slots }
    requires to_within { into < to.slots }
    requires alike { to.segment ≡ from.segment }
    requires whole { length buffer.old ≡ from.segment }
    ensures writes { WritesBehindGate to.medium (M.disk media.old) (M.disk media.new) }
    ensures reads { OnOk result (M.tells → content (M.disk media.new).reads to.medium
        ≡ over (content (M.disk media.old).reads to.medium) (place_of to.segment into) (slot_bytes from.segment slot (content (M.disk media.old).reads from.medium))) }
    ensures front { M.tells → SameFront (content (M.disk media.old).reads to.medium) (content (M.disk media.new).reads to.medium) }
    ensures damaged { (m offset : ℕ) → result ≡ Err (Damaged m offset) → (m ≡ from.medium)
        × (M.tells → HasDamage from.segment from.slots (content (M.disk media.old).reads from.medium) offset) }
    ensures cause { RoseAmong (from.medium ∷ to.medium ∷ []) (M.faults media.old) (M.faults media.new) (result ≡ Err AFault) }
{
    take_slot(media, from, slot, buffer)?;
    put_slot(media, to, into, buffer)?;
    Ok(())
}

// Copies the segments in the slots of these entries into the first slots of another medium, in their order.
pub(crate) fn copy_all<M: Media>(
    media: &mut M,
    from: Area,
    to: Area,
    entries: &[Entry],
    buffer: &mut [u8],
) -> Result<(), ReadRefused>
    requires apart { from.medium ≢ to.medium }
    requires from_room { HasRoom from (M.disk media.old).sizes }
    requires to_room { HasRoom to (M.disk media.old).sizes }
    requires from_within { All (λ e. e.slot < from.slots) entries.now }
    requires to_within { length entries.now ≤ to.slots }
    requires alike { to.segment ≡ from.segment }
    requires whole { length buffer.old ≡ from.segment }
    ensures writes { WritesBehindGate to.medium (M.disk media.old) (M.disk media.new) }
    ensures copied { OnOk result (M.tells → (placed : List Placed) → Hold from.segment (content (M.disk media.old).reads from.medium) entries.now placed
        → HoldsSlots to.segment (replicate to.slots None) (content (M.disk media.old).reads to.medium)
        → HoldsSlots to.segment (filled to.slots placed) (content (M.disk media.new).reads to.medium)) }
    ensures front { M.tells → SameFront (content (M.disk media.old).reads to.medium) (content (M.disk media.new).reads to.medium) }
    ensures damaged { (m offset : ℕ) → result ≡ Err (Damaged m offset) → (m ≡ from.medium)
        × (M.tells → HasDamage from.segment from.slots (content (M.disk media.old).reads from.medium) offset) }
    ensures cause { RoseAmong (from.medium ∷ to.medium ∷ []) (M.faults media.old) (M.faults media.new) (result ≡ Err AFault) }
{
    for (i, entry) in entries.iter().enumerate() {
        copy_slot(media, from, entry.slot, to, i as u32, buffer)?;
    }
    Ok(())
}
