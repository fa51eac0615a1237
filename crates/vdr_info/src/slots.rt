// How many slots of a medium hold a segment, legal or not.
ghost use Rattle.std.specs.Prelude.{◌≡◌, ◌<◌, ◌≤◌, ◌+◌, ◌*◌, ◌↔◌, ℕ, Err, IfOk, IsTrue, if◌then◌else◌};
ghost use Rattle.vdr_outside.specs.Causes.{counted};
ghost use Rattle.vdr_outside.specs.Disk.{Unchanged, content};
ghost use Rattle.vdr_outside.specs.declared.fault.PartRefused.TheVariants.{Damaged};
ghost use Rattle.vdr_segment.specs.Areas.{HasRoom};
ghost use Rattle.vdr_directory.specs.Costs.{ReadsAtMost};
ghost use Rattle.vdr_directory.specs.Opening.{HasFaultCause, front_bytes};
ghost use Rattle.vdr_info.specs.Used.{AreUsed, IsUsed};

use vdr_outside::{Media, PartRefused};
use vdr_segment::{Area, HEADER_SIZE, OPEN_GATE, read_front, read_header};

// Whether the front of a slot is that of a segment.
fn is_segment(front: &[u8; HEADER_SIZE]) -> bool
    ensures { IsTrue result ↔ IsUsed front.now }
{
    if front[0] != OPEN_GATE {
        return false;
    }
    match read_header(front) {
        Some(_) => true,
        None => false,
    }
}

// Whether a slot holds a segment.
fn is_used<M: Media>(media: &mut M, area: Area, slot: u32) -> Result<bool, PartRefused>
    requires room { HasRoom area (M.disk media.old).sizes }
    requires within { slot < area.slots }
    ensures used { IfOk result (λ used. M.tells → IsTrue used ↔ IsUsed (front_bytes area.segment slot (content (M.disk media.old).reads area.medium))) }
    ensures legal { (k offset : ℕ) → result ≡ Err (Damaged k offset) → ⊥ }
    ensures unchanged { Unchanged (M.disk media.old) (M.disk media.new) }
    ensures counts { M.bytes_read media.new ≡ counted (M.bytes_read media.old) area.medium 64 }
    ensures cause { HasFaultCause area.medium (M.faults media.old) (M.faults media.new) result }
{
    let mut front = [0; HEADER_SIZE];
    let Ok(()) = read_front(media, area, slot, &mut front) else {
        return Err(PartRefused::Fault);
    };
    Ok(is_segment(&front))
}

// So many, and one more where this slot holds one.
fn with_slot(used: u32, here: bool) -> u32
    requires { used < 1_000_000 }
    ensures { result ≡ (if here then used + 1 else used) }
{
    if here { used + 1 } else { used }
}

/// How many slots of a medium hold a segment: their gate is open, and a header stands behind it. Reads 64 bytes of each. `Fault`: a read
/// failed, and the count of faults of this medium rose. Nothing else is refused.
pub fn count_used<M: Media>(media: &mut M, area: Area) -> Result<u32, PartRefused>
    requires room { HasRoom area (M.disk media.old).sizes }
    ensures used { IfOk result (λ used. M.tells → AreUsed area.segment (content (M.disk media.old).reads area.medium) area.slots used) }
    ensures few { IfOk result (λ used. used ≤ area.slots) }
    ensures legal { (k offset : ℕ) → result ≡ Err (Damaged k offset) → ⊥ }
    ensures unchanged { Unchanged (M.disk media.old) (M.disk media.new) }
    ensures counts { ReadsAtMost area.medium (64 * area.slots) (M.bytes_read media.old) (M.bytes_read media.new) }
    ensures cause { HasFaultCause area.medium (M.faults media.old) (M.faults media.new) result }
{
    let mut used = 0;
    for slot in 0..area.slots {
        let here = is_used(media, area, slot)?;
        used = with_slot(used, here);
    }
    Ok(used)
}
