// The superblock of a medium.
ghost use Rattle.std.specs.Prelude.{◌≡◌, ◌<◌, ◌≤◌, ℕ, length, get_or, drop, Err, IfOk, IfSome, IfNone};
ghost use Rattle.vdr_outside.specs.Disk.{Unchanged, content};
ghost use Rattle.vdr_outside.specs.declared.fault.PartRefused.TheVariants.{Damaged};
ghost use Rattle.vdr_directory.specs.Costs.{ReadsAtMost};
ghost use Rattle.vdr_directory.specs.Opening.{HasFaultCause};
ghost use Rattle.vdr_media.specs.Medium.{IsSuperblock};
ghost use Rattle.vdr_opening.specs.Refusals.{RefusesSuperblock};
ghost use Rattle.vdr_opening.specs.Parts.{SaysSegment};

use vdr_bytes::u32_at;
use vdr_media::superblock_bytes;
use vdr_outside::{Media, PartRefused};
use vdr_segment::OPEN_GATE;
use vdr_terms::{SLOTS_FROM, slot_count};

// The gate and the fields; what stands behind them is unread.
const SUPERBLOCK_SIZE: usize = 23;

// Where the size of a segment stands.
const SEGMENT_AT: usize = 15;

// A segment has so many bytes.
const SEGMENT_LOW: u32 = 8_192;

const SEGMENT_HIGH: u32 = 16_777_216;

// The segment size that the superblock of medium m says, where the medium has so many bytes. None where it is not legal.
fn segment_in(bytes: &[u8], m: u8, size: u64) -> Option<u32>
    requires { length bytes.now ≡ 23 }
    ensures some { IfSome result (λ segment. SaysSegment m size segment bytes.now) }
    ensures none { IfNone result ((segment : ℕ) → SaysSegment m size segment bytes.now → ⊥) }
{
    let segment = u32_at(bytes, SEGMENT_AT);
    if bytes[0] != OPEN_GATE || segment < SEGMENT_LOW || segment > SEGMENT_HIGH {
        return None;
    }
    let legal = superblock_bytes(m, size, segment, slot_count(segment, size));
    if &bytes[1..] != legal.as_slice() {
        return None;
    }
    Some(segment)
}

/// The segment size that the superblock of medium m says, in bytes. `Damaged`: the superblock is not legal.
pub(crate) fn read_superblock<M: Media>(media: &mut M, m: u8) -> Result<u32, PartRefused>
    requires { m < length (M.disk media.old).sizes }
    ensures legal { IfOk result (λ segment. M.tells → IsSuperblock m segment (content (M.disk media.old).reads m)) }
    ensures room { IfOk result (λ segment. 32768 ≤ get_or (M.disk media.old).sizes m 0) }
    ensures damaged { (k offset : ℕ) → result ≡ Err (Damaged k offset) → (k ≡ m)
        × (M.tells → RefusesSuperblock m (content (M.disk media.old).reads m) offset) }
    ensures unchanged { Unchanged (M.disk media.old) (M.disk media.new) }
    ensures counts { ReadsAtMost m 23 (M.bytes_read media.old) (M.bytes_read media.new) }
    ensures cause { HasFaultCause m (M.faults media.old) (M.faults media.new) result }
{
    let size = media.size(m);
    if size < SLOTS_FROM {
        return Err(PartRefused::Damaged {
            medium: m,
            offset: 0,
        });
    }
    let mut bytes = [0; SUPERBLOCK_SIZE];
    media.read(m, 0, &mut bytes)?;
    match segment_in(&bytes, m, size) {
        Some(segment) => Ok(segment),
        None => Err(PartRefused::Damaged {
            medium: m,
            offset: 0,
        }),
    }
}
