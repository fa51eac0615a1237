// The text of a configuration, as a medium holds it.
ghost use Rattle.std.specs.Prelude.{◌≡◌, ◌<◌, ◌≤◌, ◌^◌, ℕ, List, length, get_or, Err, IfOk};
ghost use Rattle.vdr_bytes.specs.Numbers.{le_u32};
ghost use Rattle.vdr_outside.specs.Causes.{counted};
ghost use Rattle.vdr_outside.specs.Disk.{Unchanged, content};
ghost use Rattle.vdr_outside.specs.Parts.{part};
ghost use Rattle.vdr_outside.specs.declared.fault.PartRefused.TheVariants.{Damaged};
ghost use Rattle.vdr_directory.specs.Costs.{ReadsAtMost};
ghost use Rattle.vdr_directory.specs.Opening.{HasFaultCause};
ghost use Rattle.vdr_media.specs.Layout.{text_from};
ghost use Rattle.vdr_media.specs.Medium.{HoldsText};
ghost use Rattle.vdr_opening.specs.Parts.{HasRoomBefore};

use std::alloc::Global;
use vdr_bytes::u32_at;
use vdr_config::LONGEST_TEXT;
use vdr_media::TEXT_FROM;
use vdr_outside::{Media, PartRefused};

// The longest text, in bytes.
const LONGEST: u32 = LONGEST_TEXT as u32;

// The number that four bytes are.
fn length_in(bytes: &[u8]) -> u32
    requires { length bytes.now ≡ 4 }
    ensures { bytes.now ≡ le_u32 result }
{
    u32_at(bytes, 0)
}

// How long the text is, in bytes, as the medium says.
fn read_length<M: Media>(media: &mut M, m: u8) -> Result<u32, PartRefused>
    requires { HasRoomBefore m (M.disk media.old).sizes }
    ensures spelled { IfOk result (λ n. M.tells → part (content (M.disk media.old).reads m) text_from 4 ≡ le_u32 n) }
    ensures small { IfOk result (λ n. n < 2 ^ 32) }
    ensures legal { (k offset : ℕ) → result ≡ Err (Damaged k offset) → ⊥ }
    ensures unchanged { Unchanged (M.disk media.old) (M.disk media.new) }
    ensures counts { M.bytes_read media.new ≡ counted (M.bytes_read media.old) m 4 }
    ensures cause { HasFaultCause m (M.faults media.old) (M.faults media.new) result }
{
    let mut bytes = [0; 4];
    media.read(m, TEXT_FROM, &mut bytes)?;
    Ok(length_in(&bytes))
}

/// Reads the text of the configuration that medium m holds, at most 16,380 bytes, and the four bytes that say how many. Whether it is
/// one is not asked.
///
/// `Damaged { medium: m, offset: 12288 }`: it is said to be longer. `NoMemory`: there was none for the text. `Fault`: a read failed, and
/// the count of faults of this medium rose.
pub fn read_text<M: Media>(alloc: Global, media: &mut M, m: u8) -> Result<Vec<u8>, PartRefused>
    requires { HasRoomBefore m (M.disk media.old).sizes }
    ensures text { IfOk result (λ text. M.tells → HoldsText text.items (content (M.disk media.old).reads m)) }
    ensures short { IfOk result (λ text. length text.items ≤ 16380) }
    ensures damaged { (k offset : ℕ) → result ≡ Err (Damaged k offset) → (k ≡ m) × (offset ≡ text_from)
        × (M.tells → (text : List ℕ) → length text ≤ 16380 → HoldsText text (content (M.disk media.old).reads m) → ⊥) }
    ensures unchanged { Unchanged (M.disk media.old) (M.disk media.new) }
    ensures counts { ReadsAtMost m 16384 (M.bytes_read media.old) (M.bytes_read media.new) }
    ensures cause { HasFaultCause m (M.faults media.old) (M.faults media.new) result }
{
    let length = read_length(media, m)?;
    if length > LONGEST {
        return Err(PartRefused::Damaged {
            medium: m,
            offset: TEXT_FROM,
        });
    }
    let Ok(mut text) = vec![in alloc; 0; length as usize] else {
        return Err(PartRefused::NoMemory);
    };
    media.read(m, TEXT_FROM + 4, &mut text)?;
    Ok(text)
}
