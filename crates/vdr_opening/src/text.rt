// The configuration of a medium, and its text.
ghost use Rattle.std.specs.Prelude.{◌≡◌, ◌<◌, ◌≤◌, ◌^◌, ◌↔◌, ℕ, List, length, get_or, Err, Ok, IfOk, IfSome, IsTrue};
ghost use Rattle.vdr_terms.specs.Needs.{Fits};
ghost use Rattle.vdr_bytes.specs.Numbers.{le_u32};
ghost use Rattle.vdr_outside.specs.Causes.{counted};
ghost use Rattle.vdr_outside.specs.Disk.{Unchanged, content};
ghost use Rattle.vdr_outside.specs.Parts.{part};
ghost use Rattle.vdr_outside.specs.declared.fault.PartRefused.TheVariants.{Damaged, Fault};
ghost use Rattle.vdr_config.specs.Configuration.{Configuration};
ghost use Rattle.vdr_config.specs.Grammar.{configuration};
ghost use Rattle.vdr_config.specs.Sizes.{sizes_of};
ghost use Rattle.vdr_directory.specs.Costs.{ReadsAtMost};
ghost use Rattle.vdr_directory.specs.Opening.{HasFaultCause};
ghost use Rattle.vdr_media.specs.Layout.{text_from};
ghost use Rattle.vdr_media.specs.Medium.{HoldsText, IsSuperblock};
ghost use Rattle.vdr_opening.specs.Media.{HasFront, HoldsConfigText};
ghost use Rattle.vdr_opening.specs.Refusals.{IsSameText, RefusesConfiguration};
ghost use Rattle.vdr_opening.specs.Parts.{HasRoomBefore, text_of};

use std::alloc::Global;
use vdr_bytes::u32_at;
use vdr_config::{Config, ConfigBad, LONGEST_TEXT, needed_slots, read_config};
use vdr_media::TEXT_FROM;
use vdr_outside::{Media, PartRefused};
use vdr_terms::slot_count;

// The longest text, in bytes: behind its length it ends where the next part begins.
const LONGEST: u32 = LONGEST_TEXT as u32;

/// The configuration that a medium holds, and its text.
#[derive(Drop)]
pub(crate) struct Configured {
    pub(crate) config: Config,
    pub(crate) text: Vec<u8>,
}

// The configuration of medium m is refused.
fn refused(m: u8) -> PartRefused
    ensures { result ≡ Damaged m text_from }
{
    PartRefused::Damaged {
        medium: m,
        offset: TEXT_FROM,
    }
}

// The number that four bytes are.
fn length_in(bytes: &[u8]) -> u32
    requires { length bytes.now ≡ 4 }
    ensures { bytes.now ≡ le_u32 result }
{
    u32_at(bytes, 0)
}

// How long the text is, in bytes, as the medium says.
fn read_length<M: Media>(media: &mut M, m: u8) -> Result<u32, PartRefused>
    requires { HasRoomBefore m (M.disk media.old).sizes }
    ensures spelled { IfOk result (λ n. M.tells → part (content (M.disk media.old).reads m) text_from 4 ≡ le_u32 n) }
    ensures small { IfOk result (λ n. n < 2 ^ 32) }
    ensures legal { (k offset : ℕ) → result ≡ Err (Damaged k offset) → ⊥ }
    ensures unchanged { Unchanged (M.disk media.old) (M.disk media.new) }
    ensures counts { M.bytes_read media.new ≡ counted (M.bytes_read media.old) m 4 }
    ensures cause { HasFaultCause m (M.faults media.old) (M.faults media.new) result }
{
    let mut bytes = [0; 4];
    media.read(m, TEXT_FROM, &mut bytes)?;
    Ok(length_in(&bytes))
}

// The text. `Damaged`: it is said to be longer than a text may be.
fn read_text<M: Media>(alloc: Global, media: &mut M, m: u8) -> Result<Vec<u8>, PartRefused>
    requires { HasRoomBefore m (M.disk media.old).sizes }
    ensures text { IfOk result (λ text. M.tells → HoldsText text.items (content (M.disk media.old).reads m)) }
    ensures short { IfOk result (λ text. length text.items ≤ 16380) }
    ensures damaged { (k offset : ℕ) → result ≡ Err (Damaged k offset) → (k ≡ m) × (offset ≡ text_from)
        × (M.tells → (text : List ℕ) → length text ≤ 16380 → HoldsText text (content (M.disk media.old).reads m) → ⊥) }
    ensures unchanged { Unchanged (M.disk media.old) (M.disk media.new) }
    ensures counts { ReadsAtMost m 16384 (M.bytes_read media.old) (M.bytes_read media.new) }
    ensures cause { HasFaultCause m (M.faults media.old) (M.faults media.new) result }
{
    let length = read_length(media, m)?;
    if length > LONGEST {
        return Err(refused(m));
    }
    let Ok(mut text) = vec![in alloc; 0; length as usize] else {
        return Err(PartRefused::NoMemory);
    };
    media.read(m, TEXT_FROM + 4, &mut text)?;
    Ok(text)
}

// The configuration that the text of medium m is, which has to be that of the medium before, where there is one.
fn configured_by(
    alloc: Global,
    m: u8,
    text: Vec<u8>,
    before: Option<Configured>,
) -> Result<Configured, PartRefused>
    requires { IfSome before (λ first. configuration first.text.items ≡ Ok first.config) }
    ensures text { IfOk result (λ c. c.text.items ≡ text.items) }
    ensures reads { IfOk result (λ c. configuration c.text.items ≡ Ok c.config) }
    ensures same { IfOk result (λ c. IfSome before (λ first. c ≡ first)) }
    ensures damaged { (k offset : ℕ) → result ≡ Err (Damaged k offset) → (k ≡ m) × (offset ≡ text_from)
        × ((config : Configuration) → configuration text.items ≡ Ok config → IsSameText (text_of before) text.items → ⊥) }
    ensures fault { result ≡ Err Fault → ⊥ }
{
    if let Some(first) = before {
        if text.as_slice() != first.text.as_slice() {
            return Err(refused(m));
        }
        return Ok(first);
    }
    match read_config(alloc, &text) {
        Ok(config) => Ok(Configured { config, text }),
        Err(ConfigBad::NoMemory) => Err(PartRefused::NoMemory),
        Err(_) => Err(refused(m)),
    }
}

// Whether a configuration goes with medium m, of so many bytes: its segment is that of the superblock, and the medium has the slots
// that it needs.
fn goes_with(config: &Config, m: u8, segment: u32, size: u64) -> bool
    ensures { IsTrue result ↔ ((config.now.segment ≡ segment) × Fits (sizes_of config.now) m size) }
{
    config.segment == segment && needed_slots(config, m) <= slot_count(config.segment, size) as u64
}

/// The configuration of medium m, and its text, where the superblock says this segment size. `Damaged`: it is none, or
/// not that of the medium before, or it does not go with the medium.
pub(crate) fn read_configuration<M: Media>(
    alloc: Global,
    media: &mut M,
    m: u8,
    segment: u32,
    before: Option<Configured>,
) -> Result<Configured, PartRefused>
    requires room { HasRoomBefore m (M.disk media.old).sizes }
    requires few { m < 2 }
    requires superblock { M.tells → IsSuperblock m segment (content (M.disk media.old).reads m) }
    requires before { IfSome before (λ first. configuration first.text.items ≡ Ok first.config) }
    ensures front { IfOk result (λ c. M.tells → HasFront m c.config c.text.items (content (M.disk media.old).reads m)) }
    ensures reads { IfOk result (λ c. configuration c.text.items ≡ Ok c.config) }
    ensures fits { IfOk result (λ c. Fits (sizes_of c.config) m (get_or (M.disk media.old).sizes m 0)) }
    ensures same { IfOk result (λ c. IfSome before (λ first. c ≡ first)) }
    ensures damaged { (k offset : ℕ) → result ≡ Err (Damaged k offset) → (k ≡ m)
        × (M.tells → RefusesConfiguration m (text_of before) (content (M.disk media.old).reads m) offset) }
    ensures unchanged { Unchanged (M.disk media.old) (M.disk media.new) }
    ensures counts { ReadsAtMost m 16384 (M.bytes_read media.old) (M.bytes_read media.new) }
    ensures cause { HasFaultCause m (M.faults media.old) (M.faults media.new) result }
{
    let text = read_text(alloc, media, m)?;
    let configured = configured_by(alloc, m, text, before)?;
    if !goes_with(&configured.config, m, segment, media.size(m)) {
        return Err(refused(m));
    }
    Ok(configured)
}

/// The configuration whose text medium m holds, whether or not it goes with the medium. Reads at most 16,384 bytes.
///
/// `Damaged { medium: m, offset: 12288 }`: it holds the text of none. `Fault`: a read failed, and the count of faults of this
/// medium rose. `NoMemory`: there was none for the text or the configuration.
pub fn read_config_of<M: Media>(alloc: Global, media: &mut M, m: u8) -> Result<Config, PartRefused>
    requires room { HasRoomBefore m (M.disk media.old).sizes }
    ensures config { IfOk result (λ c. M.tells → HoldsConfigText c (content (M.disk media.old).reads m)) }
    ensures damaged { (k offset : ℕ) → result ≡ Err (Damaged k offset) → (k ≡ m) × (offset ≡ text_from)
        × (M.tells → (c : Configuration) → HoldsConfigText c (content (M.disk media.old).reads m) → ⊥) }
    ensures unchanged { Unchanged (M.disk media.old) (M.disk media.new) }
    ensures counts { ReadsAtMost m 16384 (M.bytes_read media.old) (M.bytes_read media.new) }
    ensures cause { HasFaultCause m (M.faults media.old) (M.faults media.new) result }
{
    let text = read_text(alloc, media, m)?;
    let configured = configured_by(alloc, m, text, None)?;
    Ok(configured.config)
}
