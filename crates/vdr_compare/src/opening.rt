// Both media, each opened alone and read to its end.
ghost use Rattle.std.specs.Prelude.{◌≡◌, ◌<◌, ◌≤◌, ℕ, length, Err, IfOk};
ghost use Rattle.vdr_outside.specs.Disk.{Unchanged, content};
ghost use Rattle.vdr_outside.specs.declared.fault.PartRefused.TheVariants.{Damaged};
ghost use Rattle.vdr_directory.specs.Opening.{HasFaultCause};
ghost use Rattle.vdr_media.specs.Medium.{HoldsText};
ghost use Rattle.vdr_rescue.specs.Alones.{IsAloneOn, RefusesAlone, Rescue, Rescued};
ghost use Rattle.vdr_compare.specs.Openings.{AreAlike, HasPartCause, HasSurvey, IsOpened};
ghost use Rattle.vdr_compare.specs.Surveys.{IsSurveyOf};

use crate::survey::{Survey, survey_alone};
use std::alloc::Global;
use vdr_info::read_text;
use vdr_outside::{Media, PartRefused};
use vdr_rescue::Alone;

// Opens medium m alone, and reads the text of its configuration.
fn open_with_text<M: Media>(
    alloc: Global,
    media: &mut M,
    m: u8,
) -> Result<(Alone, Vec<u8>), PartRefused>
    requires there { m < length (M.disk media.old).sizes }
    requires few { m < 2 }
    ensures opened { IfOk result (λ x. IsOpened m (M.disk media.old).sizes x.0) }
    ensures alone { IfOk result (λ x. M.tells → IsAloneOn m (content (M.disk media.old).reads m) x.0) }
    ensures text { IfOk result (λ x. M.tells → HoldsText x.1.items (content (M.disk media.old).reads m)) }
    ensures damaged { (k offset : ℕ) → result ≡ Err (Damaged k offset) → (k ≡ m) × (M.tells → RefusesAlone m (content (M.disk media.old).reads m) offset) }
    ensures unchanged { Unchanged (M.disk media.old) (M.disk media.new) }
    ensures cause { HasFaultCause m (M.faults media.old) (M.faults media.new) result }
{
    let alone = Alone::open(alloc, media, m)?;
    let text = read_text(alloc, media, m)?;
    Ok((alone, text))
}

// Both media, each opened alone: the capsule, the long-term medium, and whether the texts of their configurations are the same.
// `Damaged`, want of memory and `Fault` as `Alone::open` says them, of the capsule first.
fn open_both<M: Media>(alloc: Global, media: &mut M) -> Result<(Alone, Alone, bool), PartRefused>
    requires two { 2 ≤ length (M.disk media.old).sizes }
    ensures opened { IfOk result (λ x. IsOpened 0 (M.disk media.old).sizes x.0 × IsOpened 1 (M.disk media.old).sizes x.1) }
    ensures capsule { IfOk result (λ x. M.tells → IsAloneOn 0 (content (M.disk media.old).reads 0) x.0) }
    ensures longterm { IfOk result (λ x. M.tells → IsAloneOn 1 (content (M.disk media.old).reads 1) x.1) }
    ensures alike { IfOk result (λ x. M.tells → AreAlike (content (M.disk media.old).reads 0) (content (M.disk media.old).reads 1) x.2) }
    ensures damaged { (k offset : ℕ) → result ≡ Err (Damaged k offset) → M.tells → (k < 2) × RefusesAlone k (content (M.disk media.old).reads k) offset }
    ensures unchanged { Unchanged (M.disk media.old) (M.disk media.new) }
    ensures cause { HasPartCause (M.faults media.old) (M.faults media.new) result }
{
    let (capsule, capsule_text) = open_with_text(alloc, media, 0)?;
    let (longterm, longterm_text) = open_with_text(alloc, media, 1)?;
    let alike = capsule_text.as_slice() == longterm_text.as_slice();
    Ok((capsule, longterm, alike))
}

/// Both media, each opened alone and read to its end, the capsule first, and whether the texts of their configurations are the same.
/// `Damaged`, want of memory and `Fault` as `Alone::open` says them; want of memory for what is found, and `Fault`, of reading too.
pub(crate) fn read_both<M: Media>(
    alloc: Global,
    media: &mut M,
) -> Result<(Survey, Survey, bool), PartRefused>
    requires two { 2 ≤ length (M.disk media.old).sizes }
    ensures capsule { IfOk result (λ x. HasSurvey 0 (M.disk media.old).sizes x.0) }
    ensures longterm { IfOk result (λ x. HasSurvey 1 (M.disk media.old).sizes x.1) }
    ensures surveyed { IfOk result (λ x. M.tells → (y z : Rescue) → Rescued 0 (content (M.disk media.old).reads 0) y → Rescued 1 (content (M.disk media.old).reads 1) z
        → IsSurveyOf 0 (content (M.disk media.old).reads 0) y x.0 × IsSurveyOf 1 (content (M.disk media.old).reads 1) z x.1) }
    ensures alike { IfOk result (λ x. M.tells → AreAlike (content (M.disk media.old).reads 0) (content (M.disk media.old).reads 1) x.2) }
    ensures damaged { (k offset : ℕ) → result ≡ Err (Damaged k offset) → M.tells → (k < 2) × RefusesAlone k (content (M.disk media.old).reads k) offset }
    ensures unchanged { Unchanged (M.disk media.old) (M.disk media.new) }
    ensures cause { HasPartCause (M.faults media.old) (M.faults media.new) result }
{
    let (capsule, longterm, alike) = open_both(alloc, media)?;
    let first = survey_alone(alloc, capsule, media)?;
    let second = survey_alone(alloc, longterm, media)?;
    Ok((first, second, alike))
}
