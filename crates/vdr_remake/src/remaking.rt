// Making a medium anew from another.
ghost use Rattle.std.specs.Prelude.{◌≡◌, ◌≢◌, ◌⊎◌, ◌+◌, ◌*◌, ◌<◌, ◌≤◌, [], ◌∷◌, ℕ, List, length, get_or, drop, All, OnOk, Ok, Err};
ghost use Rattle.vdr_terms.specs.Needs.{Fits, slots_in};
ghost use Rattle.vdr_outside.specs.Disk.{SameBut, Unchanged, content};
ghost use Rattle.vdr_outside.specs.Moments.{Settled};
ghost use Rattle.vdr_config.specs.Grammar.{configuration};
ghost use Rattle.vdr_config.specs.Sizes.{sizes_of};
ghost use Rattle.vdr_segment.specs.Areas.{HasRoom};
ghost use Rattle.vdr_directory.specs.Sequence.{Placed};
ghost use Rattle.vdr_directory.specs.Order.{AreInOrder};
ghost use Rattle.vdr_directory.specs.Holds.{HoldsPlaced};
ghost use Rattle.vdr_ring.specs.Damage.{HasDamage};
ghost use Rattle.vdr_ring.specs.declared.refused.ReadRefused.TheVariants.{Fault as AFault, Damaged};
ghost use Rattle.vdr_config.specs.declared.media.TooSmall.{TooSmall as ATooSmall};
ghost use Rattle.vdr_remake.specs.Answers.{HoldsMedium, IsRefused, IsTested, room_on};
ghost use Rattle.vdr_remake.specs.declared.refused.RemakeRefused.TheVariants.{TooSmall as SmallMedium, Damaged as DamagedMedium, Fault as FaultOfMedia};
ghost use Rattle.vdr_remake.specs.Causes.{RoseAmong};
ghost use Rattle.vdr_remake.specs.Copies.{Hold};
ghost use Rattle.vdr_remake.specs.Moments.{RemakesAtEachMoment};
ghost use Rattle.vdr_remake.specs.Remade.{IsRemade};

use crate::closing::close_medium;
use crate::filling::make_whole;
use crate::refused::RemakeRefused;
use std::alloc::Global;
use vdr_config::{Config, TooSmall, needed_slots};
use vdr_directory::{Entry, read_segments};
use vdr_outside::Media;
use vdr_ring::ReadRefused;
use vdr_segment::Area;
use vdr_terms::slot_count;

// Whether medium m, of so many bytes, has the slots that it needs.
fn tested(config: &Config, m: u8, size: u64) -> Result<(), TooSmall>
    ensures { result ≡ room_on config.now m size }
{
    let need = needed_slots(config, m);
    let have = slot_count(config.segment, size) as u64;
    if have < need {
        return Err(TooSmall {
            medium: m,
            need,
            have,
        });
    }
    Ok(())
}

// The slots of medium m, of so many bytes.
fn area_of(config: &Config, m: u8, size: u64) -> Area
    ensures medium { result.medium ≡ m }
    ensures segment { result.segment ≡ config.now.segment }
    ensures slots { result.slots ≡ slots_in (sizes_of config.now) size }
    ensures room { 32768 ≤ size → 32768 + result.slots * result.segment ≤ size }
{
    Area {
        medium: m,
        segment: config.segment,
        slots: slot_count(config.segment, size),
    }
}

// The newest of these segments, as many as there are slots.
fn newest(opened: &[Entry], slots: u32) -> &[Entry]
    ensures few { length result.now ≤ slots }
    ensures newest { (n : ℕ) × (result.now ≡ drop n opened.now) × ((n ≡ 0) ⊎ (length result.now ≡ slots)) }
{
    &opened[opened.len().saturating_sub(slots as usize)..]
}

// Closes the medium, and makes it whole from what was opened of another.
fn remake_from<M: Media>(
    media: &mut M,
    from: Area,
    to: Area,
    config: &Config,
    text: &[u8],
    opened: &[Entry],
    buffer: &mut [u8],
) -> Result<(), ReadRefused>
    requires apart { from.medium ≢ to.medium }
    requires from_room { HasRoom from (M.disk media.old).sizes }
    requires to_room { HasRoom to (M.disk media.old).sizes }
    requires from_within { All (λ e. e.slot < from.slots) opened.now }
    requires from_alike { from.segment ≡ config.now.segment }
    requires to_alike { to.segment ≡ config.now.segment }
    requires to_slots { to.slots ≡ slots_in (sizes_of config.now) (get_or (M.disk media.old).sizes to.medium 0) }
    requires whole { length buffer.old ≡ from.segment }
    requires reads { configuration text.now ≡ Ok config.now }
    requires fits { Fits (sizes_of config.now) to.medium (get_or (M.disk media.old).sizes to.medium 0) }
    ensures moments { (placed : List Placed) → M.tells → Hold from.segment (content (M.disk media.old).reads from.medium) opened.now placed → AreInOrder placed
        → RemakesAtEachMoment to.medium (IsRemade to.medium config.now text.now placed) (M.disk media.old) (M.disk media.new) result }
    ensures done { (placed : List Placed) → M.tells → Hold from.segment (content (M.disk media.old).reads from.medium) opened.now placed → AreInOrder placed
        → OnOk result (Settled to.medium (IsRemade to.medium config.now text.now placed) (M.disk media.new)) }
    ensures others { M.tells → SameBut to.medium (M.disk media.old).reads (M.disk media.new).reads }
    ensures sizes { (M.disk media.new).sizes ≡ (M.disk media.old).sizes }
    ensures damaged { (m offset : ℕ) → result ≡ Err (Damaged m offset) → (m ≡ from.medium)
        × (M.tells → HasDamage from.segment from.slots (content (M.disk media.old).reads from.medium) offset) }
    ensures cause { RoseAmong (from.medium ∷ to.medium ∷ []) (M.faults media.old) (M.faults media.new) (result ≡ Err AFault) }
{
    close_medium(media, to.medium)?;
    let entries = newest(opened, to.slots);
    make_whole(media, from, to, config, text, entries, buffer)
}

// Opens the segments of one medium, closes another, and makes that one whole from them.
fn remake_in<M: Media>(
    alloc: Global,
    media: &mut M,
    from: Area,
    to: Area,
    config: &Config,
    text: &[u8],
) -> Result<(), RemakeRefused>
    requires apart { from.medium ≢ to.medium }
    requires from_room { HasRoom from (M.disk media.old).sizes }
    requires to_room { HasRoom to (M.disk media.old).sizes }
    requires from_alike { from.segment ≡ config.now.segment }
    requires to_alike { to.segment ≡ config.now.segment }
    requires to_slots { to.slots ≡ slots_in (sizes_of config.now) (get_or (M.disk media.old).sizes to.medium 0) }
    requires reads { configuration text.now ≡ Ok config.now }
    requires fits { Fits (sizes_of config.now) to.medium (get_or (M.disk media.old).sizes to.medium 0) }
    ensures moments { (placed : List Placed) → M.tells → HoldsPlaced from.segment from.slots placed (content (M.disk media.old).reads from.medium) → AreInOrder placed
        → RemakesAtEachMoment to.medium (IsRemade to.medium config.now text.now placed) (M.disk media.old) (M.disk media.new) result }
    ensures done { (placed : List Placed) → M.tells → HoldsPlaced from.segment from.slots placed (content (M.disk media.old).reads from.medium) → AreInOrder placed
        → OnOk result (Settled to.medium (IsRemade to.medium config.now text.now placed) (M.disk media.new)) }
    ensures others { M.tells → SameBut to.medium (M.disk media.old).reads (M.disk media.new).reads }
    ensures sizes { (M.disk media.new).sizes ≡ (M.disk media.old).sizes }
    ensures small { (small : ATooSmall) → result ≡ Err (SmallMedium small) → ⊥ }
    ensures damaged { (m offset : ℕ) → result ≡ Err (DamagedMedium m offset) → (m ≡ from.medium)
        × (M.tells → IsRefused from.segment from.slots (content (M.disk media.old).reads from.medium) offset) }
    ensures cause { RoseAmong (from.medium ∷ to.medium ∷ []) (M.faults media.old) (M.faults media.new) (result ≡ Err FaultOfMedia) }
{
    let Ok(mut buffer) = vec![in alloc; 0; from.segment as usize] else {
        return Err(RemakeRefused::NoMemory);
    };
    let (opened, _) = read_segments(alloc, media, from, &mut buffer)?;
    remake_from(media, from, to, config, text, &opened, &mut buffer)?;
    Ok(())
}

/// Makes medium `to` anew from medium `from`, with the configuration that the text is, so that it holds the newest segments of that one,
/// all of them or as many as it has slots. They are copied as they stand, with their sequence numbers, summaries and batches, so on
/// regular media it is regular too and holds its window (`law_of_remakes`). It has no incidents.
///
/// The two media differ. `from` is there, and has the slots that the configuration needs; `text` is the bytes of its configuration, of
/// which nothing is unsynced. Of the other media no byte is written.
///
/// `TooSmall` is tested first, before any other call. Then the segments of `from` are opened, and `Damaged` names the first part that is
/// not legal; each slot that is copied is judged whole, and there it names the first batch that is not legal or does not agree with its
/// summary. Then the gate of `to`, its byte 0, is closed, and it is opened last, behind one sync of all that was written: a stop leaves
/// `to` as it was until its first sync, and after that closed, or whole. It takes memory for the directory of `from` and for one segment.
pub fn remake<M: Media>(
    alloc: Global,
    media: &mut M,
    from: u8,
    to: u8,
    config: &Config,
    text: &[u8],
) -> Result<(), RemakeRefused>
    requires there { from < length (M.disk media.old).sizes }
    requires apart { from ≢ to }
    requires reads { configuration text.now ≡ Ok config.now }
    requires fits { Fits (sizes_of config.now) from (get_or (M.disk media.old).sizes from 0) }

    // Whether medium `to` has room, and that nothing was called where it has not.
    ensures tested { IsTested result (room_on config.now to (get_or (M.disk media.old).sizes to 0)) (Unchanged (M.disk media.old) (M.disk media.new)) }

    // What a stop leaves at each moment, and what a success leaves.
    ensures moments { (placed : List Placed) → M.tells → HoldsMedium config.now from placed (M.disk media.old)
        → RemakesAtEachMoment to (IsRemade to config.now text.now placed) (M.disk media.old) (M.disk media.new) result }
    ensures done { (placed : List Placed) → M.tells → HoldsMedium config.now from placed (M.disk media.old)
        → OnOk result (Settled to (IsRemade to config.now text.now placed) (M.disk media.new)) }

    // The other media read as before, and none changes its size.
    ensures others { M.tells → SameBut to (M.disk media.old).reads (M.disk media.new).reads }
    ensures sizes { (M.disk media.new).sizes ≡ (M.disk media.old).sizes }

    // What is damaged, and which medium's call failed.
    ensures damaged { (m offset : ℕ) → result ≡ Err (DamagedMedium m offset) → (m ≡ from)
        × (M.tells → IsRefused config.now.segment (slots_in (sizes_of config.now) (get_or (M.disk media.old).sizes from 0)) (content (M.disk media.old).reads from) offset) }
    ensures cause { RoseAmong (from ∷ to ∷ []) (M.faults media.old) (M.faults media.new) (result ≡ Err FaultOfMedia) }
{
    tested(config, to, media.size(to))?;
    let source = area_of(config, from, media.size(from));
    let target = area_of(config, to, media.size(to));
    remake_in(alloc, media, source, target, config, text)
}
