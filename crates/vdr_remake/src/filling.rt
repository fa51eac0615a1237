// Filling a medium behind its closed gate, and opening that gate last.
//
// One sync stands before the gate is opened: until then nothing that was written counts, whatever a stop makes of it.
ghost use Rattle.std.specs.Prelude.{◌≡◌, ◌≢◌, ◌<◌, ◌≤◌, [], ◌∷◌, ℕ, List, length, get_or, All, OnOk, Ok, Err, ⊤};
ghost use Rattle.vdr_terms.specs.Needs.{Fits, slots_in};
ghost use Rattle.vdr_outside.specs.Causes.{HasCauseOn};
ghost use Rattle.vdr_outside.specs.Disk.{Durable, SameBut, content};
ghost use Rattle.vdr_outside.specs.Moments.{ChangesOnly, Settled};
ghost use Rattle.vdr_config.specs.Grammar.{configuration};
ghost use Rattle.vdr_config.specs.Sizes.{sizes_of};
ghost use Rattle.vdr_segment.specs.Areas.{HasRoom};
ghost use Rattle.vdr_media.specs.Writing.{HasClosedGate, IsLaidOut, WritesBehindGate};
ghost use Rattle.vdr_directory.specs.Sequence.{Placed};
ghost use Rattle.vdr_ring.specs.Damage.{HasDamage};
ghost use Rattle.vdr_ring.specs.declared.refused.ReadRefused.TheVariants.{Fault as AFault, Damaged};
ghost use Rattle.vdr_remake.specs.Causes.{RoseAmong};
ghost use Rattle.vdr_remake.specs.Copies.{Hold};
ghost use Rattle.vdr_remake.specs.Moments.{ClosedOr};
ghost use Rattle.vdr_remake.specs.Remade.{IsFilledMedium, IsStaged};

use crate::copying::copy_all;
use vdr_config::Config;
use vdr_directory::Entry;
use vdr_media::lay_out;
use vdr_outside::{Fault, Media, write_through};
use vdr_ring::ReadRefused;
use vdr_segment::{Area, OPEN_GATE};

// Lays out medium m, so that it is empty but for its gate.
fn lay_empty<M: Media>(media: &mut M, m: u8, config: &Config, text: &[u8]) -> Result<(), Fault>
    requires there { m < length (M.disk media.old).sizes }
    requires reads { configuration text.now ≡ Ok config.now }
    requires fits { Fits (sizes_of config.now) m (get_or (M.disk media.old).sizes m 0) }
    ensures writes { WritesBehindGate m (M.disk media.old) (M.disk media.new) }
    ensures laid_out { OnOk result (Settled m (IsLaidOut m config.now text.now) (M.disk media.new)) }
    ensures cause { HasCauseOn m (M.faults media.old) (M.faults media.new) result }
{
    lay_out(media, m, config, text)?;
    Ok(())
}

// Syncs medium m.
fn sync_medium<M: Media>(media: &mut M, m: u8) -> Result<(), Fault>
    requires there { m < length (M.disk media.old).sizes }
    ensures writes { WritesBehindGate m (M.disk media.old) (M.disk media.new) }
    ensures durable { OnOk result (Durable m (M.disk media.new)) }
    ensures reads { M.tells → (M.disk media.new).reads ≡ (M.disk media.old).reads }
    ensures cause { HasCauseOn m (M.faults media.old) (M.faults media.new) result }
{
    media.sync(m)?;
    Ok(())
}

// Writes all of a medium but its gate: its configuration, its superblock, and the segments in the slots of these entries of another
// medium. Then it syncs it.
fn fill<M: Media>(
    media: &mut M,
    from: Area,
    to: Area,
    config: &Config,
    text: &[u8],
    entries: &[Entry],
    buffer: &mut [u8],
) -> Result<(), ReadRefused>
    requires apart { from.medium ≢ to.medium }
    requires from_room { HasRoom from (M.disk media.old).sizes }
    requires to_room { HasRoom to (M.disk media.old).sizes }
    requires from_within { All (λ e. e.slot < from.slots) entries.now }
    requires to_within { length entries.now ≤ to.slots }
    requires from_alike { from.segment ≡ config.now.segment }
    requires to_alike { to.segment ≡ config.now.segment }
    requires to_slots { to.slots ≡ slots_in (sizes_of config.now) (get_or (M.disk media.old).sizes to.medium 0) }
    requires whole { length buffer.old ≡ from.segment }
    requires reads { configuration text.now ≡ Ok config.now }
    requires fits { Fits (sizes_of config.now) to.medium (get_or (M.disk media.old).sizes to.medium 0) }
    ensures writes { WritesBehindGate to.medium (M.disk media.old) (M.disk media.new) }
    ensures staged { (placed : List Placed) → M.tells → Hold from.segment (content (M.disk media.old).reads from.medium) entries.now placed
        → OnOk result (Settled to.medium (IsStaged to.medium to.slots config.now text.now placed) (M.disk media.new)) }
    ensures damaged { (m offset : ℕ) → result ≡ Err (Damaged m offset) → (m ≡ from.medium)
        × (M.tells → HasDamage from.segment from.slots (content (M.disk media.old).reads from.medium) offset) }
    ensures cause { RoseAmong (from.medium ∷ to.medium ∷ []) (M.faults media.old) (M.faults media.new) (result ≡ Err AFault) }
{
    lay_empty(media, to.medium, config, text)?;
    copy_all(media, from, to, entries, buffer)?;
    sync_medium(media, to.medium)?;
    Ok(())
}

// Fills a medium whose gate is closed, and opens its gate.
pub(crate) fn make_whole<M: Media>(
    media: &mut M,
    from: Area,
    to: Area,
    config: &Config,
    text: &[u8],
    entries: &[Entry],
    buffer: &mut [u8],
) -> Result<(), ReadRefused>
    requires apart { from.medium ≢ to.medium }
    requires from_room { HasRoom from (M.disk media.old).sizes }
    requires to_room { HasRoom to (M.disk media.old).sizes }
    requires from_within { All (λ e. e.slot < from.slots) entries.now }
    requires to_within { length entries.now ≤ to.slots }
    requires from_alike { from.segment ≡ config.now.segment }
    requires to_alike { to.segment ≡ config.now.segment }
    requires to_slots { to.slots ≡ slots_in (sizes_of config.now) (get_or (M.disk media.old).sizes to.medium 0) }
    requires whole { length buffer.old ≡ from.segment }
    requires reads { configuration text.now ≡ Ok config.now }
    requires fits { Fits (sizes_of config.now) to.medium (get_or (M.disk media.old).sizes to.medium 0) }
    ensures meanwhile { ChangesOnly to.medium (λ _. ⊤) (M.disk media.old) (M.disk media.new) }
    ensures moments { (placed : List Placed) → M.tells → Hold from.segment (content (M.disk media.old).reads from.medium) entries.now placed
        → Settled to.medium HasClosedGate (M.disk media.old)
        → ChangesOnly to.medium (ClosedOr (IsFilledMedium to.medium to.slots config.now text.now placed)) (M.disk media.old) (M.disk media.new) }
    ensures done { (placed : List Placed) → M.tells → Hold from.segment (content (M.disk media.old).reads from.medium) entries.now placed
        → OnOk result (Settled to.medium (IsFilledMedium to.medium to.slots config.now text.now placed) (M.disk media.new)) }
    ensures others { M.tells → SameBut to.medium (M.disk media.old).reads (M.disk media.new).reads }
    ensures sizes { (M.disk media.new).sizes ≡ (M.disk media.old).sizes }
    ensures damaged { (m offset : ℕ) → result ≡ Err (Damaged m offset) → (m ≡ from.medium)
        × (M.tells → HasDamage from.segment from.slots (content (M.disk media.old).reads from.medium) offset) }
    ensures cause { RoseAmong (from.medium ∷ to.medium ∷ []) (M.faults media.old) (M.faults media.new) (result ≡ Err AFault) }
{
    fill(media, from, to, config, text, entries, buffer)?;
    write_through(media, to.medium, 0, &[OPEN_GATE])?;
    Ok(())
}
