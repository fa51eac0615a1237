// Emptying the media: the gate of medium 0 is closed first, and it is opened last.
//
// The sync of the capsule stands before any other byte is written, so that a capsule whose gate is open never stands
// beside a half-made medium. One more stands before its gate is closed, so that a stop leaves what was read of it.
ghost use Rattle.std.specs.Prelude.{◌≡◌, ◌<◌, ◌≤◌, ◌⊎◌, ◌-◌, ℕ, true, false, length, get_or, Ok, All, OnOk};
ghost use Rattle.vdr_terms.specs.Needs.{Fits};
ghost use Rattle.vdr_outside.specs.Causes.{HasCauseOn};
ghost use Rattle.vdr_outside.specs.Disk.{SameBut, content};
ghost use Rattle.vdr_outside.specs.Moments.{AtEachMoment, Settled};
ghost use Rattle.vdr_config.specs.Sizes.{sizes_of};
ghost use Rattle.vdr_config.specs.Grammar.{configuration};
ghost use Rattle.vdr_terms.specs.Slots.{slots_from};
ghost use Rattle.vdr_media.specs.Medium.{IsEmptyMedium};
ghost use Rattle.vdr_media.specs.Formatted.{members, members_with, IsEmptyHistoryOf, SameBeside};
ghost use Rattle.vdr_media.specs.Answers.{KnownFormatted, KnownUnformatted};
ghost use Rattle.vdr_media.specs.Formatting.{ClosedAlone, FormatsAtEachMoment};
ghost use Rattle.vdr_media.specs.Writing.{HasClosedGate, HasCauseAmong, SameBesides};

use crate::laying::make_empty;
use crate::layout::MEMBERS;
use vdr_config::Config;
use vdr_outside::{Fault, Media, write_through};
use vdr_segment::CLOSED_GATE;

// Syncs medium 0, and closes its gate where it is open. Whatever was unsynced before, each image that a stop may leave by then has the
// gate that was read, so that any byte in its place leaves the media as they were, or unformatted.
fn unformat<M: Media>(media: &mut M, formatted: bool) -> Result<(), Fault>
    requires there { 0 < length (M.disk media.old).sizes }
    requires formatted { formatted ≡ true → KnownFormatted (M.disk media.old) }
    requires room { 1 ≤ get_or (M.disk media.old).sizes 0 0 }
    ensures moments { AtEachMoment (M.disk media.old) (M.disk media.new) (λ i. (M.disk media.old).now i ⊎ ClosedAlone (M.disk media.old).now i) }
    ensures done { (formatted ≡ false → M.tells → HasClosedGate (content (M.disk media.old).reads 0)) → OnOk result (Settled 0 HasClosedGate (M.disk media.new)) }
    ensures others { M.tells → SameBut 0 (M.disk media.old).reads (M.disk media.new).reads }
    ensures sizes { (M.disk media.new).sizes ≡ (M.disk media.old).sizes }
    ensures counts { M.bytes_read media.new ≡ M.bytes_read media.old }
    ensures cause { HasCauseOn 0 (M.faults media.old) (M.faults media.new) result }
{
    media.sync(0)?;
    if !formatted {
        return Ok(());
    }
    write_through(media, 0, 0, &[CLOSED_GATE])
}

// Makes each medium from number 1 up to the count an empty one with this configuration, from the last on.
fn make_others_empty<M: Media>(
    media: &mut M,
    count: u8,
    config: &Config,
    text: &[u8],
) -> Result<(), Fault>
    requires two { 2 ≤ count }
    requires there { count ≤ length (M.disk media.old).sizes }
    requires reads { configuration text.now ≡ Ok config.now }
    requires fits { (k : ℕ) → 1 ≤ k → k < count → Fits (sizes_of config.now) k (get_or (M.disk media.old).sizes k 0) }
    ensures meanwhile { AtEachMoment (M.disk media.old) (M.disk media.new) (SameBesides 1 count (M.disk media.old).now) }
    ensures done { OnOk result ((k : ℕ) → 1 ≤ k → k < count → Settled k (IsEmptyMedium k config.now text.now) (M.disk media.new)) }
    ensures others { M.tells → (k : ℕ) → (k < 1) ⊎ (count ≤ k) → content (M.disk media.new).reads k ≡ content (M.disk media.old).reads k }
    ensures sizes { (M.disk media.new).sizes ≡ (M.disk media.old).sizes }
    ensures counts { M.bytes_read media.new ≡ M.bytes_read media.old }
    ensures cause { HasCauseAmong (members_with (count - 2)) (M.faults media.old) (M.faults media.new) result }
{
    for m in (1..count).rev() {
        make_empty(media, m, config, text)?;
    }
    Ok(())
}

// Makes the capsule and the long-term medium empty ones with this configuration. The gate of medium 0 decides whether they are
// formatted: where it is open it is closed first, and it is opened last.
pub(crate) fn make_all_empty<M: Media>(
    media: &mut M,
    formatted: bool,
    config: &Config,
    text: &[u8],
) -> Result<(), Fault>
    requires two { 2 ≤ length (M.disk media.old).sizes }
    requires formatted { formatted ≡ true → KnownFormatted (M.disk media.old) }
    requires unformatted { formatted ≡ false → KnownUnformatted (M.disk media.old) }
    requires room { slots_from ≤ get_or (M.disk media.old).sizes 0 0 }
    requires reads { configuration text.now ≡ Ok config.now }
    requires capsule { Fits (sizes_of config.now) 0 (get_or (M.disk media.old).sizes 0 0) }
    requires long { Fits (sizes_of config.now) 1 (get_or (M.disk media.old).sizes 1 0) }
    ensures done { OnOk result (All (λ m. Settled m (IsEmptyMedium m config.now text.now) (M.disk media.new)) members) }
    ensures moments { FormatsAtEachMoment (M.disk media.old) (M.disk media.new) result (IsEmptyHistoryOf members text.now) }
    ensures others { M.tells → SameBeside members (λ image. image ≡ (M.disk media.old).reads) (M.disk media.new).reads }
    ensures others_meanwhile { AtEachMoment (M.disk media.old) (M.disk media.new) (SameBeside members (M.disk media.old).now) }
    ensures sizes { (M.disk media.new).sizes ≡ (M.disk media.old).sizes }
    ensures counts { M.bytes_read media.new ≡ M.bytes_read media.old }
    ensures cause { HasCauseAmong members (M.faults media.old) (M.faults media.new) result }
{
    unformat(media, formatted)?;
    make_others_empty(media, MEMBERS, config, text)?;
    make_empty(media, 0, config, text)
}
