// Formatting the media with a configuration, so that they hold an empty history.
//
// Byte 0 is read before the sizes are compared, also where the media may be formatted again: one reading serves the
// refusal and the first write. Where it can't be read nothing is said of the two later tests.
ghost use Rattle.std.specs.Prelude.{◌≡◌, ◌<◌, ◌≤◌, true, false, length, All, OnOk, IfOk};
ghost use Rattle.vdr_outside.specs.Causes.{HasCauseOn};
ghost use Rattle.vdr_outside.specs.Disk.{Unchanged};
ghost use Rattle.vdr_outside.specs.Moments.{Settled};
ghost use Rattle.vdr_config.specs.Configuration.{Configuration};
ghost use Rattle.vdr_media.specs.Medium.{IsEmptyMedium};
ghost use Rattle.vdr_media.specs.Formatted.{members, IsEmptyHistoryOf};
ghost use Rattle.vdr_media.specs.Answers.{KnownFormatted, KnownUnformatted, ReadsOneByte};
ghost use Rattle.vdr_media.specs.Calls.{IsTested, LeavesRefused, WritesToMembers};
ghost use Rattle.vdr_media.specs.Formatting.{FormatsAtEachMoment};

use crate::emptying::make_all_empty;
use crate::refused::FormatRefused;
use std::alloc::Global;
use vdr_config::{fits, read_config};
use vdr_outside::{Failed, Media};
use vdr_segment::OPEN_GATE;
use vdr_terms::SLOTS_FROM;

/// Whether the media are formatted: medium 0 has 32,768 bytes at least, and the gate at its byte 0 is open (this project's profile).
/// It reads that byte, or none where the medium is smaller. `Failed`: the read failed, and the count of faults of medium 0 rose.
pub fn are_formatted<M: Media>(media: &mut M) -> Result<bool, Failed>
    requires { 0 < length (M.disk media.old).sizes }
    ensures formatted { IfOk result (λ yes. yes ≡ true → KnownFormatted (M.disk media.old)) }
    ensures unformatted { IfOk result (λ yes. yes ≡ false → KnownUnformatted (M.disk media.old)) }
    ensures unchanged { Unchanged (M.disk media.old) (M.disk media.new) }
    ensures counts { ReadsOneByte (M.bytes_read media.old) (M.bytes_read media.new) }
    ensures cause { HasCauseOn 0 (M.faults media.old) (M.faults media.new) result }
{
    if media.size(0) < SLOTS_FROM {
        return Ok(false);
    }
    let mut gate = [0];
    media.read(0, 0, &mut gate)?;
    Ok(gate[0] == OPEN_GATE)
}

/// Formats the capsule and the long-term medium with the configuration that the text is, so that they hold an empty history.
///
/// The media have two or three members; a third one is left alone. Refusals are tested in the order of `FormatRefused`, before any
/// byte is changed: media that are formatted are refused unless they are to be formatted `again`.
///
/// The gate of medium 0, its byte 0, is closed first and opened last, so that a stop in between leaves media that are not formatted. Before
/// it is closed that medium is synced, so that a stop leaves what was read of it.
pub fn format<M: Media>(
    alloc: Global,
    media: &mut M,
    text: &[u8],
    again: bool,
) -> Result<(), FormatRefused>
    requires two { 2 ≤ length (M.disk media.old).sizes }
    requires three { length (M.disk media.old).sizes ≤ 3 }

    // The three tests, in their order, and what a refusal leaves.
    ensures tested { IsTested result again text.now (M.disk media.old) (M.disk media.new) }
    ensures refused { LeavesRefused M.Media media.old media.new result }

    // What a success leaves, and a stop after it.
    ensures done { OnOk result ((c : Configuration)
        × All (λ m. Settled m (IsEmptyMedium m c text.now) (M.disk media.new)) members) }

    // What a stop leaves at each moment, whatever is unsynced at entry.
    ensures moments { FormatsAtEachMoment (M.disk media.old) (M.disk media.new) result (IsEmptyHistoryOf members text.now) }

    // Other media are as before, as they read and as a stop leaves them.
    ensures writes { WritesToMembers M.Media media.old media.new result }
{
    let config = read_config(alloc, text)?;
    let formatted = are_formatted(media)?;
    if formatted && !again {
        return Err(FormatRefused::AlreadyFormatted);
    }
    fits(&config, &[media.size(0), media.size(1)])?;
    make_all_empty(media, formatted, &config, text)?;
    Ok(())
}
