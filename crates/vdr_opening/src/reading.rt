// Reading the media part by part, up to the first that is not legal.
//
// Which part is damaged is said of media on which nothing is unsynced: whoever opens media syncs them first.
ghost use Rattle.std.specs.Prelude.{◌≡◌, ◌-◌, ◌≤◌, ℕ, length, All, IfOk, Err};
ghost use Rattle.vdr_outside.specs.Disk.{Durable, Unchanged};
ghost use Rattle.vdr_outside.specs.declared.fault.PartRefused.TheVariants.{Damaged as PartDamaged};
ghost use Rattle.vdr_media.specs.Formatted.{IsFormatted};
ghost use Rattle.vdr_opening.specs.Media.{Contents, HoldsContents, further_in, members_in, members_with};
ghost use Rattle.vdr_opening.specs.Costs.{ReadsParts, ReadsToOpen};
ghost use Rattle.vdr_opening.specs.Refusals.{IsRefused};
ghost use Rattle.vdr_opening.specs.Answers.{AreJudgedOn, FitsMedia, HasOpenCause, IsOpened, IsOpenedBy, RefusesAsRead};
ghost use Rattle.vdr_opening.specs.Parts.{HasPartCause};

use crate::ends::{Missing, missing_batch};
use crate::medium::{AllMedia, open_media};
use crate::places::read_incidents;
use crate::{OpenRefused, Opened};
use std::alloc::Global;
use vdr_incident::LONG_TERM;
use vdr_media::{MEMBERS, are_formatted};
use vdr_outside::{Media, PartRefused};

// Reads media that are formatted.
fn read_formatted<M: Media>(alloc: Global, media: &mut M, count: u8) -> Result<Opened, PartRefused>
    requires two { 2 ≤ count }
    requires few { count ≤ 2 }
    requires there { count ≤ length (M.disk media.old).sizes }
    requires version { M.tells → count - 2 ≡ further_in (M.disk media.old).reads }
    ensures opened { IfOk result (λ o. M.tells → All (λ m. Durable m (M.disk media.old)) (members_in (M.disk media.old).reads) → (x : Contents) → HoldsContents (M.disk media.old).reads x
        → IsOpened o x (M.disk media.new)) }
    ensures parts { IfOk result (λ o. M.tells → (x : Contents) × IsOpenedBy o x (M.disk media.new)
        × ReadsParts x.further 24600 x.config.segment x.placed (M.disk media.old).sizes (M.bytes_read media.old) (M.bytes_read media.new)) }
    ensures judged { IfOk result (λ o. AreJudgedOn o.rings (M.disk media.new)) }
    ensures rings { IfOk result (λ o. length o.rings ≡ count) }
    ensures shape { IfOk result (λ o. FitsMedia o (M.disk media.old).sizes) }
    ensures damaged { (m offset : ℕ) → result ≡ Err (PartDamaged m offset) → M.tells → All (λ k. Durable k (M.disk media.old)) (members_in (M.disk media.old).reads) → IsRefused (M.disk media.old).reads m offset }
    ensures unchanged { Unchanged (M.disk media.old) (M.disk media.new) }
    ensures cause { HasPartCause (members_with (count - 2)) (M.faults media.old) (M.faults media.new) result }
{
    let AllMedia {
        configured,
        mut rings,
    } = open_media(alloc, media, count)?;
    let table = read_incidents(media, &configured.config, &rings[LONG_TERM as usize])?;
    let Missing { batch, lacking } = missing_batch(alloc, media, &mut rings)?;
    Ok(Opened {
        config: configured.config,
        rings,
        table,
        missing: batch,
        lacking,
    })
}

/// Reads the capsule and the long-term medium, and writes nothing. Where medium 0 decides that the media are formatted,
/// each part of them is tested in order (`OpenRefused::Damaged`). On the capsule and then on the long-term medium these
/// are the superblock (offset 0), the configuration (offset 12,288) and the segments. Of these come first the headers, in
/// order of slot; then the batches of those whose header has no summary, in order of sequence number; then the order of
/// all. Behind both media come the incident slots by their bytes, and then by whether their places are in segments of the
/// long-term medium.
///
/// Last come the two ends, at offset 0 of the long-term medium. They meet where both media end with one batch, or the
/// long-term medium ends directly before the capsule's last batch, which may come next there by its place and its tick
/// (this project's profile). A third medium is not looked at. The batches of a segment whose header has a summary are not
/// read: they may be broken, or not agree with it, and are judged where they are read. Of each medium it reads at most
/// 32,768 bytes of what stands before its slots, 64 of each slot, and whole the segments whose header has no summary.
pub fn read_media<M: Media>(alloc: Global, media: &mut M) -> Result<Opened, OpenRefused>
    requires two { 2 ≤ length (M.disk media.old).sizes }
    requires three { length (M.disk media.old).sizes ≤ 3 }
    ensures opened { IfOk result (λ o. M.tells → All (λ m. Durable m (M.disk media.old)) (members_in (M.disk media.old).reads) → (x : Contents) → HoldsContents (M.disk media.old).reads x
        → IsOpened o x (M.disk media.new)) }
    ensures parts { IfOk result (λ o. M.tells → (x : Contents) × IsOpenedBy o x (M.disk media.new)
        × ReadsToOpen x (M.disk media.old).sizes (M.bytes_read media.old) (M.bytes_read media.new)) }
    ensures formatted { IfOk result (λ o. M.tells → IsFormatted (M.disk media.old).reads) }
    ensures judged { IfOk result (λ o. AreJudgedOn o.rings (M.disk media.new)) }
    ensures rings { IfOk result (λ o. length o.rings ≡ 2) }
    ensures shape { IfOk result (λ o. FitsMedia o (M.disk media.old).sizes) }
    ensures refused { RefusesAsRead result (M.disk media.old) }
    ensures unchanged { Unchanged (M.disk media.old) (M.disk media.new) }
    ensures cause { HasOpenCause (members_with 0) (M.faults media.old) (M.faults media.new) result }
{
    if !are_formatted(media)? {
        return Err(OpenRefused::NotFormatted);
    }
    let opened = read_formatted(alloc, media, MEMBERS)?;
    Ok(opened)
}
