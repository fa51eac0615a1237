// Opening both media: synced, read, and the last batch appended where the long-term medium lacks it.
ghost use Rattle.std.specs.Prelude.{◌≡◌, ◌≢◌, ◌⊎◌, ◌+◌, ◌<◌, ◌≤◌, ℕ, List, [], length, All, IfOk, OnOk, Err, false};
ghost use Rattle.vdr_terms.specs.Sizes.{batch_size};
ghost use Rattle.vdr_durability.specs.Readings.{AreLevel, EndsMeet};
ghost use Rattle.vdr_outside.specs.Disk.{Durable, SameBut, Unchanged, content};
ghost use Rattle.vdr_outside.specs.Moments.{AtEachMoment};
ghost use Rattle.vdr_media.specs.Formatted.{IsFormatted, IsUnformatted};
ghost use Rattle.vdr_directory.specs.Sequence.{Placed};
ghost use Rattle.vdr_opening.specs.Media.{Contents, HoldsContents, HoldsParts, members_in, members_with, opening_of, reading_of};
ghost use Rattle.vdr_opening.specs.Costs.{ReadsToOpen};
ghost use Rattle.vdr_opening.specs.Refusals.{IsRefused};
ghost use Rattle.vdr_opening.specs.Answers.{HasOpenCause, IsOpened, members_on};
ghost use Rattle.vdr_opening.specs.declared.refused.OpenRefused.TheVariants.{Damaged, NotFormatted};
ghost use Rattle.vdr_vault.specs.Vaults.{AreJudged, AreRings, IsReadable, ShowsHistory, Stands, ring_of};
ghost use Rattle.vdr_vault.specs.Regularity.{AreSound};
ghost use Rattle.vdr_vault.specs.Openings.{EndsWithin, GoesOnBehind, HasCauseOnBoth, IsToldBy, LeavesAll, OpensAtEachMoment, OpensMeanwhile, OpensVault, ReachesLongTerm, Reconciles, RefusesMedia, TellsOfParts, WritesMissing, opened_with};

use crate::Vault;
use crate::appending::append_from;
use crate::vault::ending;
use std::alloc::Global;
use vdr_entry::Record;
use vdr_opening::{MEMBERS, OpenRefused, Opened, law_of_parts, read_media};
use vdr_outside::{Failed, Fault, Media};
use vdr_ring::law_of_stages;

// Syncs the media.
fn sync_all<M: Media>(media: &mut M) -> Result<(), Failed>
    requires two { 2 ≤ length (M.disk media.old).sizes }
    ensures durable { OnOk result (All (λ m. Durable m (M.disk media.new)) (members_with 0)) }
    ensures reads { M.tells → (M.disk media.new).reads ≡ (M.disk media.old).reads }
    ensures moments { LeavesAll (M.disk media.old) (M.disk media.new) }
    ensures sizes { (M.disk media.new).sizes ≡ (M.disk media.old).sizes }
    ensures counts { M.bytes_read media.new ≡ M.bytes_read media.old }
    ensures cause { HasCauseOnBoth (members_with 0) (M.faults media.old) (M.faults media.new) result }
{
    for m in 0..MEMBERS {
        media.sync(m)?;
    }
    Ok(())
}

impl Vault {
    // Appends the batch that the media from a number on lack, if any.
    fn reconcile<M: Media>(
        &mut self,
        media: &mut M,
        missing: &[Record],
        lacking: u8,
    ) -> Result<(), Fault>
        requires rings { AreRings self.old (M.disk media.old).sizes }
        requires works { self.old.failed ≡ false }
        requires fits { missing.now ≢ [] → 64 + batch_size missing.now + 1 ≤ self.old.config.segment }
        requires behind { missing.now ≢ [] → (0 < lacking) × (lacking < length self.old.rings) }
        ensures reconciled { (x : Contents) → M.tells → IsOpened (opened_with self.old missing.now lacking) x (M.disk media.old) → AreSound x
            → GoesOnBehind x self.old → Reconciles x self.new (M.disk media.old) (M.disk media.new) result }
        ensures within { (x : Contents) → M.tells → IsOpened (opened_with self.old missing.now lacking) x (M.disk media.old)
            → AtEachMoment (M.disk media.old) (M.disk media.new) (EndsWithin x) }
        ensures config { self.new.config ≡ self.old.config }
        ensures table { self.new.table ≡ self.old.table }
        ensures last { self.new.last ≡ self.old.last }
        ensures place { self.new.next_place ≡ self.old.next_place }
        ensures level { missing.now ≡ [] → (self.new ≡ self.old) × (media.new ≡ media.old) }
        ensures capsule { ring_of self.new 0 ≡ ring_of self.old 0 }
        ensures works { self.new.failed ≡ false }
        ensures judged { M.tells → AreJudged self.old (M.disk media.old) → AreJudged self.new (M.disk media.new) }
        ensures rings { AreRings self.new (M.disk media.new).sizes }
        ensures others { M.tells → (k : ℕ) → (k < 1) ⊎ (length self.old.rings ≤ k) → content (M.disk media.new).reads k ≡ content (M.disk media.old).reads k }
        ensures sizes { (M.disk media.new).sizes ≡ (M.disk media.old).sizes }
        ensures counts { M.bytes_read media.new ≡ M.bytes_read media.old }
        ensures cause { HasCauseOnBoth (members_on self.old.rings) (M.faults media.old) (M.faults media.new) result }
    {
        if missing.is_empty() {
            return Ok(());
        }
        law_of_stages();
        let pins = self.pins();
        append_from(&mut self.rings, lacking as usize, media, missing, &pins)
    }

    // Opens media of which nothing is unsynced.
    fn open_synced<M: Media>(alloc: Global, media: &mut M) -> Result<Vault, OpenRefused>
        requires two { 2 ≤ length (M.disk media.old).sizes }
        requires three { length (M.disk media.old).sizes ≤ 3 }
        ensures opened { IfOk result (λ vault. (x : Contents) → M.tells → All (λ m. Durable m (M.disk media.old)) (members_in (M.disk media.old).reads) → HoldsContents (M.disk media.old).reads x → AreSound x
            → (placed : ℕ → List Placed) × Stands (opening_of x) [] vault placed (M.disk media.new)) }
        ensures parts { IfOk result (λ vault. M.tells → IsFormatted (M.disk media.old).reads × (x : Contents) × HoldsParts (M.disk media.old).reads x
            × EndsMeet (members_with x.further) (reading_of x) × IsToldBy x vault) }
        ensures known { IfOk result (λ vault. (x : Contents) → M.tells → HoldsParts (M.disk media.old).reads x → TellsOfParts x vault) }
        ensures contents { IfOk result (λ vault. (x : Contents) → M.tells → All (λ m. Durable m (M.disk media.old)) (members_in (M.disk media.old).reads) → HoldsContents (M.disk media.old).reads x
            → EndsMeet (members_with x.further) (reading_of x) × IsToldBy x vault) }
        ensures readable { IfOk result (λ vault. (x : Contents) → M.tells → All (λ m. Durable m (M.disk media.old)) (members_in (M.disk media.old).reads) → HoldsContents (M.disk media.old).reads x → AreLevel (members_with x.further) (reading_of x)
            → IsReadable (opening_of x) [] vault x.placed (M.disk media.new)) }
        ensures meanwhile { (x : Contents) → M.tells → All (λ m. Durable m (M.disk media.old)) (members_in (M.disk media.old).reads) → HoldsContents (M.disk media.old).reads x
            → OpensMeanwhile x (M.disk media.old) (M.disk media.new) }
        ensures works { IfOk result (λ vault. vault.failed ≡ false) }
        ensures judged { IfOk result (λ vault. M.tells → AreJudged vault (M.disk media.new)) }
        ensures rings { IfOk result (λ vault. AreRings vault (M.disk media.new).sizes) }
        ensures unformatted { result ≡ Err NotFormatted → M.tells → IsUnformatted (M.disk media.old).reads }
        ensures damaged { (m offset : ℕ) → result ≡ Err (Damaged m offset) → M.tells → All (λ k. Durable k (M.disk media.old)) (members_in (M.disk media.old).reads)
            → IsFormatted (M.disk media.old).reads × IsRefused (M.disk media.old).reads m offset }
        ensures untouched { (result ≡ Err NotFormatted) ⊎ ((m : ℕ) × (offset : ℕ) × (result ≡ Err (Damaged m offset)))
            → Unchanged (M.disk media.old) (M.disk media.new) }
        ensures blank { M.tells → IsUnformatted (M.disk media.old).reads → Unchanged (M.disk media.old) (M.disk media.new) }
        ensures others { M.tells → SameBut 1 (M.disk media.old).reads (M.disk media.new).reads }
        ensures bytes { IfOk result (λ _. (x : Contents) → M.tells → HoldsParts (M.disk media.old).reads x
            → ReadsToOpen x (M.disk media.old).sizes (M.bytes_read media.old) (M.bytes_read media.new)) }
        ensures sizes { (M.disk media.new).sizes ≡ (M.disk media.old).sizes }
        ensures cause { HasOpenCause (members_with 0) (M.faults media.old) (M.faults media.new) result }
    {
        law_of_parts();
        let Opened {
            config,
            rings,
            table,
            missing,
            lacking,
        } = read_media(alloc, media)?;
        let (next_place, last) = ending(&rings[0]);
        let mut vault = Vault {
            config,
            rings,
            table,
            next_place,
            last,
            failed: false,
        };
        let Ok(()) = vault.reconcile(media, &missing, lacking) else {
            return Err(OpenRefused::Fault);
        };
        Ok(vault)
    }

    /// Opens the capsule and the long-term medium: syncs both, reads them, and appends the capsule's last batch to the long-term medium
    /// where that lacks it. All tables and buffers are taken here.
    ///
    /// `NotFormatted` and `Damaged` come exactly as `vdr_opening::read_media` says, and nothing was written. `Fault`: a call failed, and
    /// the count of faults of that medium rose.
    ///
    /// Nothing but the long-term medium is written, of legible media at most the batch that it lacks, with the summary of the segment
    /// which that leaves, and where both end with the last batch nothing is. Segments that lack a summary get it with the first commit,
    /// those of a medium to which opening appended with the first commit behind a later opening. Where the media are sound, a stop at
    /// each moment leaves what a stop before the call might have left, until the syncs have succeeded; from then on media that show what
    /// was opened, with the batch that the long-term medium lacks. Of media that are not formatted it leaves what a stop before the call
    /// might have left, whatever is answered.
    ///
    /// It reads of each medium at most what stands before its slots, 64 bytes of each slot, and whole the segments whose header has no
    /// summary (`bytes`).
    pub fn open<M: Media>(alloc: Global, media: &mut M) -> Result<Vault, OpenRefused>
        requires two { 2 ≤ length (M.disk media.old).sizes }
        requires three { length (M.disk media.old).sizes ≤ 3 }
        ensures opened { OpensVault result (M.disk media.old) (M.disk media.new) }
        ensures missing { (x : Contents) → M.tells → HoldsContents (M.disk media.old).reads x → WritesMissing x (M.disk media.old) (M.disk media.new) }
        ensures moments { (x : Contents) → M.tells → HoldsContents (M.disk media.old).reads x → EndsMeet (members_with x.further) (reading_of x) → AreSound x
            → OpensAtEachMoment (M.disk media.old) (M.disk media.new) result (ShowsHistory (opening_of x) []) }
        ensures refused { RefusesMedia result (M.disk media.old) (M.disk media.new) }
        ensures bytes { IfOk result (λ _. (x : Contents) → M.tells → HoldsParts (M.disk media.old).reads x
            → ReadsToOpen x (M.disk media.old).sizes (M.bytes_read media.old) (M.bytes_read media.new)) }
        ensures writes { ReachesLongTerm M.Media media.old media.new result }
    {
        let Ok(()) = sync_all(media) else {
            return Err(OpenRefused::Fault);
        };
        Vault::open_synced(alloc, media)
    }
}
