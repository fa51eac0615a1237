// A commit: one batch appended to the capsule, and then to the long-term medium.
ghost use Rattle.std.specs.Prelude.{◌≡◌, ◌≤◌, ◌<◌, ℕ, List, length, false};
ghost use Rattle.vdr_terms.specs.Records.{last};
ghost use Rattle.vdr_terms.specs.Sizes.{records_size};
ghost use Rattle.vdr_core.specs.Histories.{Event, Opening};
ghost use Rattle.vdr_core.specs.Histories.Act.{Commit};
ghost use Rattle.vdr_core.specs.Taken.{Captured};
ghost use Rattle.vdr_directory.specs.Sequence.{Placed};
ghost use Rattle.vdr_media.specs.Formatted.{members_with};
ghost use Rattle.vdr_opening.specs.Answers.{members_on};
ghost use Rattle.vdr_vault.specs.Vaults.{AreRings, Stands, working, working_from};
ghost use Rattle.vdr_vault.specs.Calls.{Commits, HasVaultCause, MayCommit, SameElsewhere};
ghost use Rattle.vdr_vault.specs.Keeps.{GoesOn, KeepsVault, StopsAtFault, WritesToBoth};

use crate::Vault;
use crate::appending::append_from;
use crate::bringing::bring_up_all;
use vdr_entry::Record;
use vdr_outside::{Fault, Media};

impl Vault {
    // Brings all media up, and appends the batch to them, in their order. The long-term medium keeps the live saves.
    fn append_to_all<M: Media>(&mut self, media: &mut M, records: &[Record]) -> Result<(), Fault>
        requires rings { AreRings self.old (M.disk media.old).sizes }
        requires some { 0 < length records.now }
        requires short { records_size records.now ≤ self.old.config.batch }
        ensures commits { (opening : Opening) (events : List Event) (e : Event) (taken : List Captured) (placed : ℕ → List Placed) → M.tells
            → e.act ≡ Commit records.now taken → Stands opening events (working self.old) placed (M.disk media.old) → MayCommit (members_on self.old.rings) opening events self.old.config placed records.now
            → Commits opening events e records.now placed (working_from (last records.now) self.new) (M.disk media.old) (M.disk media.new) result }
        ensures failed { self.new.failed ≡ self.old.failed }
        ensures next_place { self.new.next_place ≡ self.old.next_place }
        ensures last { self.new.last ≡ self.old.last }
        ensures keeps { KeepsVault self.old self.new (M.disk media.old) (M.disk media.new) }
        ensures others { M.tells → SameElsewhere (members_on self.old.rings) (M.disk media.old).reads (M.disk media.new).reads }
        ensures sizes { (M.disk media.new).sizes ≡ (M.disk media.old).sizes }
        ensures counts { M.bytes_read media.new ≡ M.bytes_read media.old }
        ensures cause { HasVaultCause (members_on self.old.rings) false (M.faults media.old) (M.faults media.new) result }
    {
        let pins = self.pins();
        bring_up_all(&mut self.rings, media)?;
        append_from(&mut self.rings, 0, media, records, &pins)
    }

    /// Commits records as one batch: appends it to the capsule, and then to the long-term medium. Ok means that both have it. Before
    /// that the first commit behind an opening brings the media up: it writes the summary of each segment that opening found to lack
    /// one. At every moment a stop leaves media that show what was recorded before, or that with the batch. Takes no memory.
    ///
    /// The records are at least one and at most `batch` bytes of the configuration. What the media show is promised where the records
    /// continue the history and keep its pace (`MayCommit`).
    ///
    /// `Fault`: a write had failed before, and nothing was called; or a write or a sync failed, and the count of faults of that medium rose.
    /// The next place and the last record then stay as they were.
    pub fn commit<M: Media>(&mut self, media: &mut M, records: &[Record]) -> Result<(), Fault>
        requires rings { AreRings self.old (M.disk media.old).sizes }
        requires some { 0 < length records.now }
        requires short { records_size records.now ≤ self.old.config.batch }
        ensures commits { (opening : Opening) (events : List Event) (e : Event) (taken : List Captured) (placed : ℕ → List Placed) → M.tells
            → e.act ≡ Commit records.now taken → Stands opening events self.old placed (M.disk media.old) → MayCommit (members_on self.old.rings) opening events self.old.config placed records.now
            → Commits opening events e records.now placed self.new (M.disk media.old) (M.disk media.new) result }
        ensures failing { StopsAtFault self.old.failed self.new.failed self.old self.new media.old media.new result }
        ensures goes_on { GoesOn self.old self.new records.now result }
        ensures keeps { KeepsVault self.old self.new (M.disk media.old) (M.disk media.new) }
        ensures writes { WritesToBoth (members_with 0) M.Media self.old.failed media.old media.new result }
    {
        if self.failed {
            return Err(Fault);
        }
        self.failed = true;
        self.append_to_all(media, records)?;
        let newest = &records[records.len() - 1];
        self.next_place = newest.place + 1;
        self.last = Some((newest.tick, newest.utc));
        self.failed = false;
        Ok(())
    }
}
