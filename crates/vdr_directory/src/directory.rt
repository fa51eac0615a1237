// The directory of a medium's segments, which is kept as segments are begun, grow, are left and are closed.
//
// A directory keeps the index, the newest segment and the last record, and nothing else of a slot. A segment without
// records can only be the newest, and is not in the index.
ghost use Rattle.std.specs.Prelude.{◌≡◌, ◌<◌, ◌+◌, ◌^◌, ◌++◌, ◌∷◌, [], ℕ, List, length, replicate, All, IfOk, IfSome, IfNone, MatchOption, get_or, option_map, set, Some, None};
ghost use Rattle.vdr_terms.specs.Records.{Record as ARecord};
ghost use Rattle.vdr_entry.specs.declared.summary.Summary.{Summary as ASummary};
ghost use Rattle.vdr_index.specs.Extents.{extent_of};
ghost use Rattle.vdr_index.specs.Summaries.{IsSummaryOf, Summarises};
ghost use Rattle.vdr_index.specs.declared.known.Known.{Known as AKnown};
ghost use Rattle.vdr_directory.specs.declared.newest.Newest.{Newest as ANewest};
ghost use Rattle.vdr_directory.specs.Sequence.{Placed};
ghost use Rattle.vdr_directory.specs.Order.{AreInOrder};
ghost use Rattle.vdr_directory.specs.Entries.{Describe};
ghost use Rattle.vdr_directory.specs.Directories.{count_of, ending_by, slot_in, summary_at};
ghost use Rattle.vdr_directory.specs.Indexed.{IsIndexed, told_by};
ghost use Rattle.vdr_directory.specs.Holds.{HoldsPlaced, Tells};
ghost use Rattle.vdr_directory.specs.Knowns.{AreInOrderBy};
ghost use Rattle.vdr_directory.specs.Opening.{AreKnown};
ghost use Rattle.vdr_directory.specs.Telling.{IsIndexedBy, TellsBy};
ghost use Rattle.vdr_directory.specs.Leaving.{IsLeftBehind, LeavesNone};
ghost use Rattle.vdr_directory.specs.Closed.{IsFull, IsLeastClosed};

use crate::entry::Entry;
use crate::newest::{Ending, Newest, ending_among, ending_of, newest_among};
use std::alloc::Global;
use std::marker::Model;
use vdr_entry::{Record, Summary};
use vdr_index::{Index, NoMemory, summary_with};
use vdr_segment::HEADER_SIZE;

/// What is known of the segments of a medium without reading them. The slot of each that has records has it in the
/// index; the newest may have none, and then its slot is clear there. But for `of` nothing takes memory.
#[derive(Drop)]
pub struct Directory {
    index: Index,
    // None where there is no segment.
    newest: Option<Newest>,
    // None where there is no record.
    ending: Option<Ending>,
}

impl Model for Directory {
    ghost use Rattle.std.specs.Prelude.{◌<◌, IfSome, length};
    ghost use Rattle.vdr_directory.specs.Directories.{DirectoryState};

    ghost Value = { DirectoryState };

    ghost view = { λ t. record { index = t.index; newest = t.newest; ending = t.ending } };

    ghost invariant = { λ t. IfSome t.newest (λ n. n.slot < length t.index) };
}

impl Directory {
    // A directory of so many slots, all of them closed.
    fn with_slots(alloc: Global, slots: u32) -> Result<Directory, NoMemory>
        ensures { IfOk result (λ t. t ≡ record { index = replicate slots None; newest = None; ending = None }) }
    {
        Ok(Directory {
            index: Index::with_slots(alloc, slots)?,
            newest: None,
            ending: None,
        })
    }

    // Takes down what is known of an entry's segment: nothing where it has no records.
    fn tell(&mut self, entry: &Entry)
        requires { entry.now.slot < count_of self.old }
        ensures { self.new ≡ record self.old { index = set self.old.index entry.now.slot (told_by entry.now) } }
    {
        match entry.known_summary() {
            None => self.index.clear(entry.slot),
            Some(summary) => self.index.set(entry.slot, entry.seq, entry.first, summary),
        }
    }

    // A directory of so many slots whose index knows of these segments.
    fn of_all(alloc: Global, slots: u32, opened: &[Entry]) -> Result<Directory, NoMemory>
        requires { All (λ e. e.slot < slots) opened.now }
        ensures size { IfOk result (λ t. count_of t ≡ slots) }
        ensures told { IfOk result (λ t. (segment : ℕ) (placed : List Placed) (bytes : List ℕ) → segment < 2 ^ 32 → HoldsPlaced segment slots placed bytes
            → AreInOrder placed → Describe placed opened.now → IsIndexed slots placed t.index) }
        ensures known { IfOk result (λ t. (segment : ℕ) (known : List Placed) (bytes : List ℕ) → segment < 2 ^ 32 → AreKnown segment slots bytes known
            → AreInOrderBy known → Describe known opened.now → IsIndexedBy slots known t.index) }
    {
        let mut directory = Directory::with_slots(alloc, slots)?;
        for entry in opened {
            directory.tell(entry);
        }
        Ok(directory)
    }

    // Takes down the newest segment, and the end of the records.
    fn end_with(&mut self, newest: Option<Newest>, ending: Option<Ending>)
        requires { IfSome newest (λ n. n.slot < count_of self.old) }
        ensures { self.new ≡ record self.old { newest = newest; ending = ending } }
    {
        self.newest = newest;
        self.ending = ending;
    }

    /// The directory of a medium of so many slots with these open segments, in order of sequence number. All other
    /// slots are closed.
    pub fn of(alloc: Global, slots: u32, opened: &[Entry]) -> Result<Directory, NoMemory>
        requires { All (λ e. e.slot < slots) opened.now }
        ensures size { IfOk result (λ t. count_of t ≡ slots) }
        ensures told { IfOk result (λ t. (segment : ℕ) (placed : List Placed) (bytes : List ℕ) → segment < 2 ^ 32 → HoldsPlaced segment slots placed bytes
            → AreInOrder placed → Describe placed opened.now → Tells slots placed t) }
        ensures known { IfOk result (λ t. (segment : ℕ) (known : List Placed) (bytes : List ℕ) → segment < 2 ^ 32 → AreKnown segment slots bytes known
            → AreInOrderBy known → Describe known opened.now → TellsBy slots known t) }
    {
        let mut directory = Directory::of_all(alloc, slots, opened)?;
        directory.end_with(newest_among(opened), ending_among(opened));
        Ok(directory)
    }

    /// What is known of each segment that has records.
    pub fn index(&self) -> &Index
        ensures index { result.now ≡ self.now.index }
    {
        &self.index
    }

    /// The newest segment. None where there is none.
    pub fn newest(&self) -> Option<Newest>
        ensures newest { result ≡ self.now.newest }
        ensures within { IfSome result (λ n. n.slot < count_of self.now) }
    {
        self.newest
    }

    /// The medium's last record. None where it has none.
    pub fn ending(&self) -> Option<Ending>
        ensures { result ≡ self.now.ending }
    {
        self.ending
    }

    /// The newest segment, where it has no records.
    pub fn empty_newest(&self) -> Option<Newest>
        ensures within { IfSome result (λ n. n.slot < count_of self.now) }
        ensures some { IfSome result (λ n. (self.now.newest ≡ Some n) × (get_or self.now.index n.slot None ≡ None)) }
        ensures none { IfNone result ((n : ANewest) → self.now.newest ≡ Some n → (k : AKnown) × (get_or self.now.index n.slot None ≡ Some k)) }
    {
        let newest = self.newest?;
        match self.index.known(newest.slot) {
            None => Some(newest),
            Some(_) => None,
        }
    }

    /// Where the newest segment has no records: the slot of the one before it, and the summary of its records. None
    /// where there is no such segment.
    pub fn left_behind(&self) -> Option<(u32, Summary)>
        ensures within { IfSome result (λ x. x.0 < count_of self.now) }
        ensures left { (placed : List Placed) → Tells (count_of self.now) placed self.now → (1 < length placed → AreInOrder placed)
            → MatchOption result (LeavesNone placed) (λ x. IsLeftBehind placed x.0 x.1) }
    {
        self.empty_newest()?;
        let slot = self.index.newest()?;
        let known = self.index.known(slot)?;
        Some((slot, known.summary))
    }

    fn newest_slot(&self) -> Option<u32>
        ensures { result ≡ slot_in self.now.newest }
    {
        match self.newest {
            Some(newest) => Some(newest.slot),
            None => None,
        }
    }

    /// The closed slot of least index. None where all are open.
    pub fn next_closed(&self) -> Option<u32>
        ensures within { IfSome result (λ slot. slot < count_of self.now) }
        ensures some { IfSome result (λ slot. (placed : List Placed) → Tells (count_of self.now) placed self.now → AreInOrder placed
            → IsLeastClosed (count_of self.now) placed slot) }
        ensures none { IfNone result ((placed : List Placed) → Tells (count_of self.now) placed self.now → AreInOrder placed → IsFull (count_of self.now) placed) }
    {
        self.index.first_clear(self.newest_slot())
    }

    /// Closes a slot. Nothing is known of it then.
    pub fn close(&mut self, slot: u32)
        requires { slot < count_of self.old }
        ensures { self.new ≡ record self.old { index = set self.old.index slot None } }
    {
        self.index.clear(slot);
    }

    /// Begins a segment in a slot that is closed, and answers what is kept of it.
    pub fn begin(&mut self, slot: u32, seq: u64, first: u64) -> Newest
        requires { slot < count_of self.old }
        ensures begun { result ≡ record { slot = slot; seq = seq; first = first; end = 64 } }
        ensures directory { self.new ≡ record self.old { newest = Some result } }
    {
        let newest = Newest {
            slot,
            seq,
            first,
            end: HEADER_SIZE,
        };
        self.newest = Some(newest);
        newest
    }

    // What the records of the segment in a slot have in common.
    fn summary_in(&self, slot: u32) -> Option<Summary>
        ensures { result ≡ summary_at self.now.index slot }
    {
        match self.index.known(slot) {
            Some(known) => Some(known.summary),
            None => None,
        }
    }

    /// Takes down a batch of these records, of so many bytes, in this segment, the newest.
    pub fn extend(&mut self, newest: Newest, size: usize, records: &[Record])
        requires within { newest.slot < count_of self.old }
        requires some { 0 < length records.now }
        requires fits { newest.end + size < 2 ^ 64 }
        ensures index { (before : List ARecord) → Summarises before (summary_at self.old.index newest.slot)
            → (s : ASummary) × IsSummaryOf (before ++ records.now) s
            × (self.new.index ≡ set self.old.index newest.slot (Some (record { seq = newest.seq; first = newest.first; summary = s }))) }
        ensures size { count_of self.new ≡ count_of self.old }
        ensures newest { self.new.newest ≡ Some (record newest { end = newest.end + size }) }
        ensures ending { self.new.ending ≡ option_map ending_by (extent_of (records.now ∷ [])) }
    {
        let Newest {
            slot,
            seq,
            first,
            ..
        } = newest;
        let summary = summary_with(self.summary_in(slot), records);
        self.index.set(slot, seq, first, summary);
        self.newest = Some(Newest {
            end: newest.end + size,
            ..newest
        });
        self.ending = Some(ending_of(records));
    }
}
