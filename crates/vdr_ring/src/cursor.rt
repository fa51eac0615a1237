// A cursor over what a query selects of a medium, from segment to segment.
//
// A cursor keeps the number of its segment and a visit in it, and no list of records. It goes only to higher
// numbers, and onward in each, so that a play of media that change ends.
ghost use Rattle.std.specs.Prelude.{◌≡◌, ◌<◌, ◌≤◌, List, [], true, false, Some, None, option_map};
ghost use Rattle.vdr_terms.specs.Records.{Record as Entry};
ghost use Rattle.vdr_directory.specs.Sequence.{Placed};
ghost use Rattle.vdr_directory.specs.Order.{AreInOrder};
ghost use Rattle.vdr_directory.specs.Holds.{Tells};
ghost use Rattle.vdr_ring.specs.Meets.{AreApart};
ghost use Rattle.vdr_ring.specs.Rings.{HasMedium, Reads};
ghost use Rattle.vdr_entry.specs.Queries.{asked};
ghost use Rattle.vdr_index.specs.Indexes.{span_as};
ghost use Rattle.vdr_ring.specs.Budgets.{budget};
ghost use Rattle.vdr_ring.specs.Passing.{PassesOver, StandsToMeet};
ghost use Rattle.vdr_ring.specs.Steps.{JudgesHere, KeepsStep, TellsDamage};
ghost use Rattle.vdr_ring.specs.Walks.{AreLeft, AreLeftBehind, GivesHere, GivesNext, MayStep, Slots, segments_left, seq_in, slots_read};

use crate::{ReadRefused, Ring, Visit};
use std::marker::Model;
use vdr_entry::Record;
use vdr_index::Selection;
use vdr_outside::Media;

// The segment in which a cursor stands.
#[derive(Clone, Copy, Drop)]
pub struct Standing {
    pub(crate) slot: u32,
    pub(crate) seq: u64,
}

/// Where the play of a query stands, and the record there. It takes no memory.
#[derive(Drop)]
pub struct Cursor {
    // None before the first segment.
    standing: Option<Standing>,
    visit: Visit,
}

impl Model for Cursor {
    ghost use Rattle.std.specs.Prelude.{◌≡◌, None};
    ghost use Rattle.vdr_ring.specs.Walks.{CursorState};

    ghost Value = { CursorState };

    ghost view = { λ c. record { standing = c.standing; visit = c.visit } };

    ghost invariant = { λ c. c.standing ≡ None → c.visit.item ≡ None };
}

impl Cursor {
    /// A cursor before the first record.
    pub fn new() -> Cursor
        ensures standing { result.standing ≡ None }
        ensures slot { result.visit.slot ≡ None }
        ensures item { result.visit.item ≡ None }
    {
        Cursor {
            standing: None,
            visit: Visit::new(),
        }
    }

    /// The record that it stepped to. None exactly where the cursor is new, its last step answered false, or its last step
    /// was refused.
    pub fn item(&self) -> Option<&Record>
        ensures { option_map (λ r. r.now) result ≡ self.now.visit.item }
    {
        self.visit.item()
    }

    // Steps to the next record of the segment in which it stands that is selected.
    fn step_in<M: Media>(
        &mut self,
        ring: &mut Ring,
        media: &mut M,
        selection: &Selection,
    ) -> Result<bool, ReadRefused>
        requires room { HasMedium ring.old (M.disk media.old).sizes }
        requires may { MayStep ring.old self.old }
        ensures keeps { KeepsStep M.Media (asked selection.now.query) (span_as selection.now.span) ring.old ring.new self.old self.new media.old media.new result }
        ensures judges { JudgesHere ring.old (M.disk media.old) self.old self.new result }
        ensures steps { M.tells → (placed : List Placed) (records : List Entry) → Reads ring.old placed (M.disk media.old)
            → AreLeft (slots_read ring.old (M.disk media.old)) placed (asked selection.now.query) (Some (span_as selection.now.span)) self.old records
            → GivesHere records result self.new.visit.item
            (AreLeft (slots_read ring.old (M.disk media.old)) placed (asked selection.now.query) (Some (span_as selection.now.span)) self.new)
            (AreLeftBehind (slots_read ring.old (M.disk media.old)) placed (asked selection.now.query) (Some (span_as selection.now.span)) self.new) }
    {
        match self.standing {
            Some(standing) => ring.read_span(media, standing.slot, &mut self.visit, selection),
            None => Ok(false),
        }
    }

    // The sequence number of the segment in which it stands.
    fn seq(&self) -> Option<u64>
        ensures { result ≡ seq_in self.now.standing }
    {
        match self.standing {
            Some(standing) => Some(standing.seq),
            None => None,
        }
    }

    // Goes to the front of the next segment, after the one in which it stands, that may have a record that is selected. False where
    // none is there.
    fn enter_next(&mut self, ring: &Ring, selection: &Selection) -> bool
        requires may { MayStep ring.now self.old }
        requires item { self.old.visit.item ≡ None }
        ensures may { MayStep ring.now self.new }
        ensures item { self.new.visit.item ≡ None }
        ensures spends { budget ring.now (asked selection.now.query) (span_as selection.now.span) self.new.standing ≤ budget ring.now (asked selection.now.query) (span_as selection.now.span) self.old.standing }
        ensures meets { StandsToMeet (asked selection.now.query) (span_as selection.now.span) ring.now self.old.standing → StandsToMeet (asked selection.now.query) (span_as selection.now.span) ring.now self.new.standing }
        ensures passes { AreApart ring.now.directory.index → StandsToMeet (asked selection.now.query) (span_as selection.now.span) ring.now self.old.standing
            → PassesOver (asked selection.now.query) (span_as selection.now.span) ring.now self.old.standing self.new.standing result }
        ensures entered { result ≡ true → segments_left self.new.standing < segments_left self.old.standing }
        ensures front { result ≡ true → self.new.visit.slot ≡ None }
        ensures stays { result ≡ false → self.new ≡ self.old }
        ensures enters { (slots : Slots) (placed : List Placed) (records : List Entry) → Tells ring.now.slots placed ring.now.directory → AreInOrder placed
            → AreLeftBehind slots placed (asked selection.now.query) (Some (span_as selection.now.span)) self.old records
            → AreLeft slots placed (asked selection.now.query) (Some (span_as selection.now.span)) self.new records × (result ≡ false → records ≡ []) }
    {
        let Some((slot, seq)) = ring.next_candidate(&selection.query, &selection.span, self.seq())
        else {
            return false;
        };
        self.standing = Some(Standing { slot, seq });
        self.visit = Visit::new();
        true
    }

    /// Steps to the next record of the medium that is selected, in whatever segment may have one. False where no further one is there.
    ///
    /// A segment is entered only where it may have a record that is selected, by what the ring knows of it. It is read whole as it is
    /// entered, and stays loaded. So all steps of a new cursor, however many, read at most a segment for each that meets the query within
    /// the span, each once (`spends`). A step behind one that was refused, or behind a read of another slot, may read its segment once more.
    ///
    /// `Damaged` is where the slot of the segment in which the cursor then stands is damaged. None is passed over: after Ok all segments that
    /// meet the query and that it passed are intact, and after false all that meet it (`tells`).
    pub fn step<M: Media>(
        &mut self,
        ring: &mut Ring,
        media: &mut M,
        selection: &Selection,
    ) -> Result<bool, ReadRefused>
        requires room { HasMedium ring.old (M.disk media.old).sizes }
        requires may { MayStep ring.old self.old }
        ensures keeps { KeepsStep M.Media (asked selection.now.query) (span_as selection.now.span) ring.old ring.new self.old self.new media.old media.new result }
        ensures plays { M.tells → (placed : List Placed) (records : List Entry) → Reads ring.old placed (M.disk media.old)
            → AreLeft (slots_read ring.old (M.disk media.old)) placed (asked selection.now.query) (Some (span_as selection.now.span)) self.old records
            → GivesNext records result self.new.visit.item
            (AreLeft (slots_read ring.old (M.disk media.old)) placed (asked selection.now.query) (Some (span_as selection.now.span)) self.new) }
        ensures tells { TellsDamage (asked selection.now.query) (span_as selection.now.span) ring.old (M.disk media.old) self.old self.new result }
    {
        while !self.step_in(ring, media, selection)? {
            if !self.enter_next(ring, selection) {
                return Ok(false);
            }
        }
        Ok(true)
    }
}
