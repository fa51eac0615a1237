// A play that is read in parts, with other calls between them.
//
// The cursor of a play knows its segments by number, and another one may stand in a slot when it goes on. So a play that
// is left for a while is known by places: those of a history never change.
ghost use Rattle.std.specs.Prelude.{◌≡◌, ◌≤◌, ◌<◌, ◌↔◌, ◌++◌, [], ℕ, List, false, None, Some, Err, IfOk};
ghost use Rattle.vdr_terms.specs.Queries.Span.{Places as PlacesOf};
ghost use Rattle.vdr_terms.specs.Records.{Record as Entry, last};
ghost use Rattle.vdr_core.specs.Histories.{Event, Opening, live};
ghost use Rattle.vdr_durability.specs.Playback.{found, medium_of};
ghost use Rattle.vdr_entry.specs.declared.query.Query.{Query as Asked};
ghost use Rattle.vdr_entry.specs.Queries.{asked};
ghost use Rattle.vdr_config.specs.Sizes.{window_of};
ghost use Rattle.vdr_directory.specs.Sequence.{Placed, all_records};
ghost use Rattle.vdr_directory.specs.Order.{AreInOrder};
ghost use Rattle.vdr_directory.specs.Holds.{Tells};
ghost use Rattle.vdr_directory.specs.Lookup.{HoldAll};
ghost use Rattle.vdr_ring.specs.Rings.{Reads};
ghost use Rattle.vdr_ring.specs.Budgets.{budget};
ghost use Rattle.vdr_ring.specs.Walks.{GivesNext, HasRead, MayStep};
ghost use Rattle.vdr_ring.specs.declared.refused.ReadRefused.TheVariants.{Damaged};
ghost use Rattle.vdr_vault.specs.Vaults.{AreJudged, AreRings, IsDamagedOn, IsReadable, VaultState, ring_of};
ghost use Rattle.vdr_vault.specs.Keeps.{KeepsPlayed, StandsAfter};
ghost use Rattle.vdr_vault.specs.Plays.{HasReadCause, ReadsNoOther, ReadsOn, ring_for};
ghost use Rattle.vdr_vault.specs.Stretches.{AreLeftWithin, HasBegun, IsClosed, IsIncidentOf, IsWhole, IsWindowOf, NamesDamageOf, ReadsForTurn, StepsWithin, still_selected};
ghost use Rattle.vdr_vault.specs.declared.stretch.Part.TheVariants.{Gone, Over, Upto};

use crate::Vault;
use crate::play::number_of;
use crate::saving::ALL;
use vdr_entry::{Medium, Query};
use vdr_incident::LONG_TERM;
use vdr_index::{Selection, Span};
use vdr_outside::Media;
use vdr_ring::{Cursor, ReadRefused};

/// The places of a query's medium that are still to be read, both included: none where the next one is above the last.
#[derive(Clone, Copy, Drop)]
pub struct Stretch {
    pub next: u64,
    pub last: u64,
}

/// What is read next of a stretch.
#[derive(Clone, Copy, Drop)]
pub enum Part {
    /// Nothing, since a place of it was written over.
    Gone,
    /// Nothing, since the query selects none of its records.
    Over,
    /// What stands in one segment, up to this place.
    Upto(u64),
}

/// No place.
const NONE: Stretch = Stretch { next: 1, last: 0 };

/// What is still selected is a matter of places: later events change nothing of a stretch that is closed, also where it is read in part.
pub fn law_of_stretches<M: Media>(media: &M)
    ensures later { (opening : Opening) (before later : List Event) (query : Asked) (s : Stretch) (vault : VaultState) (placed : ℕ → List Placed)
        → IsReadable opening (before ++ later) vault placed (M.disk media.now) → IsClosed opening before (asked query) s
        → still_selected opening (before ++ later) (asked query) s ≡ still_selected opening before (asked query) s }
    ensures onward { (opening : Opening) (events : List Event) (query : Asked) (s t : Stretch) → s.next ≤ t.next → t.last ≡ s.last
        → IsClosed opening events (asked query) s → IsClosed opening events (asked query) t }
    ensures held { (opening : Opening) (events : List Event) (query : Asked) (s : Stretch) (vault : VaultState) (placed : ℕ → List Placed)
        → IsReadable opening events vault placed (M.disk media.now) → HoldAll s.next s.last (placed (medium_of (asked query).medium))
        → found (asked query) (Some (PlacesOf s.next s.last)) (all_records (placed (medium_of (asked query).medium))) ≡ still_selected opening events (asked query) s }
{}

// The places from the record to which a first step came, up to this one.
fn begun(
    found: Result<bool, ReadRefused>,
    cursor: &Cursor,
    last: u64,
) -> Result<Stretch, ReadRefused>
    ensures { HasBegun found cursor.now.visit.item last result }
{
    match found {
        Ok(true) => {}
        Ok(false) => return Ok(NONE),
        Err(refused) => return Err(refused),
    }
    match cursor.item() {
        Some(item) => Ok(Stretch {
            next: item.place,
            last,
        }),
        None => Ok(NONE),
    }
}

impl Vault {
    // The places of an incident, up to that of the last record.
    fn stretch_of_incident(&self, id: u32) -> Stretch
        ensures { (placed : List Placed) → Tells (ring_of self.now 1).slots placed (ring_of self.now 1).directory
            → IsIncidentOf (live self.now.table id) (last (all_records placed)) result }
    {
        let Some(save) = self.table.live(id) else {
            return NONE;
        };
        let Some((place, _, _)) = self.ring(LONG_TERM).last() else {
            return NONE;
        };
        Stretch {
            next: save.a,
            last: save.b.min(place),
        }
    }

    // The places of the window of medium m. Where it begins is read of the segment in which it does.
    fn stretch_of_window<M: Media>(&mut self, m: u8, media: &mut M) -> Result<Stretch, ReadRefused>
        requires member { m < 2 }
        requires rings { AreRings self.old (M.disk media.old).sizes }
        ensures vault { ReadsOn m self.old self.new }
        ensures read { HasRead (ring_of self.old m) (ring_of self.new m) (M.disk media.old) (M.disk media.new) }
        ensures begins { (placed : List Placed) → M.tells → Reads (ring_of self.old m) placed (M.disk media.old)
            → IfOk result (IsWindowOf (window_of self.old.config m) (all_records placed)) }
        ensures undamaged { (placed : List Placed) (k offset : ℕ) → M.tells → Reads (ring_of self.old m) placed (M.disk media.old) → result ≡ Err (Damaged k offset) → ⊥ }
        ensures damaged { (k offset : ℕ) → result ≡ Err (Damaged k offset) → (k ≡ m)
            × (M.tells → AreJudged self.old (M.disk media.old) → IsDamagedOn self.old.config (M.disk media.old) k offset) }
        ensures counts { ReadsNoOther m (M.bytes_read media.old) (M.bytes_read media.new) }
        ensures cause { HasReadCause m false (M.faults media.old) (M.faults media.new) result }
    {
        let seconds = self.config.window(m);
        let Some((place, tick, _)) = self.ring(m).last() else {
            return Ok(NONE);
        };
        let selection = Selection {
            span: Span::Window {
                last: tick / 1000,
                seconds,
            },
            query: ALL,
        };
        let mut cursor = Cursor::new();
        let found = self.step_on(m, media, &selection, &mut cursor);
        begun(found, &cursor, place)
    }

    /// The places of all that a query selects now: those of its medium's window, or of a live incident. No place where nothing is recorded, or
    /// the incident is not live. Of a window the segment is read in which it begins. Takes no memory.
    ///
    /// `Fault`: a write had failed before, and nothing was called; or a read failed, and the count of faults of that medium rose.
    /// `Damaged` names that medium, and where the slot of that segment is damaged. It never comes of media that hold what was recorded.
    pub fn stretch_of<M: Media>(
        &mut self,
        media: &mut M,
        query: &Query,
    ) -> Result<Stretch, ReadRefused>
        requires rings { AreRings self.old (M.disk media.old).sizes }
        ensures begins { (opening : Opening) (events : List Event) (placed : ℕ → List Placed) → M.tells → IsReadable opening events self.old placed (M.disk media.old)
            → IfOk result (IsWhole opening events (asked query.now)) }
        ensures undamaged { (opening : Opening) (events : List Event) (placed : ℕ → List Placed) (m offset : ℕ) → M.tells → IsReadable opening events self.old placed (M.disk media.old)
            → result ≡ Err (Damaged m offset) → ⊥ }
        ensures damage { NamesDamageOf (asked query.now) self.old (M.disk media.old) (λ m offset. result ≡ Err (Damaged m offset)) }
        ensures keeps { KeepsPlayed M.Media (medium_of (asked query.now).medium) self.old self.new media.old media.new }
        ensures reads { ReadsForTurn M.Media (medium_of (asked query.now).medium) self.old self.new media.old media.new result }
    {
        if self.failed {
            return Err(ReadRefused::Fault);
        }
        if let Medium::Incident(id) = query.medium {
            return Ok(self.stretch_of_incident(id));
        }
        self.stretch_of_window(number_of(query.medium), media)
    }

    /// What is read next of a stretch: so much as stands in the next segment that may have a record that the query selects. `Gone` exactly where not
    /// all places of the stretch stand in segments. Reads nothing, and takes no memory.
    pub fn part_of(&self, query: &Query, stretch: Stretch) -> Part
        ensures gone { (placed : List Placed) → Tells (ring_for self.now (asked query.now)).slots placed (ring_for self.now (asked query.now)).directory → AreInOrder placed
            → (result ≡ Gone) ↔ (HoldAll stretch.next stretch.last placed → ⊥) }
        ensures over { result ≡ Over → (placed : List Placed) → Tells (ring_for self.now (asked query.now)).slots placed (ring_for self.now (asked query.now)).directory
            → AreInOrder placed → found (asked query.now) (Some (PlacesOf stretch.next stretch.last)) (all_records placed) ≡ [] }
        ensures within { (end : ℕ) → result ≡ Upto end → (stretch.next ≤ end) × (end ≤ stretch.last) }
        ensures one { (end : ℕ) (placed : List Placed) → result ≡ Upto end → Tells (ring_for self.now (asked query.now)).slots placed (ring_for self.now (asked query.now)).directory
            → AreInOrder placed → budget (ring_for self.now (asked query.now)) (asked query.now) (PlacesOf stretch.next end) None ≤ (ring_for self.now (asked query.now)).segment }
    {
        let ring = self.ring(number_of(query.medium));
        if !ring.holds(stretch.next, stretch.last) {
            return Part::Gone;
        }
        match ring.part_end(query, stretch.next, stretch.last) {
            Some(end) => Part::Upto(end),
            None => Part::Over,
        }
    }

    /// Steps to the next record that the query selects at the places of a part. False exactly where no further one is there. Reads the query's
    /// medium alone, and of a part as `part_of` gives it one segment at most. Takes no memory.
    ///
    /// The cursor is new, or its last step was for this query and this part, and no other cursor's came since (`may`).
    ///
    /// `Fault`: a write had failed before, and nothing was called; or a read failed, and the count of faults of that medium rose.
    /// `Damaged` names that medium, and where the slot of a segment is damaged. It never comes of media that hold what was recorded.
    pub fn step_within<M: Media>(
        &mut self,
        media: &mut M,
        query: &Query,
        part: Stretch,
        cursor: &mut Cursor,
    ) -> Result<bool, ReadRefused>
        requires rings { AreRings self.old (M.disk media.old).sizes }
        requires may { MayStep (ring_for self.old (asked query.now)) cursor.old }
        ensures plays { (opening : Opening) (events : List Event) (placed : ℕ → List Placed) (records : List Entry) → M.tells → IsReadable opening events self.old placed (M.disk media.old)
            → AreLeftWithin (asked query.now) part self.old placed (M.disk media.old) cursor.old records
            → GivesNext records result cursor.new.visit.item (AreLeftWithin (asked query.now) part self.new placed (M.disk media.new) cursor.new) }
        ensures cursor { StandsAfter (ring_for self.new (asked query.now)) cursor.new result }
        ensures steps { StepsWithin M.Media (asked query.now) part self.old self.new cursor.old cursor.new media.old media.new result }
        ensures keeps { KeepsPlayed M.Media (medium_of (asked query.now).medium) self.old self.new media.old media.new }
        ensures reads { ReadsForTurn M.Media (medium_of (asked query.now).medium) self.old self.new media.old media.new result }
    {
        if self.failed {
            *cursor = Cursor::new();
            return Err(ReadRefused::Fault);
        }
        let selection = Selection {
            span: Span::Places {
                a: part.next,
                b: part.last,
            },
            query: *query,
        };
        self.step_on(number_of(query.medium), media, &selection, cursor)
    }
}
