// Playing what a query selects, record by record, from the medium that has it.
ghost use Rattle.std.specs.Prelude.{◌≡◌, ◌≢◌, ◌<◌, ◌↔◌, ℕ, List, true, None, Some, Ok, Err, All, option_map, get_or};
ghost use Rattle.vdr_terms.specs.Records.{Record as Entry, last, second};
ghost use Rattle.vdr_terms.specs.Queries.Span.{Window};
ghost use Rattle.vdr_core.specs.Histories.{Event, Opening};
ghost use Rattle.vdr_durability.specs.Playback.{medium_of, selected};
ghost use Rattle.vdr_entry.specs.declared.query.Query.{Query as Asked};
ghost use Rattle.vdr_entry.specs.Queries.{asked, asked_medium};
ghost use Rattle.vdr_directory.specs.Sequence.{Placed, all_records};
ghost use Rattle.vdr_directory.specs.Holds.{Tells};
ghost use Rattle.vdr_ring.specs.Rings.{Reads};
ghost use Rattle.vdr_opening.specs.Answers.{members_on};
ghost use Rattle.vdr_vault.specs.Vaults.{AreRings, IsReadable, VaultState, ring_of};
ghost use Rattle.vdr_index.specs.Indexes.{span_as};
ghost use Rattle.vdr_ring.specs.Budgets.{Spends};
ghost use Rattle.vdr_ring.specs.Steps.{KeepsStep, TellsDamage};
ghost use Rattle.vdr_ring.specs.Walks.{AreLeft, GivesNext, MayStep, new_cursor, slots_read};
ghost use Rattle.vdr_vault.specs.Keeps.{KeepsPlayed, ReadsForPlay, StandsAfter, StepsAmong};
ghost use Rattle.vdr_vault.specs.Plays.{AreOfSegments, AreToCome, ReadsOn, budget_for, ring_for, span_by, span_in, whole_budget};

use crate::Vault;
use vdr_durability::law_of_playback;
use vdr_entry::{Medium, Query};
use vdr_incident::LONG_TERM;
use vdr_index::{Selection, Span};
use vdr_outside::Media;
use vdr_ring::{Cursor, ReadRefused, Ring, law_of_budget};

// The window that ends with the second of a medium's last record. None where it has no record.
fn window_of(ring: &Ring, seconds: u64) -> Option<Span>
    ensures kept { option_map span_as result ≡ option_map (λ e. Window (second e.tick) seconds) ring.now.directory.ending }
    ensures last { (placed : List Placed) → Tells ring.now.slots placed ring.now.directory
        → option_map span_as result ≡ option_map (λ r. Window (second r.tick) seconds) (last (all_records placed)) }
{
    let (_, tick, _) = ring.last()?;
    Some(Span::Window {
        last: tick / 1000,
        seconds,
    })
}

// The number of the medium that a query of this one reads.
pub(crate) fn number_of(medium: Medium) -> u8
    ensures number { result ≡ medium_of (asked_medium medium) }
    ensures member { result < 2 }
{
    match medium {
        Medium::Capsule => 0,
        Medium::LongTerm | Medium::Incident(_) => LONG_TERM,
    }
}

/// What a whole play reads at most: a segment's bytes for each segment of the query's medium that meets it.
pub fn law_of_budgets<M: Media>(media: &M)
    ensures { (query : Asked) (opening : Opening) (events : List Event) (vault : VaultState) (placed : ℕ → List Placed) → IsReadable opening events vault placed (M.disk media.now)
        → AreOfSegments (asked query) vault placed (span_in vault placed (asked query).medium) }
{
    law_of_budget();
}

impl Vault {
    // What the query's medium comes to. None where it has no record, or the incident is not live.
    fn span_of(&self, medium: Medium) -> Option<Span>
        ensures kept { option_map span_as result ≡ span_by self.now (asked_medium medium) }
        ensures last { (placed : ℕ → List Placed) → All (λ m. Tells (ring_of self.now m).slots (placed m) (ring_of self.now m).directory) (members_on self.now.rings)
            → option_map span_as result ≡ span_in self.now placed (asked_medium medium) }
    {
        if let Medium::Incident(id) = medium {
            let save = self.table.live(id)?;
            return Some(Span::Places {
                a: save.a,
                b: save.b,
            });
        }
        let m = number_of(medium);
        window_of(self.ring(m), self.config.window(m))
    }

    // Steps on medium m.
    pub(crate) fn step_on<M: Media>(
        &mut self,
        m: u8,
        media: &mut M,
        selection: &Selection,
        cursor: &mut Cursor,
    ) -> Result<bool, ReadRefused>
        requires member { m < 2 }
        requires rings { AreRings self.old (M.disk media.old).sizes }
        requires may { MayStep (ring_of self.old m) cursor.old }
        ensures vault { ReadsOn m self.old self.new }
        ensures keeps { KeepsStep M.Media (asked selection.now.query) (span_as selection.now.span) (ring_of self.old m) (ring_of self.new m) cursor.old cursor.new media.old media.new result }
        ensures plays { M.tells → (placed : List Placed) (records : List Entry) → Reads (ring_of self.old m) placed (M.disk media.old)
            → AreLeft (slots_read (ring_of self.old m) (M.disk media.old)) placed (asked selection.now.query) (Some (span_as selection.now.span)) cursor.old records
            → GivesNext records result cursor.new.visit.item
            (AreLeft (slots_read (ring_of self.old m) (M.disk media.old)) placed (asked selection.now.query) (Some (span_as selection.now.span)) cursor.new) }
        ensures tells { TellsDamage (asked selection.now.query) (span_as selection.now.span) (ring_of self.old m) (M.disk media.old) cursor.old cursor.new result }
    {
        cursor.step(&mut self.rings[m as usize], media, selection)
    }

    /// Steps to the first record that the query selects, wherever the cursor stood. False exactly where it selects none, as of an
    /// incident that is not live. Reads the query's medium alone: of the capsule's window the capsule, else the long-term medium.
    /// This step and those of `next` behind it, however many, read at most a segment for each that may have a record that is selected
    /// (`spends`). Takes no memory.
    ///
    /// `Fault`: a write had failed before, and nothing was called; or a read failed, and the count of faults of that medium rose.
    /// `Damaged` names that medium, and where the slot of a segment that meets the query is damaged, as `vdr_ring::Ring::read_span` does.
    /// None is passed over: where false is answered, all segments that meet the query are intact (`steps`). It never comes of media that
    /// hold what was recorded, regular or not.
    pub fn first<M: Media>(
        &mut self,
        media: &mut M,
        query: &Query,
        cursor: &mut Cursor,
    ) -> Result<bool, ReadRefused>
        requires rings { AreRings self.old (M.disk media.old).sizes }
        ensures plays { (opening : Opening) (events : List Event) (placed : ℕ → List Placed) → M.tells → IsReadable opening events self.old placed (M.disk media.old)
            → GivesNext (selected opening events (asked query.now)) result cursor.new.visit.item (AreToCome (asked query.now) self.new placed (M.disk media.new) cursor.new) }
        ensures cursor { StandsAfter (ring_for self.new (asked query.now)) cursor.new result }
        ensures steps { StepsAmong M.Media (asked query.now) self.old self.new new_cursor cursor.new media.old media.new result }
        ensures keeps { KeepsPlayed M.Media (medium_of (asked query.now).medium) self.old self.new media.old media.new }
        ensures reads { ReadsForPlay M.Media (medium_of (asked query.now).medium) self.old self.new media.old media.new result }
        ensures spends { Spends (medium_of (asked query.now).medium) (whole_budget self.old (asked query.now)) (budget_for self.new (asked query.now) cursor.new.standing)
            (M.bytes_read media.old) (M.bytes_read media.new) result }
    {
        law_of_playback();
        *cursor = Cursor::new();
        self.next(media, query, cursor)
    }

    /// Steps to the next record that the query selects. False exactly where no further one is there. Reads the query's medium
    /// alone: of the capsule's window the capsule, else the long-term medium. The segment in which the cursor stands is read again
    /// only where another slot was loaded since. Takes no memory.
    ///
    /// The cursor is new, or its last step was for this query, and no other cursor's came since (`may`).
    ///
    /// `Fault`: a write had failed before, and nothing was called; or a read failed, and the count of faults of that medium rose.
    /// `Damaged` names that medium, and where the slot of a segment that meets the query is damaged, as `vdr_ring::Ring::read_span` does.
    /// None is passed over: where false is answered, all segments that meet the query are intact (`steps`). It never comes of media that
    /// hold what was recorded, regular or not.
    pub fn next<M: Media>(
        &mut self,
        media: &mut M,
        query: &Query,
        cursor: &mut Cursor,
    ) -> Result<bool, ReadRefused>
        requires rings { AreRings self.old (M.disk media.old).sizes }
        requires may { MayStep (ring_for self.old (asked query.now)) cursor.old }
        ensures plays { (opening : Opening) (events : List Event) (placed : ℕ → List Placed) (records : List Entry) → M.tells → IsReadable opening events self.old placed (M.disk media.old)
            → AreToCome (asked query.now) self.old placed (M.disk media.old) cursor.old records
            → GivesNext records result cursor.new.visit.item (AreToCome (asked query.now) self.new placed (M.disk media.new) cursor.new) }
        ensures cursor { StandsAfter (ring_for self.new (asked query.now)) cursor.new result }
        ensures steps { StepsAmong M.Media (asked query.now) self.old self.new cursor.old cursor.new media.old media.new result }
        ensures keeps { KeepsPlayed M.Media (medium_of (asked query.now).medium) self.old self.new media.old media.new }
        ensures reads { ReadsForPlay M.Media (medium_of (asked query.now).medium) self.old self.new media.old media.new result }
        ensures spends { Spends (medium_of (asked query.now).medium) (budget_for self.old (asked query.now) cursor.old.standing) (budget_for self.new (asked query.now) cursor.new.standing)
            (M.bytes_read media.old) (M.bytes_read media.new) result }
    {
        if self.failed {
            *cursor = Cursor::new();
            return Err(ReadRefused::Fault);
        }
        let Some(span) = self.span_of(query.medium) else {
            *cursor = Cursor::new();
            return Ok(false);
        };
        let selection = Selection {
            span,
            query: *query,
        };
        self.step_on(number_of(query.medium), media, &selection, cursor)
    }
}
