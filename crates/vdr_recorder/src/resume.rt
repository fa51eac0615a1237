// A play that goes on in turns, with other calls between them.
//
// A piece is printed at a time: of one segment at most, and no further than it is full. A record is never cut, since one
// that is begun in a piece which is not full has room in it.
ghost use Rattle.std.specs.Prelude.{◌≡◌, ◌≤◌, ◌<◌, ◌↔◌, ◌++◌, [], ℕ, List, Some, true, length, Ok, Err, IfOk};
ghost use Rattle.vdr_terms.specs.Queries.Span.{Places as PlacesOf};
ghost use Rattle.vdr_core.specs.Histories.{Event, Opening};
ghost use Rattle.vdr_durability.specs.Playback.{found, medium_of};
ghost use Rattle.vdr_directory.specs.Costs.{ReadsAtMost};
ghost use Rattle.vdr_directory.specs.Lookup.{HoldAll};
ghost use Rattle.vdr_directory.specs.Sequence.{Placed, all_records};
ghost use Rattle.vdr_entry.specs.Queries.{asked};
ghost use Rattle.vdr_play.specs.Streams.{seen_after};
ghost use Rattle.vdr_play.specs.Texts.{record_text};
ghost use Rattle.vdr_ring.specs.Budgets.{budget};
ghost use Rattle.vdr_ring.specs.declared.refused.ReadRefused.TheVariants.{Damaged, Fault as AFault};
ghost use Rattle.vdr_vault.specs.Plays.{ring_for};
ghost use Rattle.vdr_vault.specs.Refusals.{HasVisitCause};
ghost use Rattle.vdr_vault.specs.Stretches.{NamesDamageOf};
ghost use Rattle.vdr_vault.specs.Vaults.{AreRings, IsReadable};
ghost use Rattle.vdr_vault.specs.Visits.{HasOnlyRead};
ghost use Rattle.vdr_recorder.specs.Looks.{HasLooked};
ghost use Rattle.vdr_recorder.specs.Resuming.{HasPlayedOn, HasPrintedPart, IsGone, IsPlaying, Passes, places_left};
ghost use Rattle.vdr_recorder.specs.declared.resume.Going.TheVariants.{Gone, More};

use crate::Recorder;
use vdr_entry::{Query, Record};
use vdr_outside::Media;
use vdr_piece::{FULL, Piece};
use vdr_play::{Tracks, print_record};
use vdr_ring::{Cursor, ReadRefused};
use vdr_vault::{Part, Stretch, Vault};

/// A play that is begun: what it asks for, the places that are still to be printed, and what was seen of images and of sound.
#[derive(Drop)]
pub struct OpenPlay {
    pub(crate) query: Query,
    pub(crate) stretch: Stretch,
    pub(crate) tracks: Tracks,
}

/// How a turn of a play has left it.
#[derive(Clone, Copy, Debug, PartialEq, Eq, Drop)]
pub enum Going {
    /// All of it is printed.
    All,
    /// There may be more to print.
    More,
    /// At this place or behind it a record that was to be printed was written over.
    Gone(u64),
}

// Prints a record into a piece that is not full, in which it has room.
fn print_whole(item: &Record, tracks: &mut Tracks, piece: &mut Piece)
    requires { length piece.old.bytes.items < 65_536 }
    ensures printed { piece.new.bytes.items ≡ piece.old.bytes.items ++ record_text tracks.old item.now }
    ensures seen { tracks.new ≡ seen_after tracks.old item.now.content }
    ensures room { length piece.new.bytes.items ≤ 262_079 }
{
    // A record that is legal has at most so much text.
    let _content = item.content();
    let _ = print_record(item, tracks, piece);
}

// Prints the records of a part, until the piece is full. Gives the place up to which all are printed.
fn print_part<M: Media>(
    vault: &mut Vault,
    media: &mut M,
    query: &Query,
    part: Stretch,
    tracks: &mut Tracks,
    piece: &mut Piece,
) -> Result<u64, ReadRefused>
    requires rings { AreRings vault.old (M.disk media.old).sizes }
    requires room { length piece.old.bytes.items < 65_536 }
    ensures printed { (opening : Opening) (events : List Event) (placed : ℕ → List Placed) → M.tells → IsReadable opening events vault.old placed (M.disk media.old)
        → HasPrintedPart (found (asked query.now) (Some (PlacesOf part.next part.last)) (all_records (placed (medium_of (asked query.now).medium)))) part.last tracks.old tracks.new
        piece.old.bytes.items piece.new.bytes.items result }
    ensures room { length piece.new.bytes.items ≤ 262_079 }
    ensures damage { NamesDamageOf (asked query.now) vault.old (M.disk media.old) (λ m offset. result ≡ Err (Damaged m offset)) }
    ensures read { HasOnlyRead (asked query.now) vault.old vault.new (M.disk media.old) (M.disk media.new) (M.bytes_read media.old) (M.bytes_read media.new) }
    ensures bound { (n : ℕ) → budget (ring_for vault.old (asked query.now)) (asked query.now) (PlacesOf part.next part.last) None ≤ n
        → ReadsAtMost (medium_of (asked query.now).medium) n (M.bytes_read media.old) (M.bytes_read media.new) }
    ensures cause { HasVisitCause (medium_of (asked query.now).medium) vault.old.failed (M.faults media.old) (M.faults media.new) (result ≡ Err AFault) }
{
    let mut cursor = Cursor::new();
    let mut upto = part.next;
    while piece.len() < FULL {
        match vault.step_within(media, query, part, &mut cursor) {
            Ok(true) => {}
            Ok(false) => return Ok(part.last),
            Err(refused) => return Err(refused),
        }
        let Some(item) = cursor.item() else {
            unreachable!()
        };
        upto = item.place;
        print_whole(item, tracks, piece);
    }
    Ok(upto)
}

impl OpenPlay {
    // Goes on behind this place.
    fn pass(&mut self, upto: u64) -> Going
        ensures same { (self.new.query ≡ self.old.query) × (self.new.tracks ≡ self.old.tracks) }
        ensures passes { self.old.stretch.next ≤ upto → Passes self.old.stretch self.new.stretch upto result }
        ensures there { (place : ℕ) → result ≡ Gone place → ⊥ }
        ensures onward { result ≡ More → places_left self.new < places_left self.old }
    {
        let passed = self.stretch.next.max(upto);
        if self.stretch.last <= passed {
            return Going::All;
        }
        self.stretch.next = passed + 1;
        Going::More
    }
}

impl Recorder {
    /// Begins a play of all that a query selects now, and prints nothing. Of a window the segment is read in which it begins. Takes no memory.
    /// An incident that is not live has nothing to print.
    ///
    /// `Fault`: a write had failed before, and nothing was called; or a read failed, and the count of faults of that medium rose.
    /// `Damaged` names that medium, and where the slot of that segment is damaged. It never comes of media that hold what was recorded.
    pub fn begin_play<M: Media>(
        &mut self,
        media: &mut M,
        query: &Query,
    ) -> Result<OpenPlay, ReadRefused>
        requires rings { AreRings self.old.vault (M.disk media.old).sizes }
        ensures asks { IfOk result (λ p. p.query ≡ query.now) }
        ensures begins { (opening : Opening) (events : List Event) (placed : ℕ → List Placed) → M.tells → IsReadable opening events self.old.vault placed (M.disk media.old)
            → IfOk result (IsPlaying opening events []) }
        ensures undamaged { (opening : Opening) (events : List Event) (placed : ℕ → List Placed) (m offset : ℕ) → M.tells → IsReadable opening events self.old.vault placed (M.disk media.old)
            → result ≡ Err (Damaged m offset) → ⊥ }
        ensures damage { NamesDamageOf (asked query.now) self.old.vault (M.disk media.old) (λ m offset. result ≡ Err (Damaged m offset)) }
        ensures failed { self.old.vault.failed ≡ true → (self.new ≡ self.old) × (media.new ≡ media.old) × (result ≡ Err AFault) }
        ensures looked { HasLooked (asked query.now) self.old self.new (M.disk media.old) (M.disk media.new) (M.bytes_read media.old) (M.bytes_read media.new) (M.faults media.old) (M.faults media.new) (result ≡ Err AFault) }
    {
        let stretch = match self.vault.stretch_of(media, query) {
            Ok(stretch) => stretch,
            Err(refused) => return Err(refused),
        };
        Ok(OpenPlay {
            query: *query,
            stretch,
            tracks: Tracks::new(),
        })
    }

    /// Prints on behind what stands in the piece, from at most one segment and until the piece is full, and says whether there is more. Each
    /// record is printed whole, as `vdr_play::print_record` does. What is printed in all turns is the text of all that the query selected as the
    /// play began, whatever else was done between them. Takes no memory.
    ///
    /// `Gone` exactly where not all places that are still to be printed stand on the medium; then nothing is printed in that turn.
    ///
    /// `Fault`: a write had failed before, and nothing was called; or a read failed, and the count of faults of that medium rose. `Damaged` names
    /// that medium, and where a slot is damaged. It never comes of media that hold what was recorded. After either the play is over: whole
    /// records are printed.
    pub fn play_on<M: Media>(
        &mut self,
        media: &mut M,
        play: &mut OpenPlay,
        piece: &mut Piece,
    ) -> Result<Going, ReadRefused>
        requires rings { AreRings self.old.vault (M.disk media.old).sizes }
        requires room { length piece.old.bytes.items < 65_536 }
        ensures asks { play.new.query ≡ play.old.query }
        ensures played { (opening : Opening) (before later : List Event) (placed : ℕ → List Placed) (printed : List ℕ) → M.tells
            → IsReadable opening (before ++ later) self.old.vault placed (M.disk media.old) → IsPlaying opening before printed play.old
            → (more : List ℕ) × (piece.new.bytes.items ≡ piece.old.bytes.items ++ more) × HasPlayedOn opening before (printed ++ more) play.new result }
        ensures gone { (opening : Opening) (events : List Event) (placed : ℕ → List Placed) → M.tells → IsReadable opening events self.old.vault placed (M.disk media.old)
            → ((place : ℕ) × (result ≡ Ok (Gone place))) ↔ (HoldAll play.old.stretch.next play.old.stretch.last (placed (medium_of (asked play.old.query).medium)) → ⊥) }
        ensures lost { (opening : Opening) (events : List Event) (placed : ℕ → List Placed) (place : ℕ) → M.tells → IsReadable opening events self.old.vault placed (M.disk media.old)
            → result ≡ Ok (Gone place) → IsGone opening events (asked play.new.query) play.new.stretch }
        ensures room { length piece.new.bytes.items ≤ 262_079 }
        ensures onward { result ≡ Ok More → places_left play.new < places_left play.old }
        ensures damage { NamesDamageOf (asked play.old.query) self.old.vault (M.disk media.old) (λ m offset. result ≡ Err (Damaged m offset)) }
        ensures failed { self.old.vault.failed ≡ true → (self.new ≡ self.old) × (media.new ≡ media.old) × (piece.new ≡ piece.old) × (result ≡ Err AFault) }
        ensures looked { HasLooked (asked play.old.query) self.old self.new (M.disk media.old) (M.disk media.new) (M.bytes_read media.old) (M.bytes_read media.new) (M.faults media.old) (M.faults media.new) (result ≡ Err AFault) }
        ensures bound { (opening : Opening) (events : List Event) (placed : ℕ → List Placed) → M.tells → IsReadable opening events self.old.vault placed (M.disk media.old)
            → ReadsAtMost (medium_of (asked play.old.query).medium) (ring_for self.old.vault (asked play.old.query)).segment (M.bytes_read media.old) (M.bytes_read media.new) }
    {
        if self.vault.failed() {
            return Err(ReadRefused::Fault);
        }
        let end = match self.vault.part_of(&play.query, play.stretch) {
            Part::Gone => return Ok(Going::Gone(play.stretch.next)),
            Part::Over => return Ok(Going::All),
            Part::Upto(end) => end,
        };
        let part = Stretch {
            next: play.stretch.next,
            last: end,
        };
        let printed = print_part(
            &mut self.vault,
            media,
            &play.query,
            part,
            &mut play.tracks,
            piece,
        );
        let upto = match printed {
            Ok(upto) => upto,
            Err(refused) => return Err(refused),
        };
        Ok(play.pass(upto))
    }
}
