// The turns of a play that somebody is told of.
ghost use Rattle.std.specs.Prelude.{◌≡◌, ◌≤◌, ◌<◌, ◌↔◌, ◌++◌, [], ℕ, List, true, length, Ok, Err, IfOk};
ghost use Rattle.vdr_core.specs.Histories.{Event, Opening};
ghost use Rattle.vdr_core.specs.Histories.Act.{Look};
ghost use Rattle.vdr_directory.specs.Sequence.{Placed};
ghost use Rattle.vdr_entry.specs.Queries.{asked};
ghost use Rattle.vdr_ring.specs.declared.refused.ReadRefused.TheVariants.{Damaged, Fault as AFault};
ghost use Rattle.vdr_vault.specs.Vaults.{AreRings, IsReadable};
ghost use Rattle.vdr_recorder.specs.Looks.{HasLooked};
ghost use Rattle.vdr_recorder.specs.Recordings.{HasRecorded};
ghost use Rattle.vdr_recorder.specs.Resuming.{HasPlayedOn, IsGone, IsPlaying, places_left};
ghost use Rattle.vdr_recorder.specs.Watched.{DoneAndTold, IsWatched};
ghost use Rattle.vdr_recorder.specs.declared.resume.Going.TheVariants.{Gone, More};

use crate::watched::tell;
use crate::{Going, OpenPlay, Recorder, Turn, Watch};
use vdr_entry::Query;
use vdr_outside::Media;
use vdr_piece::Piece;
use vdr_ring::ReadRefused;

impl Recorder {
    /// Begins a play as `begin_play` does, and tells of the look.
    pub fn begin_play_watched<M: Media, W: Watch<M>>(
        &mut self,
        media: &mut M,
        watch: &mut W,
        query: &Query,
    ) -> Result<OpenPlay, ReadRefused>
        requires rings { AreRings self.old.vault (M.disk media.old).sizes }
        requires watched { IsWatched W.hears (W.seen watch.old) self.old (M.disk media.old) }
        ensures asks { IfOk result (λ p. p.query ≡ query.now) }
        ensures begins { (opening : Opening) (events : List Event) (placed : ℕ → List Placed) → M.tells → IsReadable opening events self.old.vault placed (M.disk media.old)
            → IfOk result (IsPlaying opening events []) }
        ensures undamaged { (opening : Opening) (events : List Event) (placed : ℕ → List Placed) (m offset : ℕ) → M.tells → IsReadable opening events self.old.vault placed (M.disk media.old)
            → result ≡ Err (Damaged m offset) → ⊥ }
        ensures looked { HasLooked (asked query.now) self.old self.new (M.disk media.old) (M.disk media.new) (M.bytes_read media.old) (M.bytes_read media.new) (M.faults media.old) (M.faults media.new) (result ≡ Err AFault) }
        ensures told { (opening : Opening) (events : List Event) (t0 : ℕ) → HasRecorded opening events t0 self.old (M.disk media.old)
            → DoneAndTold W.hears opening events t0 Look self.new (M.disk media.old) (M.disk media.new) (W.seen watch.old) (W.seen watch.new) }
        ensures watched { IsWatched W.hears (W.seen watch.new) self.new (M.disk media.new) }
    {
        let begun = self.begin_play(media, query);
        tell(watch, media, !self.failed(), Turn::Look);
        begun
    }

    /// Prints on as `play_on` does, and tells of the look.
    pub fn play_on_watched<M: Media, W: Watch<M>>(
        &mut self,
        media: &mut M,
        watch: &mut W,
        play: &mut OpenPlay,
        piece: &mut Piece,
    ) -> Result<Going, ReadRefused>
        requires rings { AreRings self.old.vault (M.disk media.old).sizes }
        requires room { length piece.old.bytes.items < 65_536 }
        requires watched { IsWatched W.hears (W.seen watch.old) self.old (M.disk media.old) }
        ensures asks { play.new.query ≡ play.old.query }
        ensures played { (opening : Opening) (before later : List Event) (placed : ℕ → List Placed) (printed : List ℕ) → M.tells
            → IsReadable opening (before ++ later) self.old.vault placed (M.disk media.old) → IsPlaying opening before printed play.old
            → (more : List ℕ) × (piece.new.bytes.items ≡ piece.old.bytes.items ++ more) × HasPlayedOn opening before (printed ++ more) play.new result }
        ensures lost { (opening : Opening) (events : List Event) (placed : ℕ → List Placed) (place : ℕ) → M.tells → IsReadable opening events self.old.vault placed (M.disk media.old)
            → result ≡ Ok (Gone place) → IsGone opening events (asked play.new.query) play.new.stretch }
        ensures room { length piece.new.bytes.items ≤ 262_079 }
        ensures onward { result ≡ Ok More → places_left play.new < places_left play.old }
        ensures failed { self.old.vault.failed ≡ true → (self.new ≡ self.old) × (piece.new ≡ piece.old) × (result ≡ Err AFault) }
        ensures looked { HasLooked (asked play.old.query) self.old self.new (M.disk media.old) (M.disk media.new) (M.bytes_read media.old) (M.bytes_read media.new) (M.faults media.old) (M.faults media.new) (result ≡ Err AFault) }
        ensures told { (opening : Opening) (events : List Event) (t0 : ℕ) → HasRecorded opening events t0 self.old (M.disk media.old)
            → DoneAndTold W.hears opening events t0 Look self.new (M.disk media.old) (M.disk media.new) (W.seen watch.old) (W.seen watch.new) }
        ensures watched { IsWatched W.hears (W.seen watch.new) self.new (M.disk media.new) }
    {
        let went = self.play_on(media, play, piece);
        tell(watch, media, !self.failed(), Turn::Look);
        went
    }
}
