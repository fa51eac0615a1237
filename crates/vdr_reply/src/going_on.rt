// A play over a link: its further turns.
//
// Each prints a piece, whose records were written before the order. A line behind them ends the play.
ghost use Rattle.std.specs.Prelude.{◌≡◌, ◌≤◌, ◌<◌, ◌+◌, ◌++◌, ℕ, List, [], IfSome, length, sum};
ghost use Rattle.vdr_core.specs.Histories.{Act, Event, Opening};
ghost use Rattle.vdr_durability.specs.Keeping.{moment_of};
ghost use Rattle.vdr_outside.specs.Causes.{Rose};
ghost use Rattle.vdr_media.specs.Formatted.{members};
ghost use Rattle.vdr_vault.specs.Calls.{SameElsewhere};
ghost use Rattle.vdr_vault.specs.Vaults.{AreRings};
ghost use Rattle.vdr_recorder.specs.Recordings.{HasRecorded};
ghost use Rattle.vdr_recorder.specs.Watched.{DoneAndTold, IsWatched};
ghost use Rattle.vdr_desk.specs.Answers.{Answer, seen_by};
ghost use Rattle.vdr_reply.specs.Answers.{HasGoneOn, HasOrderCause, LeavesRest};
ghost use Rattle.vdr_reply.specs.Plays.{EndsTurn, IsWaiting, left_of};
ghost use Rattle.vdr_reply.specs.Texts.{gone_line};

use crate::Rest;
use crate::lines::{DAMAGED, FAULT};
use itoa::Buffer;
use vdr_desk::Piece;
use vdr_outside::Media;
use vdr_recorder::{Going, OpenPlay, Recorder, Watch};
use vdr_ring::ReadRefused;

// From which place on records are gone.
fn push_gone(piece: &mut Piece, place: u64)
    requires { length piece.old.bytes.items ≤ 262_079 }
    ensures { piece.new.bytes.items ≡ piece.old.bytes.items ++ gone_line place }
{
    piece.push(b"GONE ");
    piece.push(Buffer::new().format(place).as_bytes());
    piece.push(b"\n");
}

// Ends a turn of a play: by its last line, where there is nothing left to print or nothing that can be.
fn end_turn(went: Result<Going, ReadRefused>, play: OpenPlay, piece: &mut Piece) -> Option<Rest>
    requires { length piece.old.bytes.items ≤ 262_079 }
    ensures { EndsTurn went play piece.old.bytes.items piece.new.bytes.items result }
{
    match went {
        Ok(Going::More) => return Some(Rest { play }),
        Ok(Going::All) => piece.push(b".\n"),
        Ok(Going::Gone(place)) => push_gone(piece, place),
        Err(ReadRefused::Fault) => piece.push(FAULT),
        Err(ReadRefused::Damaged { .. }) => piece.push(DAMAGED),
    }
    None
}

/// Goes on with an answer, in a turn of its own, behind whatever happened since its last one. The piece is empty; it is filled with what is sent in
/// this turn. The turn is a look, of which the watch is told unless it met a fault, and reads one segment at most.
///
/// A play sends whole records, as many as fill the piece, of those that were there as it was ordered. It ends with a line `.`, or is cut behind a
/// record: by `GONE` and the first of the places that are left, where not all of these stand any more, and by `FAULT 5` once a read fails or the
/// media have failed. Takes no memory.
pub fn go_on<M: Media, W: Watch<M>>(
    recorder: &mut Recorder,
    media: &mut M,
    watch: &mut W,
    rest: Rest,
    piece: &mut Piece,
) -> Option<Rest>
    requires rings { AreRings recorder.old.vault (M.disk media.old).sizes }
    requires watched { IsWatched W.hears (W.seen watch.old) recorder.old (M.disk media.old) }
    requires empty { piece.old.bytes.items ≡ [] }
    ensures falls { IfSome result (λ after. left_of after < left_of rest) }
    ensures done { (opening : Opening) (events : List Event) (t0 : ℕ) → HasRecorded opening events t0 recorder.old (M.disk media.old)
        → DoneAndTold W.hears opening events t0 Act.Look recorder.new (M.disk media.old) (M.disk media.new) (W.seen watch.old) (W.seen watch.new) }
    ensures went { (opening : Opening) (a : Answer Event) (later : List Event) (t0 : ℕ) → M.tells → HasRecorded opening (seen_by a ++ later) t0 recorder.old (M.disk media.old)
        → IsWaiting recorder.old.vault.config.channels opening a rest
        → HasGoneOn recorder.old.vault.config.channels (Rose (sum (M.faults media.old)) (sum (M.faults media.new))) opening a later (moment_of recorder.new.vault.failed (M.disk media.new).clock) piece.new.bytes.items result }
    ensures rest { LeavesRest recorder.old recorder.new }
    ensures rings { AreRings recorder.new.vault (M.disk media.new).sizes }
    ensures others { M.tells → SameElsewhere members (M.disk media.old).reads (M.disk media.new).reads }
    ensures sizes { (M.disk media.new).sizes ≡ (M.disk media.old).sizes }
    ensures watched { IsWatched W.hears (W.seen watch.new) recorder.new (M.disk media.new) }
    ensures cause { HasOrderCause recorder.old.vault.failed recorder.new.vault.failed (M.faults media.old) (M.faults media.new) }
{
    let Rest { mut play } = rest;
    let went = recorder.play_on_watched(media, watch, &mut play, piece);
    end_turn(went, play, piece)
}
