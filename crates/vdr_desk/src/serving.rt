// The worker of a link.
ghost use Rattle.std.specs.Prelude.{◌≡◌, ◌<◌, ℕ, List, Some, false, length, slice_index_or};
ghost use mathlib.Core.List.{IsPrefix};
ghost use Rattle.vdr_latch.specs.Passes.{Passing};
ghost use Rattle.vdr_capture.specs.declared.lane.Cause.TheVariants.{Failed};
ghost use Rattle.vdr_desk.specs.Answers.{IsBegun};
ghost use Rattle.vdr_desk.specs.Exchanges.{AreServed, Exchange};
ghost use Rattle.vdr_desk.specs.Links.{Converses};
ghost use Rattle.vdr_desk.specs.Desks.{Serves};

use crate::telling::{answer_line, refuse};
use crate::{Answers, Desk};
use arrayvec::ArrayVec;
use std::alloc::Global;
use std::sync::Wait;
use std::thread;
use std::thread::Threads;
use vdr_capture::Cause;
use vdr_latch::{Latch, LatchPass};
use vdr_outside::{Heard, Link};
use vdr_piece::Piece;

// Answers the lines of the link of the desk of this number until it answers that none is left, a call of it fails, or so many calls for a line were made.
fn serve<T: Answers, L: Link, R: Wait>(
    rt: &R,
    latch: &Latch<T>,
    alloc: Global,
    number: usize,
    pass: &mut LatchPass<T::Event>,
    link: &mut L,
    piece: &mut Piece,
    turns: u64,
) -> Cause
    requires latch { pass.old.latch ≡ latch.now }
    requires follows { pass.old.leads ≡ false }
    ensures pass { (pass.new.latch ≡ pass.old.latch) × (pass.new.parts ≡ pass.old.parts) × (pass.new.leads ≡ pass.old.leads) }
    ensures served { (exchanges : List Exchange) × Converses L.Link turns link.old link.new exchanges result
        × AreServed (T.answers number) (IsBegun (T.waits number)) pass.new.seen (result ≡ Failed) (length pass.old.seen) exchanges (length pass.new.seen) }
{
    let mut line = ArrayVec::new();
    for _turn in 0..turns {
        let said = match link.line(&mut line) {
            Heard::Line => {
                answer_line(rt, latch, alloc, pass, number, link, line.as_slice(), piece)
            }
            Heard::Long => refuse(link),
            Heard::Quiet => continue,
            Heard::Ended => return Cause::Ended,
            Heard::Failed => return Cause::Failed,
        };
        if said.is_err() {
            return Cause::Failed;
        }
    }
    Cause::Turns
}

// Serves the link of the desk of this number, which holds a pass.
fn serve_desk<T: Answers, L: Link, R: Wait>(
    rt: &R,
    latch: &Latch<T>,
    alloc: Global,
    number: usize,
    desk: &mut Desk<L, T::Event>,
    turns: u64,
)
    requires held { (p : Passing T.Event) × (desk.old.pass ≡ Some p) × (p.latch ≡ latch.now) × (p.leads ≡ false) }
    ensures { Serves L.Link (T.answers number) (IsBegun (T.waits number)) turns desk.old desk.new }
{
    let Some(mut pass) = desk.pass.take() else {
        unreachable!()
    };
    let cause = serve(
        rt,
        latch,
        alloc,
        number,
        &mut pass,
        &mut desk.link,
        &mut desk.piece,
        turns,
    );
    desk.pass = Some(pass);
    desk.cause = Some(cause);
}

/// Serves the links of all desks beside each other, each of which holds a pass that doesn't lead, with at most so many calls for a line
/// of each. A line that asks for an order is answered in turns at the latch, in one or in several. Each of their events tells which desk asked, by
/// its number. Any other line is refused without one.
///
/// Each link has a thread of its own, as far as threads can be started. A worker ends where its link answers that no line is left, where a
/// call of it fails, or after so many calls.
pub fn serve_all<T: Answers + Send, L: Link + Send, R: Threads + Wait + Sync>(
    rt: &R,
    latch: &Latch<T>,
    alloc: Global,
    desks: &mut [Desk<L, T::Event>],
    turns: u64,
)
    requires held { (i : ℕ) (d : _) → i < length desks.old → (p : Passing T.Event) × ((slice_index_or desks.old i d).pass ≡ Some p) × (p.latch ≡ latch.now) × (p.leads ≡ false) }
    ensures each { (i : ℕ) (d : _) → i < length desks.old → Serves L.Link (T.answers i) (IsBegun (T.waits i)) turns (slice_index_or desks.old i d) (slice_index_or desks.new i d) }
    ensures length { length desks.new ≡ length desks.old }
{
    let threads = desks.len().max(1);
    thread::for_each_mut(
        rt,
        desks,
        threads,
        &|number: usize, desk: &mut Desk<L, T::Event>|
            requires held { (p : Passing T.Event) × (desk.old.pass ≡ Some p) × (p.latch ≡ latch.now) × (p.leads ≡ false) }
            ensures { Serves L.Link (T.answers number) (IsBegun (T.waits number)) turns desk.old desk.new }
        { serve_desk(rt, latch, alloc, number, desk, turns) },
    );
}
