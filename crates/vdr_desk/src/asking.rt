// Orders: what a worker has done in the turns of one at the latch.
ghost use Rattle.std.specs.Prelude.{◌≡◌, ◌<◌, ◌++◌, ◌∷◌, [], ℕ, List, Some, IfSome, false, length};
ghost use mathlib.Core.List.{IsPrefix};
ghost use Rattle.vdr_control.specs.Lines.{AsksFor};
ghost use Rattle.vdr_control.specs.Orders.{PlainOrder, plain};
ghost use Rattle.vdr_desk.specs.Answers.{HasTold};

use crate::{Answers, Reply};
use std::alloc::Global;
use std::sync::Wait;
use vdr_control::Order;
use vdr_latch::{Job, Latch, LatchPass};
use vdr_piece::Piece;

/// An order of the desk of this number, what it is told in its own turn, and what is left of its answer.
#[derive(Drop)]
struct Ask<'a, T: Answers> {
    alloc: Global,
    desk: usize,
    order: Order<'a>,
    reply: Reply,
    rest: Option<T::Rest>,
}

impl<'a, T: Answers> Job<T> for Ask<'a, T> {
    ghost use Rattle.vdr_desk.specs.Answers.{ToldSoFar};

    ghost asks = { λ j x. ((history : List T.Event) × T.leaves history x) × ((line : List ℕ) × AsksFor line (plain j.order)) };

    ghost event = { λ j x l y. T.event j.desk x (plain j.order) l.reply y };

    ghost relates = { λ j x l y. (T.leading (T.event j.desk x (plain j.order) l.reply y) ≡ false)
        × ((history : List T.Event) → T.leaves history x
        → ToldSoFar (T.answers j.desk) (T.waits j.desk) (record { order = plain j.order; before = history; own = T.event j.desk x (plain j.order) l.reply y; during = []; text = l.reply }) l.rest) };

    fn work(&mut self, value: &mut T) {
        let (reply, rest) = value.answer(self.alloc, self.order);
        self.reply = reply;
        self.rest = rest;
    }
}

/// What is left of an answer at the desk of this number, as it goes on in a further turn.
#[derive(Drop)]
struct GoOn<'p, T: Answers> {
    desk: usize,
    rest: Option<T::Rest>,
    piece: &'p mut Piece,
}

impl<'p, T: Answers> Job<T> for GoOn<'p, T> {
    ghost use Rattle.vdr_desk.specs.Answers.{Answer, ToldSoFar, seen_by, told_on};

    ghost asks = { λ j x. (rest : T.Rest) × (j.rest ≡ Some rest) × (j.piece.now.bytes.items ≡ [])
        × ((before : Answer T.Event) × (later : List T.Event) × T.waits j.desk before rest × T.leaves (seen_by before ++ later) x) };

    ghost event = { λ j x l y. T.step j.desk x y };

    ghost relates = { λ j x l y. (T.leading (T.step j.desk x y) ≡ false)
        × ((rest : T.Rest) → j.rest ≡ Some rest → IfSome l.rest (λ after. T.left after < T.left rest)
        × ((before : Answer T.Event) (later : List T.Event) → T.waits j.desk before rest → T.leaves (seen_by before ++ later) x
        → ToldSoFar (T.answers j.desk) (T.waits j.desk) (told_on before (later ++ T.step j.desk x y ∷ []) l.piece.now.bytes.items) l.rest)) };

    fn work(&mut self, value: &mut T) {
        match self.rest.take() {
            Some(rest) => self.rest = value.go_on(rest, self.piece),
            None => unreachable!(),
        }
    }
}

/// Asks for an order at the desk of this number, in a turn at the latch: what it is told in that, and what is left of its answer.
pub(crate) fn take_turn<T: Answers, R: Wait>(
    rt: &R,
    latch: &Latch<T>,
    alloc: Global,
    pass: &mut LatchPass<T::Event>,
    desk: usize,
    order: Order<'_>,
) -> (Reply, Option<T::Rest>)
    requires latch { pass.old.latch ≡ latch.now }
    requires follows { pass.old.leads ≡ false }
    requires asked { (line : List ℕ) × AsksFor line (plain order) }
    ensures pass { (pass.new.latch ≡ pass.old.latch) × (pass.new.parts ≡ pass.old.parts) × (pass.new.leads ≡ pass.old.leads) }
    ensures seen { IsPrefix pass.old.seen pass.new.seen }
    ensures told { HasTold (T.answers desk) (T.waits desk) (length pass.old.seen) (plain order.entry) pass.new.seen result.0 result.1 }
{
    let mut asking = Ask::<T> {
        alloc,
        desk,
        order,
        reply: Reply::empty(),
        rest: None,
    };
    latch.turn::<Ask<T>, R>(rt, pass, &mut asking);
    let Ask { reply, rest, .. } = asking;
    (reply, rest)
}

/// Goes on with an answer at the desk of this number, in a further turn at the latch: the piece that is told in that, and what is left.
pub(crate) fn take_further_turn<'p, T: Answers, R: Wait>(
    rt: &R,
    latch: &Latch<T>,
    pass: &mut LatchPass<T::Event>,
    desk: usize,
    rest: T::Rest,
    piece: &'p mut Piece,
) -> (&'p mut Piece, Option<T::Rest>)
    requires latch { pass.old.latch ≡ latch.now }
    requires follows { pass.old.leads ≡ false }
    requires waits { (from : ℕ) × (order : PlainOrder) × (text : List ℕ) × HasTold (T.answers desk) (T.waits desk) from order pass.old.seen text (Some rest) }
    ensures pass { (pass.new.latch ≡ pass.old.latch) × (pass.new.parts ≡ pass.old.parts) × (pass.new.leads ≡ pass.old.leads) }
    ensures seen { IsPrefix pass.old.seen pass.new.seen }
    ensures falls { IfSome result.1 (λ after. T.left after < T.left rest) }
    ensures told { (from : ℕ) (order : PlainOrder) (text : List ℕ) → HasTold (T.answers desk) (T.waits desk) from order pass.old.seen text (Some rest)
        → HasTold (T.answers desk) (T.waits desk) from order pass.new.seen (text ++ result.0.now.bytes.items) result.1 }
{
    piece.clear();
    let mut going = GoOn::<T> {
        desk,
        rest: Some(rest),
        piece,
    };
    latch.turn::<GoOn<T>, R>(rt, pass, &mut going);
    let GoOn { rest, piece, .. } = going;
    (piece, rest)
}
