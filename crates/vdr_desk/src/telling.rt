// The reply to a line, over the link that gave it.
//
// A reply that fails ends its link's worker, as a call for a line that fails does; a link that outlives a peer
// answers Ok for a reply that the peer has not read. No turn is open while a reply is sent.
ghost use Rattle.std.specs.Prelude.{◌≡◌, ◌⊎◌, ◌++◌, ℕ, List, Option, Some, None, OnOk, false, length};
ghost use mathlib.Core.List.{IsPrefix};
ghost use Rattle.vdr_control.specs.Lines.{AsksFor};
ghost use Rattle.vdr_control.specs.Orders.{PlainOrder, plain};
ghost use Rattle.vdr_desk.specs.Answers.{HasTold, IsBegun};
ghost use Rattle.vdr_desk.specs.Exchanges.{IsSaid, no_order_line};
ghost use Rattle.vdr_desk.specs.Links.{HasReplied};

use crate::asking::{take_further_turn, take_turn};
use crate::{Answers, Reply};
use std::alloc::Global;
use std::sync::Wait;
use vdr_control::{Order, read_order};
use vdr_latch::{Latch, LatchPass};
use vdr_outside::{Failed, Link};
use vdr_piece::Piece;

/// Refuses a line without a turn.
pub(crate) fn refuse<L: Link>(link: &mut L) -> Result<(), Failed>
    ensures { HasReplied L.Link link.old link.new no_order_line result }
{
    link.reply(Reply::no_order().bytes())
}

// Tells what is left of an answer at the desk of this number, piece by piece, each in a turn of its own.
fn tell_on<T: Answers, L: Link, R: Wait>(
    rt: &R,
    latch: &Latch<T>,
    pass: &mut LatchPass<T::Event>,
    desk: usize,
    link: &mut L,
    mut left: Option<T::Rest>,
    piece: &mut Piece,
) -> Result<(), Failed>
    requires latch { pass.old.latch ≡ latch.now }
    requires follows { pass.old.leads ≡ false }
    requires waits { (from : ℕ) × (order : PlainOrder) × (text : List ℕ) × HasTold (T.answers desk) (T.waits desk) from order pass.old.seen text left }
    ensures pass { (pass.new.latch ≡ pass.old.latch) × (pass.new.parts ≡ pass.old.parts) × (pass.new.leads ≡ pass.old.leads) }
    ensures seen { IsPrefix pass.old.seen pass.new.seen }
    ensures told { (more : List ℕ) × (rest : Option T.Rest) × HasReplied L.Link link.old link.new more result × OnOk result (rest ≡ None)
        × ((from : ℕ) (order : PlainOrder) (text : List ℕ) → HasTold (T.answers desk) (T.waits desk) from order pass.old.seen text left → HasTold (T.answers desk) (T.waits desk) from order pass.new.seen (text ++ more) rest) }
{
    while let Some(rest) = left {
        let (told, after) = take_further_turn(rt, latch, pass, desk, rest, piece);
        left = after;
        link.reply(told.as_slice())?;
    }
    Ok(())
}

// Answers an order of the desk of this number, in one turn or in several.
fn answer_order<T: Answers, L: Link, R: Wait>(
    rt: &R,
    latch: &Latch<T>,
    alloc: Global,
    pass: &mut LatchPass<T::Event>,
    desk: usize,
    link: &mut L,
    order: Order<'_>,
    piece: &mut Piece,
) -> Result<(), Failed>
    requires latch { pass.old.latch ≡ latch.now }
    requires follows { pass.old.leads ≡ false }
    requires asked { (line : List ℕ) × AsksFor line (plain order) }
    ensures pass { (pass.new.latch ≡ pass.old.latch) × (pass.new.parts ≡ pass.old.parts) × (pass.new.leads ≡ pass.old.leads) }
    ensures seen { IsPrefix pass.old.seen pass.new.seen }
    ensures told { (text : List ℕ) × (rest : Option T.Rest) × HasReplied L.Link link.old link.new text result × OnOk result (rest ≡ None)
        × HasTold (T.answers desk) (T.waits desk) (length pass.old.seen) (plain order.entry) pass.new.seen text rest }
{
    let (reply, rest) = take_turn(rt, latch, alloc, pass, desk, order);
    link.reply(reply.bytes())?;
    tell_on(rt, latch, pass, desk, link, rest, piece)
}

/// Answers a line at the desk of this number: an order is asked for in turns at the latch, and any other line is refused without one.
pub(crate) fn answer_line<T: Answers, L: Link, R: Wait>(
    rt: &R,
    latch: &Latch<T>,
    alloc: Global,
    pass: &mut LatchPass<T::Event>,
    desk: usize,
    link: &mut L,
    line: &[u8],
    piece: &mut Piece,
) -> Result<(), Failed>
    requires latch { pass.old.latch ≡ latch.now }
    requires follows { pass.old.leads ≡ false }
    ensures pass { (pass.new.latch ≡ pass.old.latch) × (pass.new.parts ≡ pass.old.parts) × (pass.new.leads ≡ pass.old.leads) }
    ensures seen { IsPrefix pass.old.seen pass.new.seen }
    ensures said { (text : List ℕ) × HasReplied L.Link link.old link.new text result
        × IsSaid (T.answers desk) (IsBegun (T.waits desk)) pass.new.seen (length pass.old.seen) (length pass.new.seen) (record { line = Some line.now; text = text }) result }
{
    match read_order(line) {
        Some(order) => answer_order(rt, latch, alloc, pass, desk, link, order, piece),
        None => refuse(link),
    }
}
