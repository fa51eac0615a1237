//! What no command of the program reaches: a queue that hands an item back, a full queue that is drained, a ring of
//! batches of one record each, and a medium that is made from another. It prints a line for each, with what came of it,
//! or `None` where memory is refused or a call failed on the way.
#![tactic(auto)]

mod offers;
mod queues;
mod rings;

use std::io;

fn main(rt: HostRuntime) -> io::Result<()> {
    let again = offers::taken_again(&rt, rt.alloc());
    println!(rt; "an item handed back is taken after a pop: {again:?}")?;
    let drained = queues::drained(&rt, rt.alloc());
    println!(rt; "a full queue is drained, and its gap closes the run: {drained:?}")?;
    let printed = queues::printed_in_turns(rt.alloc());
    println!(rt; "a play in turns prints what it had printed at its begin: {printed:?}")?;
    let gone = queues::gone_between_turns(rt.alloc());
    println!(rt;
        "of a play whose segments are written over between its turns that is told: {gone:?}"
    )?;
    let held = rings::held_after_each(rt.alloc());
    println!(rt; "the last minute is held after each of 600 batches: {held:?}")?;
    let left = rings::left_by_each_stop(rt.alloc());
    println!(rt; "a stop leaves the last minute without the batch or with it: {left:?}")?;
    let remade = rings::left_by_stops(rt.alloc());
    println!(rt; "a stop leaves a medium that is made from another closed or whole: {remade:?}")
}
