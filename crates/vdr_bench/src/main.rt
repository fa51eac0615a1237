//! Measures parts of the recorder, for the scripts of bench/. Each word of the command line is one measure with its own words
//! behind it, as in `vdr_bench 'latch 4 1000 0'`, and prints one line:
//!
//! - `intake COUNT` passes that many datagrams of 100 bytes from one thread to another through the queue, and prints how many
//!   came in order.
//! - `latch PASSES TURNS STAYS` lets that many passes, each in a thread of its own, take that many turns each at a latch, and
//!   stay in turn while others run that often; it prints how many turns the value under the latch counted.
//! - `ring FOLDER BATCHES` appends that many batches of one datagram of 100 bytes, two a second of recording time, to the
//!   capsule in that folder, and prints how many there were, or why that was not done. The capsule's slots are those of the
//!   bench configuration; what else it holds is not looked at.
#![tactic(auto)]

mod appending;
mod counter;
mod counting;
mod pass;

use anyhow::{Context, Result, bail, ensure};
use appending::append_all;
use counting::{MOST, Turns, counted};
use pass::pass;
use std::env;
use std::sync::Wait;
use std::thread::Threads;
use vdr_adapters::FileMedia;

fn measure_intake<R: AllocGlobal + Print + Threads + Wait + Sync>(
    rt: &R,
    count: &str,
) -> Result<()> {
    let arrived = pass(rt, rt.alloc(), count.parse::<u64>()?).context("no memory")?;
    println!(rt; "{arrived}")?;
    Ok(())
}

// The turns that the words `TURNS STAYS` ask for.
fn turns_of(words: &str) -> Result<Turns> {
    let (count, stays) = words.split_once(' ').context("STAYS is missing")?;
    Ok(Turns {
        count: count.parse::<u32>()?,
        stays: stays.parse::<u32>()?,
    })
}

fn measure_latch<R: AllocGlobal + Print + Threads + Wait + Sync>(
    rt: &R,
    words: &str,
) -> Result<()> {
    let (passes, words) = words.split_once(' ').context("TURNS is missing")?;
    let passes = passes.parse::<usize>()?;
    ensure!(passes <= MOST, "more than {MOST} passes");
    let count = counted(rt, rt.alloc(), passes, turns_of(words)?)?;
    println!(rt; "{count} turns")?;
    Ok(())
}

fn measure_ring(rt: &HostRuntime, words: &str) -> Result<()> {
    let (folder, batches) = words.rsplit_once(' ').context("BATCHES is missing")?;
    let batches = batches.parse::<u32>()?;
    let mut media = FileMedia::open(rt, folder)?;
    match append_all(rt.alloc(), &mut media, batches) {
        Ok(done) => println!(rt; "{done} batches")?,
        Err(refused) => println!(rt; "{refused}")?,
    }
    Ok(())
}

// Takes the measure of a word, over files of `host`.
fn measure<R: AllocGlobal + Print + Threads + Wait + Sync>(
    rt: &R,
    host: &HostRuntime,
    word: &str,
) -> Result<()> {
    let (name, words) = word.split_once(' ').context("no words")?;
    match name {
        "intake" => measure_intake(rt, words),
        "latch" => measure_latch(rt, words),
        "ring" => measure_ring(host, words),
        _ => bail!("no such measure"),
    }
}

fn main(rt: HostRuntime) -> Result<()> {
    for word in env::args(&rt)?.skip(1) {
        measure(&rt, &rt, word.as_str())?;
    }
    Ok(())
}
