// Threads beside each other, each with a pass of its own, that take turns at the latch.
ghost use Rattle.std.specs.Prelude.{◌≡◌, ◌≤◌, ◌^◌, All, IfOk};
ghost use Rattle.vdr_bench.specs.declared.counting.TheConstants.{MOST};

use crate::counter::{Count, Counter, Read, Tick};
use std::alloc::{AllocError, Global};
use std::sync::Wait;
use std::thread;
use std::thread::Threads;
use vdr_latch::{Latch, LatchPass};

/// The most passes.
pub(crate) const MOST: usize = 64;

/// How many turns a thread takes, and how often others run in each.
#[derive(Clone, Copy)]
pub(crate) struct Turns {
    pub count: u32,
    pub stays: u32,
}

/// What one thread works with.
#[derive(Drop)]
struct Worker {
    pass: LatchPass<Tick>,
    turns: Turns,
}

fn take_turns<R: Wait>(rt: &R, latch: &Latch<Counter>, worker: &mut Worker)
    requires { worker.old.pass.latch ≡ latch.now }
{
    let Turns { count, stays } = worker.turns;
    let mut job = Count { stays };
    for _ in 0..count {
        latch.turn(rt, &mut worker.pass, &mut job);
    }
}

/// Splits a pass for each worker off the first one.
fn workers_of(
    alloc: Global,
    latch: &Latch<Counter>,
    first: &mut LatchPass<Tick>,
    passes: usize,
    turns: Turns,
) -> Result<Vec<Worker>, AllocError>
    requires few { passes ≤ MOST }
    requires first { (first.old.latch ≡ latch.now) × (first.old.parts ≡ 2 ^ 33) }
    ensures first { first.new.latch ≡ latch.now }
    ensures workers { IfOk result (λ v. All (λ w. w.pass.latch ≡ latch.now) v.items) }
{
    let mut workers = Vec::new(alloc);
    for _ in 0..passes {
        let pass = latch.split(first);
        workers.push(Worker { pass, turns })?;
    }
    Ok(workers)
}

/// Lets the workers take their turns beside each other.
fn work_beside<R: Threads + Wait + Sync>(rt: &R, latch: &Latch<Counter>, workers: &mut [Worker])
    requires { All (λ w. w.pass.latch ≡ latch.now) workers.old }
{
    thread::for_each_mut(
        rt,
        workers,
        MOST,
        &|_: usize, worker: &mut Worker|
            requires { worker.old.pass.latch ≡ latch.now }
        { take_turns(rt, latch, worker) },
    );
}

/// Lets each of the passes take its turns, and reads the count in one turn more.
pub(crate) fn counted<R: Threads + Wait + Sync>(
    rt: &R,
    alloc: Global,
    passes: usize,
    turns: Turns,
) -> Result<u64, AllocError>
    requires { passes ≤ MOST }
{
    let Ok((latch, mut first)) = Latch::new(alloc, Counter { turns: 0 }) else {
        return Err(AllocError);
    };
    let mut workers = workers_of(alloc, &latch, &mut first, passes, turns)?;
    work_beside(rt, &latch, workers.as_mut_slice());
    let mut read = Read { found: 0 };
    latch.turn(rt, &mut first, &mut read);
    Ok(read.found)
}
