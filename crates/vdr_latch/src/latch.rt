// The latch: a turn at its value, passes that are split and joined, and the close that gives the value back.
ghost use Rattle.std.specs.Prelude.{◌≡◌, ℕ, ◌+◌, ◌-◌, ◌<◌, ◌^◌, Bool, true, false, List, [], ◌∷◌, ◌++◌, length, IfOk, IfErr, Some, None};
ghost use mathlib.Core.List.{IsPrefix};
ghost use Rattle.vdr_latch.specs.Passes.{IsPossible};
ghost use Rattle.vdr_latch.specs.Turns.{MayMeet, Turned};

use crate::pass::LatchPass;
use crate::rule::{Law, Learn, Meet, Part};
use crate::stepped::{Job, Stepped};
use crate::turn::{VALUE, draw, enter, work};
use crate::view::View;
use atomic_table::{Badge, Refused, Table};
use std::alloc::Global;
use std::marker::Model;
use std::mem;
use std::sync::Wait;
use std::sync::atomic::AtomicU64;

/// One value that passes take in turn. Contracts see which latch it is.
#[derive(Drop)]
pub struct Latch<T: Stepped> {
    table: Table<Option<T>, View<T::Event>, (), Law, Global>,
    /// How many threads sleep until the next is served. No clause rests on it: it spares a turn a call of the system where none sleeps.
    sleepers: AtomicU64,
}

impl<T: Stepped> Model for Latch<T> {
    ghost use Rattle.std.specs.Prelude.{◌≡◌};
    ghost use Rattle.vdr_latch.specs.Passes.{LatchId};

    ghost Value = { LatchId };

    ghost view = { λ l. l.table.shared.table_id };

    ghost invariant = { λ l. (l.table.shared.table_id.words ≡ 2) × (l.table.shared.table_id.slots ≡ 1) };
}

/// There was no memory for a latch. The value comes back.
#[derive(Drop)]
pub struct NoMemory<T> {
    pub value: T,
}

impl<T: Stepped> Latch<T> {
    /// A latch round a value that the empty history leaves, with the pass that leads. It has all 2^33 parts.
    pub fn new(alloc: Global, value: T) -> Result<(Latch<T>, LatchPass<T::Event>), NoMemory<T>>
        requires { T.leaves [] value }
        ensures pass { IfOk result (λ r. r.1 ≡ record { latch = r.0; parts = 2 ^ 33; leads = true; seen = []; own = [] }) }
        ensures refused { IfErr result (λ r. r.value ≡ value) }
    {
        let Ok(mut slots) = Vec::with_capacity(alloc, 1) else {
            return Err(NoMemory { value });
        };
        slots.push_reserved(Some(value));
        match Table::new(alloc, &[0, 0], slots, &()) {
            Ok((table, seat)) => Ok((
                Latch {
                    table,
                    sleepers: AtomicU64::new(0),
                },
                LatchPass {
                    badge: seat.into_badge(),
                },
            )),
            Err(refused) => Err(NoMemory {
                value: only(refused),
            }),
        }
    }

    /// Takes a turn: waits until it is in turn, lets the job work on the value, and answers the position of this event in the history,
    /// counted from 0.
    ///
    /// What the work asks has to hold of each value that the turn may meet, and where the pass doesn't lead, the work makes no leading event
    /// of it. It takes no memory. It waits for the turns before it, and so may wait for good.
    pub fn turn<J: Job<T>, R: Wait>(
        &self,
        rt: &R,
        pass: &mut LatchPass<T::Event>,
        job: &mut J,
    ) -> u64
        requires latch { pass.old.latch ≡ self.now }
        requires asks { (x : T) → MayMeet T.leaves T.leading pass.old x → J.asks job.old x }
        requires follows { pass.old.leads ≡ false → (x : T) → MayMeet T.leaves T.leading pass.old x → (b : J) → (y : T) → J.relates job.old x b y → T.leading (J.event job.old x b y) ≡ false }
        ensures pass { (pass.new.latch ≡ pass.old.latch) × (pass.new.parts ≡ pass.old.parts) × (pass.new.leads ≡ pass.old.leads) }
        ensures event { Turned T.leaves T.leading J.event J.relates pass.old job.old job.new result pass.new }
        ensures possible { IsPossible T.leading pass.new pass.new.seen }
    {
        let words = &self.table.shared;
        let badge = mem::replace(&mut pass.badge, Badge::blank());
        let mut seat = badge.into_seat::<Option<T>>();
        let ticket = draw::<T, R>(rt, words, &mut seat);
        enter::<T, R>(rt, words, &self.sleepers, &mut seat, ticket);
        match words.exchange(&mut seat, VALUE, None) {
            Some(value) => work::<T, J>(words, &self.sleepers, &mut seat, job, value),
            None => unreachable!(),
        }
        pass.badge = seat.into_badge();
        ticket
    }

    /// Moves one part of the pass to a new one, which has seen as much, has no event of its own and doesn't lead. It takes no memory.
    pub fn split(&self, pass: &mut LatchPass<T::Event>) -> LatchPass<T::Event>
        requires latch { pass.old.latch ≡ self.now }
        requires parts { 1 < pass.old.parts }
        ensures old { pass.new ≡ record pass.old { parts = pass.old.parts - 1 } }
        ensures new { result ≡ record { latch = pass.old.latch; parts = 1; leads = false; seen = pass.old.seen; own = [] } }
    {
        let badge = mem::replace(&mut pass.badge, Badge::blank());
        let mut seat = badge.into_seat::<Option<T>>();
        let other = self.table.shared.split_seat::<Part>(&mut seat);
        pass.badge = seat.into_badge();
        LatchPass {
            badge: other.into_badge(),
        }
    }

    /// Adds the parts of another pass, which doesn't lead. The pass that stays has then seen at least what each of the two had seen. It takes
    /// no memory.
    pub fn join(&self, pass: &mut LatchPass<T::Event>, other: LatchPass<T::Event>)
        requires latch { (pass.old.latch ≡ self.now) × (other.latch ≡ self.now) }
        requires follows { other.leads ≡ false }
        ensures pass { (pass.new.latch ≡ pass.old.latch) × (pass.new.parts ≡ pass.old.parts + other.parts) × (pass.new.leads ≡ pass.old.leads) × (pass.new.own ≡ pass.old.own) }
        ensures seen { IsPrefix pass.old.seen pass.new.seen × IsPrefix other.seen pass.new.seen }
        ensures possible { IsPossible T.leading pass.new pass.new.seen }
    {
        let badge = mem::replace(&mut pass.badge, Badge::blank());
        let mut seat = badge.into_seat::<Option<T>>();
        let LatchPass { badge: theirs } = other;
        let words = &self.table.shared;
        words.join_seat::<Meet>(&mut seat, theirs.into_seat());
        words.load::<Learn>(&mut seat, 0);
        pass.badge = seat.into_badge();
    }

    /// Gives the value back, by the pass that has all parts. This pass leads and has seen the whole history, which leaves the value. It takes
    /// no memory.
    pub fn close(self, pass: LatchPass<T::Event>) -> T
        requires latch { pass.latch ≡ self }
        requires parts { pass.parts ≡ 2 ^ 33 }
        ensures value { T.leaves pass.seen result }
        ensures leads { pass.leads ≡ true }
        ensures possible { IsPossible T.leading pass pass.seen }
    {
        let Latch { table, sleepers: _ } = self;
        let LatchPass { badge } = pass;
        let mut closed = table.close_with(badge.into_seat());
        let value = closed.take(VALUE);
        closed.free();
        match value {
            Some(value) => value,
            None => unreachable!(),
        }
    }
}

/// The one value that there was no memory for.
fn only<T>(refused: Refused<Option<T>, Global>) -> T
    requires { (x : T) × (refused.slots.items ≡ Some x ∷ []) }
    ensures { refused.slots.items ≡ Some result ∷ [] }
{
    let Refused { mut slots } = refused;
    let last = slots.pop();
    slots.destroy_empty();
    match last {
        Some(Some(value)) => value,
        Some(None) => unreachable!(),
        None => unreachable!(),
    }
}
