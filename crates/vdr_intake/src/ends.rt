// The two ends of a queue: the right to push into it, and the right to pop from it.
ghost use Rattle.std.specs.Prelude.{◌≡◌, ◌≤◌, ◌<◌, length, IfSome};
ghost use Rattle.vdr_intake.specs.Ends.{full_of};

use crate::rule::End;
use std::marker::Model;

/// The right to push into a queue, of which there is one.
#[derive(Drop)]
pub struct Feeder {
    pub(crate) pass: End,
    // How many pushes found the queue full.
    pub(crate) full: u64,
}

impl Model for Feeder {
    ghost use Rattle.vdr_intake.specs.Passes.{known, queue_of, IsFeeder};
    ghost use Rattle.vdr_intake.specs.Ends.{Feeding};

    ghost Value = { Feeding };

    ghost view = { λ f. record { queue = queue_of f.pass; pushed = (known f.pass).pushed; full = f.full } };

    ghost invariant = { λ f. IsFeeder f.pass f.full };
}

impl Feeder {
    /// How many pushes found the queue full. Where one did, at least as many items as the capacity were pushed.
    pub fn full(&self) -> u64
        ensures count { result ≡ self.now.full }
        ensures pushed { 0 < result → self.now.queue.capacity ≤ length self.now.pushed }
    {
        self.full
    }
}

/// The right to pop from a queue, of which there is one. Once the feeder was joined to it, it keeps the feeder's pushes and
/// full count.
#[derive(Drop)]
pub struct Taker {
    pub(crate) pass: End,
    // The feeder's count, 0 before it was joined.
    pub(crate) full: u64,
}

impl Model for Taker {
    ghost use Rattle.std.specs.Prelude.{cond, Some, None};
    ghost use Rattle.vdr_intake.specs.Passes.{known, queue_of, IsTaker};
    ghost use Rattle.vdr_intake.specs.Ends.{Taking};

    ghost Value = { Taking };

    ghost view = { λ t. record { queue = queue_of t.pass; popped = (known t.pass).popped; joined = cond (known t.pass).feeds (Some (record { queue = queue_of t.pass; pushed = (known t.pass).pushed; full = t.full })) None } };

    ghost invariant = { λ t. IsTaker t.pass t.full };
}

impl Taker {
    /// How many of the feeder's pushes found the queue full, once the feeder was joined; 0 before. Where one did, the feeder
    /// pushed at least as many items as the capacity.
    pub fn full(&self) -> u64
        ensures count { result ≡ full_of self.now.joined }
        ensures pushed { IfSome self.now.joined (λ feeder. 0 < result → self.now.queue.capacity ≤ length feeder.pushed) }
    {
        self.full
    }
}
