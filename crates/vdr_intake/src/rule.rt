//! The rule of a queue, how its ends are made and joined, and what each step tells. These types are for proofs alone.
use crate::item::Captured;
use crate::view::EndView;
use crossbeam_queue::protocol::{Join, Lesson, Outcome, Protocol, Split};
use crossbeam_queue::{Pass, RuledArrayQueue};
use std::marker::{Brand, PhantomData};

/// The rule: what was popped and then what is queued is what was pushed.
pub struct Ordered;

impl Protocol<Captured, EndView> for Ordered {
    ghost use Rattle.vdr_intake.specs.Rule.{IsOrdered, whole};

    ghost holds = { IsOrdered };

    ghost first = { whole };
}

/// The group and the capacity of a new queue. The call that makes it picks them.
pub trait Making {
    ghost use Rattle.std.specs.Prelude.{ℕ};

    ghost group: { ℕ };

    ghost capacity: { ℕ };
}

impl Making for Brand {
    ghost group = { 0 };

    ghost capacity = { 0 };
}

/// A new queue's pass is cut into its two ends.
pub struct Ends<L> {
    of: PhantomData<L>,
}

impl<L: Making> Split<EndView> for Ends<L> {
    ghost use Rattle.vdr_intake.specs.Rule.{feeding, taking};

    ghost left = { λ v. feeding L.group L.capacity };

    ghost right = { λ v. taking L.group L.capacity };
}

/// The taker takes the feeder in.
pub struct Joined;

impl Join<EndView> for Joined {
    ghost use Rattle.vdr_intake.specs.Rule.{joined, spent};

    ghost both = { joined };

    ghost spent = { spent };
}

/// A push, or a push that found the queue full.
pub struct Push;

impl Outcome<Captured, EndView> for Push {
    ghost use Rattle.vdr_intake.specs.Rule.{HasPushed};

    ghost then = { HasPushed };
}

impl Lesson<Captured, EndView> for Push {
    ghost use Rattle.vdr_intake.specs.Rule.{IsNoLonger};

    ghost fact = { IsNoLonger };
}

/// A pop, or a pop that found the queue empty.
pub struct Pop;

impl Outcome<Captured, EndView> for Pop {
    ghost use Rattle.vdr_intake.specs.Rule.{HasPopped};

    ghost then = { HasPopped };
}

impl Lesson<Captured, EndView> for Pop {
    ghost use Rattle.vdr_intake.specs.Rule.{IsLeft};

    ghost fact = { IsLeft };
}

pub type Queue = RuledArrayQueue<Captured, EndView, Ordered>;

pub type End = Pass<Captured, EndView>;
