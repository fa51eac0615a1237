//! The rule of the latch, and what each kind of step tells. These types stand in the proofs alone.
//!
//! A value is never at home while its event is not served; the step that serves gives the slot back, so no step
//! names an event beforehand. Served and held tickets add up to the next one, and exactly one seat leads: so
//! `close` can say that its pass does.
use crate::stepped::Stepped;
use crate::view::View;
use atomic_table::{Join, Play, Split, TableRule};
use std::marker::{Brand, PhantomData};

/// The rule.
pub struct Law;

impl<T: Stepped> TableRule<Option<T>, View<T::Event>, ()> for Law {
    ghost use Rattle.vdr_latch.specs.Rule.{IsKept};
    ghost use Rattle.vdr_latch.specs.Views.{founder};

    ghost holds = { λ _. IsKept T.leaves T.leading };

    ghost first = { λ _. founder };
}

/// Drawing a ticket.
pub struct Draw;

impl<S, E> Play<Option<S>, View<E>> for Draw {
    ghost use Rattle.vdr_latch.specs.Steps.{Draws};

    ghost then = { Draws };
}

/// Looking whether one is in turn.
pub struct Look;

impl<T: Stepped> Play<Option<T>, View<T::Event>> for Look {
    ghost use Rattle.vdr_latch.specs.Steps.{Looks};

    ghost then = { Looks T.leaves T.leading };
}

/// The events that a step adds to the history. The call of the step picks them.
pub trait Adding<E> {
    ghost use Rattle.std.specs.Prelude.{List};

    ghost events: { List E };
}

impl<E> Adding<E> for Brand {
    ghost use Rattle.std.specs.Prelude.{[]};

    ghost events = { [] };
}

/// Serving the next.
pub struct Serve<N> {
    of: PhantomData<N>,
}

impl<S, E, N: Adding<E>> Play<Option<S>, View<E>> for Serve<N> {
    ghost use Rattle.vdr_latch.specs.Steps.{Serves};

    ghost then = { Serves N.events };
}

/// Splitting a pass.
pub struct Part;

impl<E> Split<View<E>> for Part {
    ghost use Rattle.vdr_latch.specs.Steps.{fewer, follower};

    ghost left = { fewer };

    ghost right = { follower };
}

/// Joining two passes.
pub struct Meet;

impl<E> Join<View<E>> for Meet {
    ghost use Rattle.vdr_latch.specs.Steps.{joined};
    ghost use Rattle.vdr_latch.specs.Views.{spent};

    ghost both = { joined };

    ghost spent = { spent };
}

/// Learning what has happened, after a join.
pub struct Learn;

impl<T: Stepped> Play<Option<T>, View<T::Event>> for Learn {
    ghost use Rattle.vdr_latch.specs.Steps.{Learns};

    ghost then = { Learns T.leading };
}
