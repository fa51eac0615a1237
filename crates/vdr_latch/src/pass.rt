// The pass to a latch: the right to take turns.
use crate::view::View;
use atomic_table::Badge;
use std::marker::Model;

/// The right to take turns at a latch. It has no bytes, and may go to another thread.
///
/// Contracts see which latch it is of, how many parts of it the pass has, whether it leads, the beginning of the history that it has seen, and
/// the events of its own turns.
#[derive(Drop)]
pub struct LatchPass<E> {
    pub(crate) badge: Badge<View<E>>,
}

impl<E> Model for LatchPass<E> {
    ghost use Rattle.std.specs.Prelude.{◌≡◌, ◌<◌, false, [], ◌∷◌, None};
    ghost use Rattle.vdr_latch.specs.Views.{view_of};
    ghost use Rattle.vdr_latch.specs.Passes.{Passing};

    ghost Value = { Passing E };

    ghost view = { λ p. record { latch = p.badge.table_id; parts = (view_of p.badge.views).parts; leads = (view_of p.badge.views).leads; seen = (view_of p.badge.views).seen; own = (view_of p.badge.views).own } };

    // Between two calls a pass has a view with some part, holds no ticket, and has nothing left to learn.
    ghost invariant = { λ p. (p.badge.views ≡ view_of p.badge.views ∷ []) × (0 < (view_of p.badge.views).parts) × ((view_of p.badge.views).ticket ≡ None) × ((view_of p.badge.views).in_turn ≡ false) × ((view_of p.badge.views).told ≡ []) };
}
