// A value under a latch that answers orders.
ghost use Rattle.std.specs.Prelude.{◌≡◌, ◌<◌, ◌++◌, ◌∷◌, [], ℕ, List, Some, IfSome, false};
ghost use Rattle.vdr_control.specs.Lines.{AsksFor};
ghost use Rattle.vdr_control.specs.Orders.{PlainOrder, plain};
ghost use Rattle.vdr_desk.specs.Answers.{Answer, ToldSoFar, seen_by, told_on};

use crate::Reply;
use std::alloc::Global;
use vdr_control::Order;
use vdr_latch::Stepped;
use vdr_piece::Piece;

/// A value under a latch that answers orders, each in one turn or in several.
pub trait Answers: Stepped {
    /// What is left of an answer that goes on in further turns.
    type Rest: Drop + Send;

    /// The event of an order, by the number of the desk that asks, the value before, the order, what it is told in that turn, and the value
    /// after.
    ghost event: { ℕ → Self → PlainOrder → List ℕ → Self → Self.Event };

    /// The event of a further turn of an answer, by the number of its desk, the value before, and the value after.
    ghost step: { ℕ → Self → Self → Self.Event };

    /// What it means that an order of the desk of this number was answered so.
    ghost answers: { ℕ → Answer Self.Event → Type 0 };

    /// What it means that it was answered so far, and that this rest is left.
    ghost waits: { ℕ → Answer Self.Event → Self.Rest → Type 0 };

    /// A number that falls with each further turn.
    ghost left: { Self.Rest → ℕ };

    /// Answers an order that a line asks for, or begins to. It is one event, which is not a leading one.
    fn answer(&mut self, alloc: Global, order: Order<'_>) -> (Reply, Option<Self::Rest>)
        requires left { (history : List Self.Event) × Self.leaves history self.old }
        requires asked { (line : List ℕ) × AsksFor line (plain order) }
        ensures leaves { (desk : ℕ) (history : List Self.Event) → Self.leaves history self.old → Self.leaves (history ++ event desk self.old (plain order.entry) result.0 self.new ∷ []) self.new }
        ensures follows { (desk : ℕ) → Self.leading (event desk self.old (plain order.entry) result.0 self.new) ≡ false }
        ensures told { (desk : ℕ) (history : List Self.Event) → Self.leaves history self.old
            → ToldSoFar (answers desk) (waits desk) (record { order = plain order.entry; before = history; own = event desk self.old (plain order.entry) result.0 self.new; during = []; text = result.0 }) result.1 };

    /// Goes on with an answer, in a further turn, behind whatever happened since. The piece is empty, and what is told in this turn is put
    /// into it. It is one event, which is not a leading one.
    fn go_on(&mut self, rest: Self::Rest, piece: &mut Piece) -> Option<Self::Rest>
        requires waits { (desk : ℕ) × (before : Answer Self.Event) × (later : List Self.Event) × waits desk before rest × Self.leaves (seen_by before ++ later) self.old }
        requires empty { piece.old.bytes.items ≡ [] }
        ensures leaves { (desk : ℕ) (history : List Self.Event) → Self.leaves history self.old → Self.leaves (history ++ step desk self.old self.new ∷ []) self.new }
        ensures follows { (desk : ℕ) → Self.leading (step desk self.old self.new) ≡ false }
        ensures falls { IfSome result (λ after. left after < left rest) }
        ensures told { (desk : ℕ) (before : Answer Self.Event) (later : List Self.Event) → waits desk before rest → Self.leaves (seen_by before ++ later) self.old
            → ToldSoFar (answers desk) (waits desk) (told_on before (later ++ step desk self.old self.new ∷ []) piece.new.bytes.items) result };
}
