// The laws of orders: words spell one play at most, and a line asks for one order at most.
ghost use Rattle.std.specs.Prelude.{◌≡◌, ℕ, List};
ghost use Rattle.vdr_control.specs.Orders.{PlainOrder};
ghost use Rattle.vdr_control.specs.Lines.{AsksFor};
ghost use Rattle.vdr_control.specs.Plays.{SpellsPlay};

use vdr_entry::law_of_stamps;

/// Words spell one play at most.
pub fn law_of_plays()
    ensures { (medium channel from to : List ℕ) (a b : PlainOrder)
        → SpellsPlay medium channel from to a → SpellsPlay medium channel from to b → a ≡ b }
{
    law_of_stamps();
}

/// A line asks for one order at most.
pub fn law_of_lines()
    ensures { (line : List ℕ) (a b : PlainOrder) → AsksFor line a → AsksFor line b → a ≡ b }
{
    law_of_plays();
    law_of_stamps();
}
