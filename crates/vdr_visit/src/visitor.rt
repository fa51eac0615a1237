// What makes something of records, as a trait.
//
// What is printed is a function of the records, so that what stands in the output is proved once. A visitor stops by
// itself only before it prints.
ghost use Rattle.std.specs.Prelude.{◌≡◌, ◌∷◌, ◌++◌, ℕ, List, [], Err, OnOk};
ghost use Rattle.vdr_terms.specs.Records.{Record as Entry};
ghost use Rattle.vdr_visit.specs.Refusals.{HasOutputCause, IfOwn};
ghost use Rattle.vdr_visit.specs.declared.visit_refused.VisitorRefused.TheVariants.{Output};
ghost use Rattle.vdr_visit.specs.Prints.{HasPrinted};

use crate::VisitorRefused;
use vdr_entry::Record;
use vdr_outside::Sink;

/// What makes something of records, one after another, and then of their end, and prints it as it goes.
pub trait Visitor {
    /// Why it stops by itself.
    type Reason: Drop;

    /// From the first visitor on, this one has visited these records.
    ghost has: { Self → List Entry → Self → Type 0 };

    /// What is printed of a record from the first visitor on, behind those that were visited.
    ghost line: { Self → List Entry → Entry → List ℕ };

    /// What is printed from the first visitor on behind these records, where they are all.
    ghost last: { Self → List Entry → List ℕ };

    /// From the first visitor on it may stop so, at the last of these records or behind it.
    ghost stops: { Self → List Entry → Self.Reason → Type 0 };

    /// Visits the next record. Where it stops by itself it prints nothing.
    fn visit<O: Sink>(
        &mut self,
        item: &Record,
        out: &mut O,
    ) -> Result<(), VisitorRefused<Self::Reason>>
        ensures has { (first : Self) (seen : List Entry) → has first seen self.old → OnOk result (has first (seen ++ item.now ∷ []) self.new) }
        ensures printed { (first : Self) (seen : List Entry) → has first seen self.old → HasPrinted (line first seen item.now) (O.taken out.old) (O.taken out.new) result }
        ensures stops { (first : Self) (seen : List Entry) → has first seen self.old → IfOwn result (λ reason. stops first (seen ++ item.now ∷ []) reason) }
        ensures cause { HasOutputCause (O.faults out.old) (O.faults out.new) (result ≡ Err Output) };

    /// Visits the end, behind the last record. Where it stops by itself it prints nothing.
    fn finish<O: Sink>(&mut self, out: &mut O) -> Result<(), VisitorRefused<Self::Reason>>
        ensures has { (first : Self) (seen : List Entry) → has first seen self.old → OnOk result (has first seen self.new) }
        ensures printed { (first : Self) (seen : List Entry) → has first seen self.old → HasPrinted (last first seen) (O.taken out.old) (O.taken out.new) result }
        ensures stops { (first : Self) (seen : List Entry) → has first seen self.old → IfOwn result (λ reason. stops first seen reason) }
        ensures cause { HasOutputCause (O.faults out.old) (O.faults out.new) (result ≡ Err Output) };
}
