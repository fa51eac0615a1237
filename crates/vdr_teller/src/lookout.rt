// The ships that were reported by what was recorded.
ghost use Rattle.vdr_ais.specs.Tables.{Shows};
ghost use Rattle.vdr_ais.specs.Targets.{nothing};

use std::alloc::{AllocError, Global};
use vdr_ais::TargetTable;
use vdr_entry::Record;
use vdr_outside::{Printable, Sink};
use vdr_visit::{Visitor, VisitorRefused};

/// Takes the AIS messages of records, and prints the table of the ships that they report behind the last.
#[derive(Drop)]
pub struct Lookout {
    table: TargetTable,
}

impl Lookout {
    /// No record was seen.
    pub fn new(alloc: Global) -> Lookout
        ensures { Shows nothing result.table }
    {
        Lookout {
            table: TargetTable::new(alloc),
        }
    }
}

impl Visitor for Lookout {
    ghost use Rattle.std.specs.Prelude.{[], ⊤, fold};
    ghost use Rattle.vdr_ais.specs.Tables.{Shows};
    ghost use Rattle.vdr_ais.specs.Targets.{nothing, targets_of, targets_text, with_record};

    /// There was no memory for the table.
    type Reason = AllocError;

    ghost has = { λ _ seen now. Shows (fold with_record nothing seen) now.table };

    ghost line = { λ _ _ _. [] };

    ghost last = { λ _ seen. targets_text (targets_of seen) };

    ghost stops = { λ _ _ _. ⊤ };

    fn visit<O: Sink>(
        &mut self,
        item: &Record,
        _out: &mut O,
    ) -> Result<(), VisitorRefused<AllocError>> {
        match self.table.add(item) {
            Ok(()) => Ok(()),
            Err(none) => Err(VisitorRefused::Own(none)),
        }
    }

    fn finish<O: Sink>(&mut self, out: &mut O) -> Result<(), VisitorRefused<AllocError>> {
        match self.table.print(out) {
            Ok(()) => Ok(()),
            Err(_) => Err(VisitorRefused::Output),
        }
    }
}
