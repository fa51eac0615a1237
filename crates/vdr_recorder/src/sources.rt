// The sources of what was recorded.
//
// The table is printed behind the last record alone: each record may change each row.
ghost use Rattle.std.specs.Prelude.{◌≡◌, ◌⊎◌, [], length, true, Err};
ghost use Rattle.vdr_entry.specs.Queries.{asked};
ghost use Rattle.vdr_vault.specs.Vaults.{AreRings};
ghost use Rattle.vdr_visit.specs.Refusals.{HasOutputCause, IsAccepted, after_fault, lacks_channel, lacks_incident, unanswered};
ghost use Rattle.vdr_vault.specs.Visits.{ReadsEachOnce};
ghost use Rattle.vdr_visit.specs.declared.visit_refused.VisitRefused.TheVariants.{Fault as AFault, NoChannel, NoIncident, Output};
ghost use Rattle.vdr_recorder.specs.Looks.{HasLooked};
ghost use Rattle.vdr_recorder.specs.Playing.{HasTold};

use crate::Recorder;
use std::alloc::{AllocError, Global};
use vdr_entry::{Query, Record};
use vdr_outside::{Media, Printable, Sink};
use vdr_sources::SourceTable;
use vdr_visit::{VisitRefused, Visitor, VisitorRefused};

/// Counts the lines of records, and prints the table of their sources behind the last.
#[derive(Drop)]
pub struct SourceCounter {
    table: SourceTable,
}

impl SourceCounter {
    /// A counter of no line.
    pub fn new(alloc: Global) -> SourceCounter
        ensures { result.table ≡ [] }
    {
        SourceCounter {
            table: SourceTable::new(alloc),
        }
    }
}

impl Visitor for SourceCounter {
    ghost use Rattle.std.specs.Prelude.{◌≡◌, [], ⊤, fold};
    ghost use Rattle.vdr_sources.specs.Tables.{sources_text, with_record};

    /// There was no memory for the table.
    type Reason = AllocError;

    ghost has = { λ first seen now. now.table ≡ fold with_record first.table seen };

    ghost line = { λ _ _ _. [] };

    ghost last = { λ first seen. sources_text (fold with_record first.table seen) };

    ghost stops = { λ _ _ _. ⊤ };

    fn visit<O: Sink>(
        &mut self,
        item: &Record,
        _out: &mut O,
    ) -> Result<(), VisitorRefused<AllocError>> {
        match self.table.add(item) {
            Ok(()) => Ok(()),
            Err(none) => Err(VisitorRefused::Own(none)),
        }
    }

    fn finish<O: Sink>(&mut self, out: &mut O) -> Result<(), VisitorRefused<AllocError>> {
        match self.table.print(out) {
            Ok(()) => Ok(()),
            Err(_) => Err(VisitorRefused::Output),
        }
    }
}

impl Recorder {
    /// Prints the table of sources of the records that a query selects, each record read once, behind the last of them. It takes memory for
    /// the table, and `Own` says that there was none. Reads the query's medium alone, and of it at most a segment for each that meets the query, each
    /// once (`bound`).
    ///
    /// `NoChannel` comes before `NoIncident`, and both before `Fault` of a write that had failed. Nothing is printed unless all records were
    /// read; after `Output` a front of the table is. On media that hold what was recorded, regular or not, `Damaged` never comes.
    pub fn sources<M: Media, O: Sink>(
        &mut self,
        alloc: Global,
        media: &mut M,
        query: &Query,
        out: &mut O,
    ) -> Result<(), VisitRefused<AllocError>>
        requires rings { AreRings self.old.vault (M.disk media.old).sizes }
        ensures accepted { IsAccepted (lacks_channel (length self.old.vault.config.channels) query.now.channel) (lacks_incident self.old.vault.table (asked query.now).medium) result }
        ensures told { HasTold (asked query.now) self.old.vault (M.disk media.old) (O.taken out.old) (O.taken out.new) result }
        ensures unread { (result ≡ Err NoChannel) ⊎ (result ≡ Err NoIncident) → (self.new ≡ self.old) × (media.new ≡ media.old) × (out.new ≡ out.old) }
        ensures failed { self.old.vault.failed ≡ true → (self.new ≡ self.old) × (media.new ≡ media.old) × (out.new ≡ out.old)
            × (result ≡ after_fault (unanswered (lacks_channel (length self.old.vault.config.channels) query.now.channel) (lacks_incident self.old.vault.table (asked query.now).medium))) }
        ensures looked { HasLooked (asked query.now) self.old self.new (M.disk media.old) (M.disk media.new) (M.bytes_read media.old) (M.bytes_read media.new) (M.faults media.old) (M.faults media.new) (result ≡ Err AFault) }
        ensures bound { ReadsEachOnce (asked query.now) self.old.vault (M.bytes_read media.old) (M.bytes_read media.new) }
        ensures output { HasOutputCause (O.faults out.old) (O.faults out.new) (result ≡ Err Output) }
    {
        self.visit(media, query, &mut SourceCounter::new(alloc), out)
    }
}
