// What prints the rows of records.
ghost use Rattle.std.specs.Prelude.{◌≡◌, ◌∷◌, ◌++◌, [], List, OnOk};
ghost use Rattle.vdr_terms.specs.Records.{Record as Entry};
ghost use Rattle.vdr_page.specs.Pages.{last_lines, line_at};
ghost use Rattle.vdr_page.specs.declared.survey.Survey.{Survey as Known};

use crate::closing::{push_end, push_sources, push_watch_end, push_watched};
use crate::draft::Draft;
use crate::ledger::Ledger;
use crate::printing::print_text;
use crate::survey::Survey;
use std::alloc::{AllocError, Global};
use vdr_entry::Record;
use vdr_outside::Sink;
use vdr_sources::SourceTable;
use vdr_visit::{Visitor, VisitorRefused};
use vdr_watch::Watch;

/// Prints the rows of the records of a page, which were surveyed before, and behind the last the rows that are open, the sources, the end, and the
/// second text of the template.
///
/// It takes memory for the text of a record, and for the series, ships, sources, alarms and alerts, and none that grows with time.
#[derive(Drop)]
pub struct PagePrinter {
    pub(crate) survey: Survey,
    pub(crate) ledger: Ledger,
    pub(crate) sources: SourceTable,
    pub(crate) watch: Watch,
    draft: Draft,
    // The rows that are to be printed.
    text: Vec<u8>,
}

impl PagePrinter {
    ghost use Rattle.vdr_page.specs.Held.{HasTold};

    /// One that has told no record, of records that were surveyed so.
    pub fn new(alloc: Global, survey: Survey) -> PagePrinter
        ensures { HasTold survey [] result }
    {
        PagePrinter {
            survey,
            ledger: Ledger::new(alloc, &survey),
            sources: SourceTable::new(alloc),
            watch: Watch::new(alloc),
            draft: Draft::new(alloc),
            text: Vec::new(alloc),
        }
    }

    // Gathers the rows of a record.
    fn tell(&mut self, item: &Record) -> Result<(), AllocError>
        ensures told { (survey : Known) (seen : List Entry) → HasTold survey seen self.old → OnOk result (HasTold survey (seen ++ item.now ∷ []) self.new) }
        ensures text { (survey : Known) (seen : List Entry) → HasTold survey seen self.old → OnOk result (self.new.text.items ≡ line_at survey seen item.now) }
    {
        self.text.clear();
        self.sources.add(item)?;
        self.ledger.take(&mut self.text, &self.survey, item)?;
        push_watched(&mut self.text, &mut self.draft, &mut self.watch, item)
    }

    // Gathers what stands behind the last record.
    fn close(&mut self) -> Result<(), AllocError>
        ensures told { (survey : Known) (seen : List Entry) → HasTold survey seen self.old → OnOk result (HasTold survey seen self.new) }
        ensures text { (survey : Known) (seen : List Entry) → HasTold survey seen self.old → OnOk result (self.new.text.items ≡ last_lines survey seen) }
    {
        self.text.clear();
        self.ledger.push_open(&mut self.text)?;
        push_watch_end(&mut self.text, &mut self.draft, &mut self.watch)?;
        push_sources(&mut self.text, self.sources.rows())?;
        push_end(&mut self.text)
    }
}

impl Visitor for PagePrinter {
    ghost use Rattle.std.specs.Prelude.{⊤};
    ghost use Rattle.vdr_page.specs.Held.{HasTold};

    /// There was no memory for the text of a record, or for one more series, source, alarm or alert.
    type Reason = AllocError;

    ghost has = { λ first seen now. HasTold first.survey seen now };

    ghost line = { λ first seen item. line_at first.survey seen item };

    ghost last = { λ first seen. last_lines first.survey seen };

    ghost stops = { λ _ _ _. ⊤ };

    fn visit<O: Sink>(
        &mut self,
        item: &Record,
        out: &mut O,
    ) -> Result<(), VisitorRefused<AllocError>> {
        match self.tell(item) {
            Ok(()) => print_text(self.text.as_slice(), out),
            Err(none) => Err(VisitorRefused::Own(none)),
        }
    }

    fn finish<O: Sink>(&mut self, out: &mut O) -> Result<(), VisitorRefused<AllocError>> {
        match self.close() {
            Ok(()) => print_text(self.text.as_slice(), out),
            Err(none) => Err(VisitorRefused::Own(none)),
        }
    }
}
