// What is open of records behind which others come.
ghost use Rattle.std.specs.Prelude.{◌≡◌, ◌≤◌, ◌++◌, [], ℕ, OnOk};
ghost use Rattle.vdr_terms.specs.Records.Content.{Datagram};
ghost use Rattle.vdr_page.specs.Gaps.{closed_by, gap_row_if, stamp_of};
ghost use Rattle.vdr_page.specs.Opens.{Open, closed, closing, content_rows, gaps_of, marks_of, nothing_open, open_after, with_gap, with_lines};
ghost use Rattle.vdr_page.specs.Rows.{mark_row};
ghost use Rattle.vdr_page.specs.Series.{tellings_text};
ghost use Rattle.vdr_page.specs.Surveys.{step_of};
ghost use Rattle.vdr_page.specs.Tellings.{tellings_of};

use crate::gathering::gather;
use crate::marks::{Slots, push_gaps, stamp_of, take_gap};
use crate::own::{push_mark, push_payload};
use crate::runs::push_open_runs;
use crate::series::{Moment, close_runs, count_gap, push_tellings};
use crate::survey::Survey;
use crate::tellings::Telling;
use std::alloc::{AllocError, Global};
use vdr_ais::Unfinished;
use vdr_entry::{Content, Record};
use vdr_terms::Counts;
use vdr_thin::Series;

/// The rows that go on, and what is to be known of the records before for those to come.
#[derive(Drop)]
pub(crate) struct Ledger {
    alloc: Global,
    // What the parts of AIS messages have in common.
    pub(crate) unfinished: Unfinished,
    // How many Gaps each group had.
    pub(crate) counts: [u64; 16],
    // The rows of gaps, by group.
    pub(crate) slots: Slots,
    pub(crate) series: Series,
    // What the last record told.
    told: Vec<Telling>,
}

impl Ledger {
    ghost use Rattle.vdr_page.specs.Ledgers.{Keeps};

    /// That of no record, of a page with such buckets of time.
    pub(crate) fn new(alloc: Global, survey: &Survey) -> Ledger
        ensures { Keeps (step_of survey.now) nothing_open result }
    {
        Ledger {
            alloc,
            unfinished: Unfinished::new(alloc),
            counts: [0; 16],
            slots: [None; 16],
            series: Series::new(alloc, survey.step()),
            told: Vec::new(alloc),
        }
    }

    // Appends all rows that go on, and ends them.
    fn close(&mut self, text: &mut Vec<u8>) -> Result<(), AllocError>
        ensures open { (step : ℕ) (o : Open) → Keeps step o self.old → OnOk result (Keeps step (closed o) self.new) }
        ensures text { (step : ℕ) (o : Open) → Keeps step o self.old → OnOk result (text.new.items ≡ text.old.items ++ closing o) }
    {
        close_runs(self.alloc, text, &mut self.series)?;
        push_gaps(text, &self.slots)?;
        self.slots = [None; 16];
        Ok(())
    }

    // Takes a Gap, and appends the row that it closes.
    fn take_gap(
        &mut self,
        text: &mut Vec<u8>,
        survey: &Survey,
        item: &Record,
        missed: Counts,
    ) -> Result<(), AllocError>
        requires { item.now.group ≤ 15 }
        ensures open { (o : Open) → Keeps (step_of survey.now) o self.old → OnOk result (Keeps (step_of survey.now) (with_gap (step_of survey.now) o item.now missed) self.new) }
        ensures text { (o : Open) → Keeps (step_of survey.now) o self.old → OnOk result (text.new.items ≡ text.old.items ++ gap_row_if item.now.group (closed_by (step_of survey.now) (marks_of o item.now) (stamp_of item.now))) }
    {
        count_gap(&mut self.counts, item.group)?;
        take_gap(text, &mut self.slots, item, missed, survey.step())
    }

    // Takes the lines of a Datagram, and appends the rows of the runs that their readings end, and of names.
    fn take_lines(&mut self, text: &mut Vec<u8>, item: &Record) -> Result<(), AllocError>
        requires { item.now.group ≤ 15 }
        ensures open { (step : ℕ) (o : Open) → Keeps step o self.old → OnOk result (Keeps step (with_lines step o item.now) self.new) }
        ensures text { (step : ℕ) (o : Open) → Keeps step o self.old → OnOk result (text.new.items ≡ text.old.items ++ tellings_text step (stamp_of item.now) (gaps_of o item.now) o.rows (tellings_of o.back item.now)) }
    {
        gather(self.alloc, item, &mut self.unfinished, &mut self.told)?;
        let moment = Moment {
            utc: stamp_of(item),
            gaps: self.counts[usize::from(item.group)],
        };
        push_tellings(
            self.alloc,
            text,
            &mut self.series,
            moment,
            self.told.as_slice(),
        )
    }

    // Takes a Start or a Stop.
    fn take_mark(
        &mut self,
        text: &mut Vec<u8>,
        name: &[u8],
        item: &Record,
    ) -> Result<(), AllocError>
        ensures open { (step : ℕ) (o : Open) → Keeps step o self.old → OnOk result (Keeps step (closed o) self.new) }
        ensures text { (step : ℕ) (o : Open) → Keeps step o self.old → OnOk result (text.new.items ≡ text.old.items ++ (closing o ++ mark_row name.now item.now)) }
    {
        self.close(text)?;
        push_mark(text, name, item)
    }

    // Takes a Datagram.
    fn take_datagram(
        &mut self,
        text: &mut Vec<u8>,
        survey: &Survey,
        item: &Record,
        payload: &[u8],
    ) -> Result<(), AllocError>
        requires { item.now.group ≤ 15 }
        ensures open { (step : ℕ) (o : Open) → Keeps step o self.old → OnOk result (Keeps step (with_lines step o item.now) self.new) }
        ensures text { (o : Open) → Keeps (step_of survey.now) o self.old → OnOk result (text.new.items ≡ text.old.items ++ content_rows survey.now o item.now (Datagram payload.now)) }
    {
        push_payload(self.alloc, text, survey, item, payload)?;
        self.take_lines(text, item)
    }

    /// Takes a record, and appends its rows.
    pub(crate) fn take(
        &mut self,
        text: &mut Vec<u8>,
        survey: &Survey,
        item: &Record,
    ) -> Result<(), AllocError>
        ensures open { (o : Open) → Keeps (step_of survey.now) o self.old → OnOk result (Keeps (step_of survey.now) (open_after (step_of survey.now) o item.now item.now.content) self.new) }
        ensures text { (o : Open) → Keeps (step_of survey.now) o self.old → OnOk result (text.new.items ≡ text.old.items ++ content_rows survey.now o item.now item.now.content) }
    {
        match item.content() {
            Content::Start => self.take_mark(text, b"start", item),
            Content::Datagram(payload) => self.take_datagram(text, survey, item, payload),
            Content::Gap(missed) => self.take_gap(text, survey, item, missed),
            Content::Stop => self.take_mark(text, b"stop", item),
        }
    }

    /// Appends all rows that go on.
    pub(crate) fn push_open(&self, text: &mut Vec<u8>) -> Result<(), AllocError>
        ensures { (step : ℕ) (o : Open) → Keeps step o self.now → OnOk result (text.new.items ≡ text.old.items ++ closing o) }
    {
        push_open_runs(self.alloc, text, self.series.rows())?;
        push_gaps(text, &self.slots)
    }
}
