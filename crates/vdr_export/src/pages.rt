// A page out of what a query selects, in two passes: what its records come to, and then their rows.
ghost use Rattle.std.specs.Prelude.{◌≡◌, ◌⊎◌, ℕ, List, Err, IfErr, IfOk, map, ⊤};
ghost use Rattle.vdr_terms.specs.Records.{Record};
ghost use Rattle.vdr_entry.specs.Queries.{asked};
ghost use Rattle.vdr_page.specs.Fronts.{save_of, words_of};
ghost use Rattle.vdr_page.specs.Pages.{last_lines, line_at};
ghost use Rattle.vdr_page.specs.Surveys.{survey_of};
ghost use Rattle.vdr_visit.specs.Prints.{whole_text};
ghost use Rattle.vdr_visit.specs.Refusals.{HasOutputCause};
ghost use Rattle.vdr_visit.specs.Visits.{HasHanded, end_of};
ghost use Rattle.vdr_visit.specs.declared.visit_refused.VisitRefused.TheVariants.{Damaged, NoChannel, NoIncident, Output};
ghost use Rattle.vdr_export.specs.Asked.{MayBeAsked};
ghost use Rattle.vdr_export.specs.Paged.{HasPaged, pass_end};

use crate::nowhere::Nowhere;
use std::alloc::{AllocError, Global};
use vdr_entry::Query;
use vdr_outside::{Media, Sink};
use vdr_page::{PagePrinter, PageWords, Save, Survey, Surveyor, law_of_pages, print_front};
use vdr_visit::{Reader, VisitRefused, visit_buffered};

// What the records that a query selects come to.
fn survey_of<R: Reader, M: Media>(
    reader: &mut R,
    media: &mut M,
    query: &Query,
) -> Result<Survey, VisitRefused<AllocError>>
    requires asked { MayBeAsked R.Reader query.now reader.old (M.disk media.old).sizes }
    ensures found { (records : List Record) → R.tells _ M.Media reader.old media.old (asked query.now) records → IfOk result (λ survey. survey ≡ survey_of records) }
    ensures undamaged { (m offset : ℕ) → result ≡ Err (Damaged m offset) → (records : List Record) → R.tells _ M.Media reader.old media.old (asked query.now) records → ⊥ }
    ensures asked { (result ≡ Err NoChannel) ⊎ (result ≡ Err NoIncident) → ⊥ }
    ensures silent { result ≡ Err Output → ⊥ }
    ensures leaves { R.leaves _ M.Media (asked query.now) reader.old reader.new media.old media.new (pass_end result) }
{
    let mut surveyor = Surveyor::new();
    match reader.visit(media, query, &mut surveyor, &mut Nowhere) {
        Ok(()) => Ok(surveyor.survey()),
        Err(stop) => Err(stop),
    }
}

// Prints the rows of the records that a query selects, and what stands behind them.
fn print_rows<R: Reader, M: Media, O: Sink>(
    alloc: Global,
    reader: &mut R,
    media: &mut M,
    query: &Query,
    survey: Survey,
    out: &mut O,
) -> Result<(), VisitRefused<AllocError>>
    requires asked { MayBeAsked R.Reader query.now reader.old (M.disk media.old).sizes }
    ensures asked { (result ≡ Err NoChannel) ⊎ (result ≡ Err NoIncident) → ⊥ }
    ensures handed { HasHanded (R.tells _ M.Media reader.old media.old (asked query.now)) (λ _. ⊤) (λ _ _. ⊤) (line_at survey) (whole_text (line_at survey) (last_lines survey))
        (O.taken out.old) (O.taken out.new) result }
    ensures leaves { R.leaves _ M.Media (asked query.now) reader.old reader.new media.old media.new (end_of result) }
    ensures output { HasOutputCause (O.faults out.old) (O.faults out.new) (result ≡ Err Output) }
{
    let mut printer = PagePrinter::new(alloc, survey);
    visit_buffered(reader, media, query, &mut printer, out)
}

/// Writes the page of what a query selects (this project's profile, docs/formats/page.md): the records are read once for what they come to, and once
/// for their rows. The words are those that asked for it, and the saves those that are live. Takes memory for open runs and tables, and none for
/// records. The query's channel is configured, and its incident is live, where it asks for one.
///
/// `Own` comes where there is no memory. `Damaged` never comes of media that hold what was recorded. Where a read fails, or there is no memory, nothing
/// is written, or a front of the page with whole rows; where a write fails, a front of it.
pub fn write_page<R: Reader, M: Media, O: Sink>(
    alloc: Global,
    reader: &mut R,
    media: &mut M,
    query: &Query,
    words: &PageWords<'_>,
    saves: &[Save],
    out: &mut O,
) -> Result<(), VisitRefused<AllocError>>
    requires asked { MayBeAsked R.Reader query.now reader.old (M.disk media.old).sizes }
    ensures page { HasPaged (R.tells _ M.Media reader.old media.old (asked query.now)) (words_of words.now) (map save_of saves.now) (O.taken out.old) (O.taken out.new) result }
    ensures asked { (result ≡ Err NoChannel) ⊎ (result ≡ Err NoIncident) → ⊥ }
    ensures leaves { R.leaves _ M.Media (asked query.now) reader.old reader.new media.old media.new (end_of result) }
    ensures output { HasOutputCause (O.faults out.old) (O.faults out.new) (result ≡ Err Output) }
{
    R::law_of_visits::<M>();
    law_of_pages();
    let survey = survey_of(reader, media, query)?;
    print_front(alloc, words, &survey, saves, out)?;
    print_rows(alloc, reader, media, query, survey, out)
}
