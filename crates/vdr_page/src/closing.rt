// The rows that `watch` gives, the sources, and the end.
ghost use Rattle.std.specs.Prelude.{◌≡◌, ◌∷◌, ◌++◌, [], List, OnOk};
ghost use Rattle.std.specs.List.{flat_map};
ghost use Rattle.vdr_terms.specs.Records.{Record as Entry};
ghost use Rattle.vdr_watch.specs.Kept.{kept_of};
ghost use Rattle.vdr_watch.specs.Supervision.{met_in};
ghost use Rattle.vdr_watch.specs.Texts.{closing_text, record_text};
ghost use Rattle.vdr_page.specs.Pages.{end_row, source_row};
ghost use Rattle.vdr_page.specs.Template.{template_tail};
ghost use Rattle.vdr_page.specs.Watched.{watch_rows};

use crate::draft::{Draft, push_lines};
use crate::field::{Field, push_row};
use crate::template::tail;
use std::alloc::AllocError;
use vdr_entry::Record;
use vdr_sources::Row;
use vdr_terms::group_name;
use vdr_watch::Watch;

// Writes what a record shows of the equipment.
fn watch_record(watch: &mut Watch, draft: &mut Draft, item: &Record) -> Result<(), AllocError>
    ensures watch { (before : List Entry) → watch.old ≡ kept_of before → OnOk result (watch.new ≡ kept_of (before ++ item.now ∷ [])) }
    ensures text { (before : List Entry) → watch.old ≡ kept_of before → OnOk result (draft.new.bytes.items ≡ record_text (met_in before) item.now) }
{
    draft.bytes.clear();
    match watch.add(item, draft) {
        Ok(()) => Ok(()),
        Err(_) => Err(AllocError),
    }
}

/// Appends a row for each line that `watch` prints at a record.
pub(crate) fn push_watched(
    text: &mut Vec<u8>,
    draft: &mut Draft,
    watch: &mut Watch,
    item: &Record,
) -> Result<(), AllocError>
    ensures watch { (before : List Entry) → watch.old ≡ kept_of before → OnOk result (watch.new ≡ kept_of (before ++ item.now ∷ [])) }
    ensures text { (before : List Entry) → watch.old ≡ kept_of before → OnOk result (text.new.items ≡ text.old.items ++ watch_rows (record_text (met_in before) item.now)) }
{
    watch_record(watch, draft, item)?;
    push_lines(text, draft.bytes.as_slice())
}

// Writes what the end shows of the equipment.
fn watch_end(watch: &mut Watch, draft: &mut Draft) -> Result<(), AllocError>
    ensures same { watch.new ≡ watch.old }
    ensures text { (records : List Entry) → watch.old ≡ kept_of records → OnOk result (draft.new.bytes.items ≡ closing_text records) }
{
    draft.bytes.clear();
    match watch.finish(draft) {
        Ok(()) => Ok(()),
        Err(_) => Err(AllocError),
    }
}

/// Appends a row for each line that `watch` prints at the end.
pub(crate) fn push_watch_end(
    text: &mut Vec<u8>,
    draft: &mut Draft,
    watch: &mut Watch,
) -> Result<(), AllocError>
    ensures same { watch.new ≡ watch.old }
    ensures text { (records : List Entry) → watch.old ≡ kept_of records → OnOk result (text.new.items ≡ text.old.items ++ watch_rows (closing_text records)) }
{
    watch_end(watch, draft)?;
    push_lines(text, draft.bytes.as_slice())
}

fn push_source(text: &mut Vec<u8>, row: &Row) -> Result<(), AllocError>
    ensures { OnOk result (text.new.items ≡ text.old.items ++ source_row row.now) }
{
    push_row(
        text,
        b"source",
        &[
            Field::Text(group_name(row.group()).as_bytes()),
            Field::Text(row.name()),
            Field::Number(row.first()),
            Field::Number(row.last()),
            Field::Number(row.lines()),
            Field::Number(row.bad()),
            Field::Number(row.breaks()),
        ],
    )
}

/// Appends the rows of sources.
pub(crate) fn push_sources(text: &mut Vec<u8>, rows: &[Row]) -> Result<(), AllocError>
    ensures { OnOk result (text.new.items ≡ text.old.items ++ flat_map source_row rows.now) }
{
    for row in rows {
        push_source(text, row)?;
    }
    Ok(())
}

/// Appends the last row, and the second text of the template.
#[tactic(auto, unfolding(crate::specs::Pages::end_row))]
pub(crate) fn push_end(text: &mut Vec<u8>) -> Result<(), AllocError>
    ensures { OnOk result (text.new.items ≡ text.old.items ++ end_row ++ template_tail) }
{
    text.extend_from_slice(b"[\"end\"]\n")?;
    text.extend_from_slice(tail())
}
