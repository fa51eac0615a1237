// The rows of what the lines of records tell.
ghost use Rattle.std.specs.Prelude.{◌≡◌, ◌+◌, ◌≤◌, ◌++◌, [], OnOk, get_or, map, set};
ghost use Rattle.vdr_page.specs.Runs.{open_rows};
ghost use Rattle.vdr_page.specs.Series.{name_row, reading_of, rows_after, rows_with, telling_text, tellings_text};
ghost use Rattle.vdr_page.specs.TellingViews.{said_of, telling_of};
ghost use Rattle.vdr_page.specs.Tellings.Telling.{Says};

use crate::field::{Field, push_row};
use crate::runs::{push_open_runs, push_run_if};
use crate::tellings::{Name, Said, Shown, Telling};
use arrayvec::ArrayVec;
use std::alloc::{AllocError, Global};
use vdr_thin::{Reading, Series};

/// When a record was made, and how many Gaps of its group stand before it.
#[derive(Clone, Copy, Drop)]
pub(crate) struct Moment {
    /// In milliseconds since 1970.
    pub(crate) utc: u64,
    pub(crate) gaps: u64,
}

// A text of its own.
fn copied(text: &Shown) -> Shown
    ensures { result.items ≡ text.now.items }
{
    let mut copy = ArrayVec::new();
    let _ = copy.try_extend_from_slice(text.as_slice());
    copy
}

fn reading_of(moment: Moment, said: &Said) -> Reading
    ensures { result ≡ reading_of moment.utc moment.gaps (said_of said.now) }
{
    Reading {
        utc: moment.utc,
        gaps: moment.gaps,
        valid: said.valid,
        measure: said.measure,
        second: said.second,
        text: copied(&said.text),
    }
}

// Takes a reading, and appends the row of the run that it ends.
fn push_said(
    alloc: Global,
    text: &mut Vec<u8>,
    series: &mut Series,
    moment: Moment,
    said: &Said,
) -> Result<(), AllocError>
    ensures series { OnOk result (series.new ≡ record series.old { rows = rows_with series.old.step moment.utc moment.gaps series.old.rows (Says (said_of said.now)) }) }
    ensures text { OnOk result (text.new.items ≡ text.old.items ++ telling_text series.old.step moment.utc moment.gaps series.old.rows (Says (said_of said.now))) }
{
    let key = said.key.as_slice();
    let ended = series.push(said.kind, key, reading_of(moment, said))?;
    push_run_if(alloc, text, said.kind, key, &ended)
}

fn push_name(text: &mut Vec<u8>, utc: u64, name: &Name) -> Result<(), AllocError>
    ensures { OnOk result (text.new.items ≡ text.old.items ++ name_row utc name.now.formatter.now name.now.mmsi name.now.name.items) }
{
    push_row(
        text,
        b"name",
        &[
            Field::Number(utc),
            Field::Text(name.formatter),
            Field::Number(u64::from(name.mmsi)),
            Field::Text(name.name.as_slice()),
        ],
    )
}

fn push_telling(
    alloc: Global,
    text: &mut Vec<u8>,
    series: &mut Series,
    moment: Moment,
    telling: &Telling,
) -> Result<(), AllocError>
    ensures series { OnOk result (series.new ≡ record series.old { rows = rows_with series.old.step moment.utc moment.gaps series.old.rows (telling_of telling.now) }) }
    ensures text { OnOk result (text.new.items ≡ text.old.items ++ telling_text series.old.step moment.utc moment.gaps series.old.rows (telling_of telling.now)) }
{
    match telling {
        Telling::Says(said) => push_said(alloc, text, series, moment, said),
        Telling::Names(name) => push_name(text, moment.utc, name),
    }
}

/// Takes the readings of a record, and appends the rows of the runs that they end, and of the record's names.
pub(crate) fn push_tellings(
    alloc: Global,
    text: &mut Vec<u8>,
    series: &mut Series,
    moment: Moment,
    tellings: &[Telling],
) -> Result<(), AllocError>
    ensures series { OnOk result (series.new ≡ record series.old { rows = rows_after series.old.step moment.utc moment.gaps series.old.rows (map telling_of tellings.now) }) }
    ensures text { OnOk result (text.new.items ≡ text.old.items ++ tellings_text series.old.step moment.utc moment.gaps series.old.rows (map telling_of tellings.now)) }
{
    for telling in tellings {
        push_telling(alloc, text, series, moment, telling)?;
    }
    Ok(())
}

/// Appends the rows of the runs that go on, and ends them.
pub(crate) fn close_runs(
    alloc: Global,
    text: &mut Vec<u8>,
    series: &mut Series,
) -> Result<(), AllocError>
    ensures series { OnOk result (series.new ≡ record series.old { rows = [] }) }
    ensures text { OnOk result (text.new.items ≡ text.old.items ++ open_rows series.old.rows) }
{
    push_open_runs(alloc, text, series.rows())?;
    series.clear();
    Ok(())
}

/// One more Gap of a group.
pub(crate) fn count_gap(counts: &mut [u64; 16], group: u8) -> Result<(), AllocError>
    requires { group ≤ 15 }
    ensures { OnOk result (counts.new ≡ set counts.old group (get_or counts.old group 0 + 1)) }
{
    let slot = usize::from(group);
    let Some(count) = counts[slot].checked_add(1) else {
        return Err(AllocError);
    };
    counts[slot] = count;
    Ok(())
}
