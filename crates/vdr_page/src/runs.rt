// The rows of runs of readings.
ghost use Rattle.std.specs.Prelude.{◌≡◌, ◌++◌, IfOk, OnOk, codes};
ghost use Rattle.std.specs.List.{flat_map};
ghost use Rattle.vdr_thin.specs.Runs.{kept};
ghost use Rattle.vdr_thin.specs.declared.kind.Kind.TheVariants.{Ship, Value};
ghost use Rattle.vdr_page.specs.Fields.{keyed_row};
ghost use Rattle.vdr_page.specs.Runs.{kind_name, open_row, open_rows, point_text, points_text, run_fields, run_row, run_row_if, valid_text};

use crate::field::{Field, flag, push_keyed_row};
use itoa::Buffer;
use std::alloc::{AllocError, Global};
use vdr_thin::{Kind, Point, Row, Run};

// What readings say of themselves.
fn valid_text(valid: Option<bool>) -> &'static [u8]
    ensures { result.now ≡ valid_text valid }
{
    match valid {
        None => b"",
        Some(true) => b"1",
        Some(false) => b"0",
    }
}

fn push_point(text: &mut Vec<u8>, point: &Point) -> Result<(), AllocError>
    ensures { OnOk result (text.new.items ≡ text.old.items ++ point_text point.now) }
{
    text.extend_from_slice(Buffer::new().format(point.reading.utc).as_bytes())?;
    text.extend_from_slice(b",")?;
    text.extend_from_slice(point.reading.text.as_slice())
}

// The points behind the first one.
fn push_others(text: &mut Vec<u8>, points: &[Point]) -> Result<(), AllocError>
    ensures { OnOk result (text.new.items ≡ text.old.items ++ flat_map (λ q. codes "," ++ point_text q) points.now) }
{
    for point in points {
        text.extend_from_slice(b",")?;
        push_point(text, point)?;
    }
    Ok(())
}

fn push_points(text: &mut Vec<u8>, points: &[Point]) -> Result<(), AllocError>
    ensures { OnOk result (text.new.items ≡ text.old.items ++ points_text points.now) }
{
    let [first, others @ ..] = points else {
        return text.extend_from_slice(b"[]");
    };
    text.extend_from_slice(b"[")?;
    push_point(text, first)?;
    push_others(text, others)?;
    text.extend_from_slice(b"]")
}

// The list of what is shown of a run.
fn list_of(alloc: Global, run: &Run) -> Result<Vec<u8>, AllocError>
    ensures { IfOk result (λ list. list.items ≡ points_text (kept run.now)) }
{
    let mut list = Vec::new(alloc);
    push_points(&mut list, run.points().as_slice())?;
    Ok(list)
}

fn push_thinned(
    text: &mut Vec<u8>,
    name: &[u8],
    key: &[u8],
    list: &[u8],
    run: &Run,
) -> Result<(), AllocError>
    ensures { OnOk result (text.new.items ≡ text.old.items ++ keyed_row name.now key.now (run_fields Value list.now run.now)) }
{
    push_keyed_row(
        text,
        name,
        key,
        &[
            Field::Text(valid_text(run.valid())),
            flag(run.is_behind()),
            Field::Number(run.marks()),
            Field::Number(run.count()),
            Field::Made(list),
        ],
    )
}

fn push_ship(text: &mut Vec<u8>, key: &[u8], list: &[u8], run: &Run) -> Result<(), AllocError>
    ensures { OnOk result (text.new.items ≡ text.old.items ++ keyed_row (codes "ship") key.now (run_fields Ship list.now run.now)) }
{
    push_keyed_row(
        text,
        b"ship",
        key,
        &[Field::Number(run.count()), Field::Made(list)],
    )
}

/// Appends the row of a run.
pub(crate) fn push_run(
    alloc: Global,
    text: &mut Vec<u8>,
    kind: Kind,
    key: &[u8],
    run: &Run,
) -> Result<(), AllocError>
    ensures { OnOk result (text.new.items ≡ text.old.items ++ run_row kind key.now run.now) }
{
    let list = list_of(alloc, run)?;
    match kind {
        Kind::Value => push_thinned(text, b"v", key, list.as_slice(), run),
        Kind::Position => push_thinned(text, b"p", key, list.as_slice(), run),
        Kind::Ship => push_ship(text, key, list.as_slice(), run),
    }
}

/// Appends the row of a run, if there is one.
pub(crate) fn push_run_if(
    alloc: Global,
    text: &mut Vec<u8>,
    kind: Kind,
    key: &[u8],
    run: &Option<Run>,
) -> Result<(), AllocError>
    ensures { OnOk result (text.new.items ≡ text.old.items ++ run_row_if kind key.now run.now) }
{
    match run {
        Some(run) => push_run(alloc, text, kind, key, run),
        None => Ok(()),
    }
}

/// Appends the runs that go on.
pub(crate) fn push_open_runs(
    alloc: Global,
    text: &mut Vec<u8>,
    rows: &[Row],
) -> Result<(), AllocError>
    ensures { OnOk result (text.new.items ≡ text.old.items ++ open_rows rows.now) }
{
    for row in rows {
        push_run(alloc, text, row.kind(), row.key(), row.run())?;
    }
    Ok(())
}
