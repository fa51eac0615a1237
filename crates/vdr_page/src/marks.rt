// The rows that tell what was missed.
ghost use Rattle.std.specs.Prelude.{◌≡◌, ◌≤◌, ◌<◌, ◌++◌, All, OnOk, None, Some, get_or, set};
ghost use Rattle.std.specs.List.{flat_map};
ghost use Rattle.vdr_page.specs.Gaps.{both_missed, closed_by, first_marks, gap_row, gap_row_if, gap_rows, goes_on, marks_with, more_marks, stamp_of};

use crate::field::{Field, push_row};
use std::alloc::AllocError;
use vdr_entry::Record;
use vdr_terms::{Counts, group_name};

/// The Gaps of a group that lie in one bucket of time.
#[derive(Clone, Copy, Drop)]
pub(crate) struct Marks {
    /// The place of the first one.
    pub(crate) place: u64,
    /// The stamps of the first and of the last one, in milliseconds since 1970.
    pub(crate) first: u64,
    pub(crate) last: u64,
    /// How many there are.
    pub(crate) marks: u64,
    /// What they miss, by cause.
    pub(crate) missed: Counts,
}

/// The rows that are open, by the number of their group.
pub(crate) type Slots = [Option<Marks>; 16];

/// The groups in the byte order of their names.
const BY_NAME: [u8; 16] = [0, 3, 7, 5, 2, 1, 6, 8, 9, 10, 11, 12, 13, 14, 15, 4];

/// The stamp of a record, in milliseconds since 1970.
pub(crate) fn stamp_of(item: &Record) -> u64
    ensures { result ≡ stamp_of item.now }
{
    item.utc.unsigned_abs()
}

fn both_missed(before: Counts, missed: Counts) -> Counts
    ensures { result ≡ both_missed before missed }
{
    Counts {
        full: before.full.saturating_add(missed.full),
        rate: before.rate.saturating_add(missed.rate),
        bad: before.bad.saturating_add(missed.bad),
        large: before.large.saturating_add(missed.large),
    }
}

fn first_marks(place: u64, utc: u64, missed: Counts) -> Marks
    ensures { result ≡ first_marks place utc missed }
{
    Marks {
        place,
        first: utc,
        last: utc,
        marks: 1,
        missed,
    }
}

// Whether a Gap of this stamp stands in the row too.
fn goes_on(marks: &Marks, utc: u64, step: u64) -> bool
    requires { 0 < step }
    ensures { result ≡ goes_on step marks.now utc }
{
    marks.last <= utc && marks.last / step == utc / step
}

fn more_marks(marks: &Marks, utc: u64, missed: Counts) -> Marks
    ensures { result ≡ more_marks marks.now utc missed }
{
    Marks {
        place: marks.place,
        first: marks.first,
        last: utc,
        marks: marks.marks.saturating_add(1),
        missed: both_missed(marks.missed, missed),
    }
}

// The row that is open behind a Gap, by the one before.
fn marks_with(left: Option<Marks>, place: u64, utc: u64, missed: Counts, step: u64) -> Marks
    requires { 0 < step }
    ensures { result ≡ marks_with step left place utc missed }
{
    match left {
        Some(marks) if goes_on(&marks, utc, step) => more_marks(&marks, utc, missed),
        _ => first_marks(place, utc, missed),
    }
}

// The row that a Gap of this stamp closes, if it does.
fn closed_by(left: Option<Marks>, utc: u64, step: u64) -> Option<Marks>
    requires { 0 < step }
    ensures { result ≡ closed_by step left utc }
{
    match left {
        Some(marks) if !goes_on(&marks, utc, step) => left,
        _ => None,
    }
}

fn push_gap(text: &mut Vec<u8>, group: u8, marks: &Marks) -> Result<(), AllocError>
    requires { group ≤ 15 }
    ensures { OnOk result (text.new.items ≡ text.old.items ++ gap_row group marks.now) }
{
    push_row(
        text,
        b"gap",
        &[
            Field::Number(marks.place),
            Field::Number(marks.first),
            Field::Number(marks.last),
            Field::Text(group_name(group).as_bytes()),
            Field::Number(marks.marks),
            Field::Number(marks.missed.full),
            Field::Number(marks.missed.rate),
            Field::Number(marks.missed.bad),
            Field::Number(marks.missed.large),
        ],
    )
}

fn push_gap_if(text: &mut Vec<u8>, group: u8, left: Option<Marks>) -> Result<(), AllocError>
    requires { group ≤ 15 }
    ensures { OnOk result (text.new.items ≡ text.old.items ++ gap_row_if group left) }
{
    match left {
        Some(marks) => push_gap(text, group, &marks),
        None => Ok(()),
    }
}

// Appends the rows of these groups that are open.
fn push_open(text: &mut Vec<u8>, slots: &Slots, groups: &[u8]) -> Result<(), AllocError>
    requires { All (λ g. g ≤ 15) groups.now }
    ensures { OnOk result (text.new.items ≡ text.old.items ++ flat_map (λ g. gap_row_if g (get_or slots.now g None)) groups.now) }
{
    for group in groups {
        push_gap_if(text, *group, slots[usize::from(*group)])?;
    }
    Ok(())
}

/// Appends the rows that are open, by the names of their groups.
pub(crate) fn push_gaps(text: &mut Vec<u8>, slots: &Slots) -> Result<(), AllocError>
    ensures { OnOk result (text.new.items ≡ text.old.items ++ gap_rows slots.now) }
{
    push_open(text, slots, &BY_NAME)
}

/// Appends the row that a Gap of this group closes, if it does, and keeps the one that is open behind it.
pub(crate) fn take_gap(
    text: &mut Vec<u8>,
    slots: &mut Slots,
    item: &Record,
    missed: Counts,
    step: u64,
) -> Result<(), AllocError>
    requires step { 0 < step }
    requires group { item.now.group ≤ 15 }
    ensures text { OnOk result (text.new.items ≡ text.old.items ++ gap_row_if item.now.group (closed_by step (get_or slots.old item.now.group None) (stamp_of item.now))) }
    ensures slots { OnOk result (slots.new ≡ set slots.old item.now.group (Some (marks_with step (get_or slots.old item.now.group None) item.now.place (stamp_of item.now) missed))) }
{
    let (slot, utc) = (usize::from(item.group), stamp_of(item));
    let before = slots[slot];
    push_gap_if(text, item.group, closed_by(before, utc, step))?;
    slots[slot] = Some(marks_with(before, item.place, utc, missed, step));
    Ok(())
}
