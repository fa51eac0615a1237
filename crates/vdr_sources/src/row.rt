// The row of a source.
ghost use Rattle.std.specs.Prelude.{◌≡◌, ◌≤◌, ◌<◌, ◌+◌, ◌^◌, ◌++◌, codes, decimal, length, unsigned_abs};
ghost use Rattle.arrayvec.specs.ArrayVec.{array_vec_len};
ghost use Rattle.vdr_terms.specs.Stamps.{IsStamp};
ghost use Rattle.vdr_entry.specs.Utc.{utc_text};
ghost use Rattle.vdr_durability.specs.Sources.{break_at, first_row, is_next, one_line, source_cmp};
ghost use Rattle.vdr_sources.specs.Rows.{line_told, reading_told};
ghost use Rattle.vdr_sources.specs.Tables.{row_text};

use crate::line::Told;
use arrayvec::ArrayVec;
use itoa::Buffer;
use std::cmp::Ordering;
use std::marker::Model;
use vdr_entry::write_utc;
use vdr_terms::group_name;

/// Room for the longest row: a group of 4 bytes, a name of 15, two stamps of 24 and three numbers of 20, each with what is behind it.
pub(crate) const ROOM: usize = 134;

/// The row of a source: what the lines say that count for it.
#[derive(Drop)]
pub struct Row {
    group: u8,
    name: ArrayVec<u8, 15>,
    // The stamps of the first and of the last record with a line of it.
    first: i64,
    last: i64,
    lines: u64,
    bad: u64,
    breaks: u64,
    // The line count that was seen last.
    count: Option<u16>,
}

impl Model for Row {
    ghost use Rattle.vdr_durability.specs.Sources.{Row as ARow};
    ghost use Rattle.vdr_sources.specs.Rows.{IsKept};

    ghost Value = { ARow };

    ghost view = { λ r. record { source = record { group = r.group; name = r.name.items }; first = r.first; last = r.last; lines = r.lines; bad = r.bad; breaks = r.breaks; count = r.count } };

    ghost invariant = { λ r. IsKept (record { source = record { group = r.group; name = r.name.items }; first = r.first; last = r.last; lines = r.lines; bad = r.bad; breaks = r.breaks; count = r.count }) };
}

// The bytes of a name.
fn name_of(bytes: &[u8]) -> ArrayVec<u8, 15>
    requires { length bytes.now ≤ 15 }
    ensures { result.items ≡ bytes.now }
{
    let mut name = ArrayVec::new();
    let _ = name.try_extend_from_slice(bytes);
    name
}

// Whether a count comes next: one more than the one before, and after 999 it is 0 or 1.
fn is_next(before: u16, count: u16) -> bool
    ensures { result ≡ is_next before count }
{
    if before == 999 {
        return count == 0 || count == 1;
    }
    count as u32 == before as u32 + 1
}

// 1 where both are counts and the second is not next.
fn break_at(before: Option<u16>, count: Option<u16>) -> u64
    ensures breaks { result ≡ break_at before count }
    ensures few { result ≤ 1 }
{
    match (before, count) {
        (Some(before), Some(count)) if !is_next(before, count) => 1,
        _ => 0,
    }
}

// Appends a text, for which there is room.
fn push_text(line: &mut ArrayVec<u8, ROOM>, text: &[u8])
    requires { array_vec_len line.old + length text.now ≤ 134 }
    ensures { line.new.items ≡ line.old.items ++ text.now }
{
    for byte in text {
        line.push(*byte);
    }
}

// A stamp and the space behind it.
fn push_utc(line: &mut ArrayVec<u8, ROOM>, utc: i64)
    requires stamp { IsStamp utc }
    requires room { array_vec_len line.old + 25 ≤ 134 }
    ensures text { line.new.items ≡ line.old.items ++ utc_text utc ++ codes " " }
    ensures short { array_vec_len line.new ≤ array_vec_len line.old + 25 }
{
    let mut text = ArrayVec::new();
    write_utc(utc, &mut text);
    push_text(line, text.as_slice());
    push_text(line, b" ");
}

// A number and the byte behind it.
fn push_number(line: &mut ArrayVec<u8, ROOM>, number: u64, behind: &[u8])
    requires room { array_vec_len line.old + 21 ≤ 134 }
    requires one { length behind.now ≤ 1 }
    ensures text { line.new.items ≡ line.old.items ++ decimal number ++ behind.now }
    ensures short { array_vec_len line.new ≤ array_vec_len line.old + 21 }
{
    push_text(line, Buffer::new().format(number).as_bytes());
    push_text(line, behind);
}

impl Row {
    /// The row of a source's first line.
    pub(crate) fn of_first(group: u8, utc: i64, told: &Told<'_>) -> Row
        requires group { group ≤ 15 }
        requires stamp { IsStamp utc }
        requires short { length told.now.name.now ≤ 15 }
        ensures { result ≡ first_row (line_told group utc (reading_told told.now)) }
    {
        Row {
            group,
            name: name_of(told.name),
            first: utc,
            last: utc,
            lines: 1,
            bad: if told.good { 0 } else { 1 },
            breaks: 0,
            count: told.count,
        }
    }

    /// One more line of the source.
    pub(crate) fn add(&mut self, group: u8, utc: i64, told: &Told<'_>)
        requires room { self.old.lines + 1 < 2 ^ 64 }
        requires stamp { IsStamp utc }
        ensures { self.new ≡ one_line self.old (line_told group utc (reading_told told.now)) }
    {
        self.last = utc;
        self.lines += 1;
        if !told.good {
            self.bad += 1;
        }
        self.breaks += break_at(self.count, told.count);
        if told.count.is_some() {
            self.count = told.count;
        }
    }

    /// How a source stands to the row's, by group and then by name in byte order.
    pub(crate) fn order(&self, group: u8, name: &[u8]) -> Ordering
        ensures { result ≡ source_cmp (record { group = group; name = name.now }) self.now.source }
    {
        group.cmp(&self.group).then(name.cmp(&self.name.as_slice()))
    }

    /// The number of its transmission group.
    pub fn group(&self) -> u8
        ensures group { result ≡ self.now.source.group }
        ensures few { result ≤ 15 }
    {
        self.group
    }

    /// The name of its source, `-` where the lines name none.
    pub fn name(&self) -> &[u8]
        ensures { result.now ≡ self.now.source.name }
    {
        self.name.as_slice()
    }

    /// The stamp of the first record with a line of it, in milliseconds since 1970.
    pub fn first(&self) -> u64
        ensures { result ≡ unsigned_abs self.now.first }
    {
        self.first.unsigned_abs()
    }

    /// The stamp of the last record with a line of it, in milliseconds since 1970.
    pub fn last(&self) -> u64
        ensures { result ≡ unsigned_abs self.now.last }
    {
        self.last.unsigned_abs()
    }

    /// How many lines it has.
    pub fn lines(&self) -> u64
        ensures { result ≡ self.now.lines }
    {
        self.lines
    }

    /// How many of them are refused.
    pub fn bad(&self) -> u64
        ensures { result ≡ self.now.bad }
    {
        self.bad
    }

    /// How often their line count breaks.
    pub fn breaks(&self) -> u64
        ensures { result ≡ self.now.breaks }
    {
        self.breaks
    }

    /// Its text: `GROUP SOURCE FIRST LAST LINES BAD BREAKS` and LF.
    pub(crate) fn text(&self) -> ArrayVec<u8, ROOM>
        ensures { result.items ≡ row_text self.now }
    {
        let mut line = ArrayVec::new();
        push_text(&mut line, group_name(self.group).as_bytes());
        push_text(&mut line, b" ");
        push_text(&mut line, self.name.as_slice());
        push_text(&mut line, b" ");
        push_utc(&mut line, self.first);
        push_utc(&mut line, self.last);
        push_number(&mut line, self.lines, b" ");
        push_number(&mut line, self.bad, b" ");
        push_number(&mut line, self.breaks, b"\n");
        line
    }
}
