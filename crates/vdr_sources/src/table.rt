// The table of sources: the lines of sentence datagrams are counted into it, and its rows are printed.
//
// Rows stand sorted, and a line finds its own by halving. Memory for as many sources as the record has bytes is
// taken before any line is counted, so that a refusal leaves the table as it was; a tree would have to give back
// what a record had put in.
ghost use Rattle.std.specs.Prelude.{◌≡◌, ◌≤◌, ◌<◌, ◌+◌, ◌^◌, [], All, List, OnErr, OnOk, fold, length, map, vec_capacity, vec_len};
ghost use Rattle.vdr_terms.specs.Stamps.{IsStamp};
ghost use Rattle.vdr_durability.specs.Sources.{with_line};
ghost use Rattle.vdr_sources.specs.Rows.{IsTable, line_told, lines_at, reading_told};
ghost use Rattle.vdr_sources.specs.Tables.{read_lines, with_record};

use crate::line::{Told, told_by};
use crate::place::place_of;
use crate::row::Row;
use std::alloc::{AllocError, Global};
use std::marker::Model;
use vdr_datagram::lines;
use vdr_entry::{Content, Record};
use vdr_outside::{Failed, Printable, Sink, write_all};

/// The table of sources, one row for each transmission group and source that has a line (this project's profile).
///
/// Each line of each sentence datagram counts for its group and the source of its TAG blocks (IEC 61162-450). One that names no source,
/// or whose TAG blocks are refused, counts for the source `-`. It takes memory for its sources, and none for their lines.
#[derive(Drop)]
pub struct SourceTable {
    // By group, and then by name in byte order.
    rows: Vec<Row>,
    // How many lines they have at most.
    counted: u64,
}

impl Model for SourceTable {
    ghost use Rattle.std.specs.Prelude.{List};
    ghost use Rattle.vdr_durability.specs.Sources.{Row as ARow};
    ghost use Rattle.vdr_sources.specs.Rows.{IsTable};

    ghost Value = { List ARow };

    ghost view = { λ t. t.rows.items };

    ghost invariant = { λ t. IsTable t.counted t.rows.items };
}

// Counts a line, of which the source has a row or there is room for one.
fn count(rows: &mut Vec<Row>, group: u8, utc: i64, told: &Told<'_>, counted: u64)
    requires table { IsTable counted rows.old.items }
    requires room { vec_len rows.old < vec_capacity rows.old }
    requires group { group ≤ 15 }
    requires stamp { IsStamp utc }
    requires short { length told.now.name.now ≤ 15 }
    requires few { counted + 1 < 2 ^ 64 }
    ensures rows { rows.new.items ≡ with_line rows.old.items (line_told group utc (reading_told told.now)) }
    ensures table { IsTable (counted + 1) rows.new.items }
    ensures more { vec_len rows.new ≤ vec_len rows.old + 1 }
    ensures capacity { vec_capacity rows.old ≤ vec_capacity rows.new }
{
    match place_of(rows.as_slice(), group, told.name) {
        Ok(at) => rows[at].add(group, utc, told),
        Err(at) => {
            let _ = rows.insert(at, Row::of_first(group, utc, told));
        }
    }
}

// Counts the lines of a datagram, for which there is room.
fn count_all(rows: &mut Vec<Row>, group: u8, utc: i64, payload: &[u8], counted: u64)
    requires table { IsTable counted rows.old.items }
    requires room { vec_len rows.old + length payload.now ≤ vec_capacity rows.old }
    requires group { group ≤ 15 }
    requires stamp { IsStamp utc }
    requires few { counted + length payload.now < 2 ^ 64 }
    ensures rows { rows.new.items ≡ fold with_line rows.old.items (lines_at group utc (read_lines payload.now)) }
    ensures table { IsTable (counted + length payload.now) rows.new.items }
{
    let mut counted = counted;
    for line in lines(payload) {
        count(rows, group, utc, &told_by(&line.verdict), counted);
        counted += 1;
    }
}

impl SourceTable {
    /// The table of no line.
    pub fn new(alloc: Global) -> SourceTable
        ensures { result ≡ [] }
    {
        SourceTable {
            rows: Vec::new(alloc),
            counted: 0,
        }
    }

    /// The rows, by transmission group and then by name in byte order.
    pub fn rows(&self) -> &[Row]
        ensures { result.now ≡ self.now }
    {
        self.rows.as_slice()
    }

    /// Counts the lines of a record. Each is read once.
    ///
    /// `AllocError`: there was no memory for a source, or so many lines are counted that no number tells them, which no medium holds. The
    /// table stays as it was.
    pub fn add(&mut self, item: &Record) -> Result<(), AllocError>
        ensures added { OnOk result (self.new ≡ with_record self.old item.now) }
        ensures kept { OnErr result (self.new ≡ self.old) }
    {
        let Content::Datagram(payload) = item.content() else {
            return Ok(());
        };
        let Some(counted) = self.counted.checked_add(payload.len() as u64) else {
            return Err(AllocError);
        };
        self.rows.reserve(payload.len())?;
        count_all(&mut self.rows, item.group, item.utc, payload, self.counted);
        self.counted = counted;
        Ok(())
    }
}

impl Printable for SourceTable {
    ghost use Rattle.vdr_sources.specs.Tables.{sources_text};

    ghost text = { sources_text };

    /// Prints the rows, each by one write. It takes no memory.
    fn print<O: Sink>(&self, out: &mut O) -> Result<(), Failed> {
        for row in &self.rows {
            write_all(out, row.text().as_slice())?;
        }
        Ok(())
    }
}
