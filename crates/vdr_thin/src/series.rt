// The table of series.
ghost use Rattle.std.specs.Prelude.{◌≡◌, ◌≤◌, ◌<◌, [], OnErr, OnOk, IfOk, insert, vec_len};
ghost use Rattle.vdr_alerts.specs.Rows.{AreOrdered, IsPlaced};
ghost use Rattle.vdr_thin.specs.Tables.{ended_in, key_cmp, row_cmp, rows_behind, with_reading};

use crate::kind::Kind;
use crate::reading::Reading;
use crate::row::Row;
use crate::run::Run;
use std::alloc::{AllocError, Global};
use std::marker::Model;

/// The table of series: of each the run that goes on (this project's profile).
///
/// A run ends before a reading in another bucket, whose stamp falls or rises by more than ten seconds, three minutes for a ship, or which is of another
/// validity. It takes memory for its series, and none for their readings.
#[derive(Drop)]
pub struct Series {
    alloc: Global,
    step: u64,
    rows: Vec<Row>,
}

impl Model for Series {
    ghost use Rattle.vdr_thin.specs.Tables.{IsTable, Table};

    ghost Value = { Table };

    ghost view = { λ s. record { step = s.step; rows = s.rows.items } };

    ghost invariant = { λ s. IsTable (record { step = s.step; rows = s.rows.items }) };
}

// Where the row of a series stands, or where it is to be put.
fn place_of(rows: &[Row], kind: Kind, key: &[u8]) -> Result<usize, usize>
    requires { AreOrdered row_cmp rows.now }
    ensures { IsPlaced (λ row. key_cmp row.key (record { kind = kind; text = key.now })) rows.now result }
{
    rows.binary_search_by(|row| row.order(kind, key))
}

// Puts a row at a place.
fn insert_row(rows: &mut Vec<Row>, at: usize, row: Row) -> Result<(), AllocError>
    requires { at ≤ vec_len rows.old }
    ensures rows { OnOk result (rows.new.items ≡ insert rows.old.items at row) }
    ensures kept { OnErr result (rows.new.items ≡ rows.old.items) }
{
    match rows.insert(at, row) {
        Ok(()) => Ok(()),
        Err(_) => Err(AllocError),
    }
}

// Takes a reading of a series, and hands out the run that it ends.
fn push_reading(
    alloc: Global,
    step: u64,
    rows: &mut Vec<Row>,
    kind: Kind,
    key: &[u8],
    reading: Reading,
) -> Result<Option<Run>, AllocError>
    requires step { 0 < step }
    requires ordered { AreOrdered row_cmp rows.old.items }
    ensures rows { OnOk result (rows.new.items ≡ rows_behind step rows.old.items (record { kind = kind; text = key.now }) reading) }
    ensures ended { IfOk result (λ ended. ended ≡ ended_in step rows.old.items (record { kind = kind; text = key.now }) reading) }
    ensures kept { OnErr result (rows.new.items ≡ rows.old.items) }
{
    match place_of(rows.as_slice(), kind, key) {
        Ok(at) => rows[at].push(step, reading),
        Err(at) => {
            let row = Row::of_first(alloc, kind, key, reading)?;
            insert_row(rows, at, row)?;
            Ok(None)
        }
    }
}

impl Series {
    /// The table of no series, with buckets of so many milliseconds.
    pub fn new(alloc: Global, step: u64) -> Series
        requires { 0 < step }
        ensures { result ≡ record { step = step; rows = [] } }
    {
        Series {
            alloc,
            step,
            rows: Vec::new(alloc),
        }
    }

    /// Takes a reading of a series, and hands out the run that it ends.
    ///
    /// `AllocError`: there was no memory for the series, or no number tells how many readings its run has, which no medium holds. The table stays as it
    /// was.
    pub fn push(
        &mut self,
        kind: Kind,
        key: &[u8],
        reading: Reading,
    ) -> Result<Option<Run>, AllocError>
        ensures table { OnOk result (self.new ≡ with_reading self.old (record { kind = kind; text = key.now }) reading) }
        ensures ended { IfOk result (λ ended. ended ≡ ended_in self.old.step self.old.rows (record { kind = kind; text = key.now }) reading) }
        ensures kept { OnErr result (self.new ≡ self.old) }
    {
        push_reading(self.alloc, self.step, &mut self.rows, kind, key, reading)
    }

    /// The series, with the run of each that goes on: values first, then positions and ships, each in byte order.
    pub fn rows(&self) -> &[Row]
        ensures { result.now ≡ self.now.rows }
    {
        self.rows.as_slice()
    }

    /// Forgets all series, as at a Start or a Stop.
    pub fn clear(&mut self)
        ensures { self.new ≡ record self.old { rows = [] } }
    {
        self.rows.clear();
    }
}
