// The row of a series.
ghost use Rattle.std.specs.Prelude.{◌≡◌, ◌<◌, OnErr, OnOk, IfOk, Some, true};
ghost use Rattle.vdr_thin.specs.Runs.{begun, ended_by, goes_on};
ghost use Rattle.vdr_thin.specs.Tables.{key_cmp, longest};

use crate::kind::Kind;
use crate::reading::Reading;
use crate::run::Run;
use std::alloc::{AllocError, Global};
use std::cmp::Ordering;
use std::marker::Model;
use std::mem;

/// A series, and the run of it that goes on.
#[derive(Drop)]
pub struct Row {
    kind: Kind,
    key: Vec<u8>,
    run: Run,
}

impl Model for Row {
    ghost use Rattle.vdr_thin.specs.Tables.{Row as ARow};

    ghost Value = { ARow };

    ghost view = { λ r. record { key = record { kind = r.kind; text = r.key.items }; run = r.run } };
}

impl Row {
    /// The row of a series' first reading.
    pub(crate) fn of_first(
        alloc: Global,
        kind: Kind,
        key: &[u8],
        reading: Reading,
    ) -> Result<Row, AllocError>
        ensures { IfOk result (λ row. row ≡ record { key = record { kind = kind; text = key.now }; run = begun true reading }) }
    {
        let mut text = Vec::new(alloc);
        text.extend_from_slice(key)?;
        Ok(Row {
            kind,
            key: text,
            run: Run::begin(true, reading),
        })
    }

    /// How the row stands to a series.
    pub(crate) fn order(&self, kind: Kind, key: &[u8]) -> Ordering
        ensures { result ≡ key_cmp self.now.key (record { kind = kind; text = key.now }) }
    {
        self.kind
            .rank()
            .cmp(&kind.rank())
            .then(self.key.as_slice().cmp(&key))
    }

    /// Takes a reading of the series, and hands out the run that it ends.
    ///
    /// `AllocError`: no number tells how many readings the run has, which no medium holds. The row stays as it was.
    pub(crate) fn push(&mut self, step: u64, reading: Reading) -> Result<Option<Run>, AllocError>
        requires { 0 < step }
        ensures key { self.new.key ≡ self.old.key }
        ensures run { OnOk result (self.new.run ≡ goes_on step (longest self.old.key.kind) (Some self.old.run) reading) }
        ensures ended { IfOk result (λ ended. ended ≡ ended_by step (longest self.old.key.kind) (Some self.old.run) reading) }
        ensures kept { OnErr result (self.new ≡ self.old) }
    {
        let last = &self.run.last.reading;
        if last.ends(step, self.kind.longest(), &reading) {
            let is_missed = last.is_missed(&reading);
            let begun = Run::begin(is_missed, reading);
            return Ok(Some(mem::replace(&mut self.run, begun)));
        }
        if self.run.count() == u64::MAX {
            return Err(AllocError);
        }
        self.run.grow(reading);
        Ok(None)
    }

    /// What its series is of.
    pub fn kind(&self) -> Kind
        ensures { result ≡ self.now.key.kind }
    {
        self.kind
    }

    /// What tells its series from others of the kind.
    pub fn key(&self) -> &[u8]
        ensures { result.now ≡ self.now.key.text }
    {
        self.key.as_slice()
    }

    /// The run that goes on.
    pub fn run(&self) -> &Run
        ensures { result.now ≡ self.now.run }
    {
        &self.run
    }
}
