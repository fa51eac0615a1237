// A reading of a series.
ghost use Rattle.std.specs.Prelude.{◌≡◌, ◌≤◌, ◌<◌, length};
ghost use Rattle.vdr_thin.specs.Runs.{along, ends, is_missed};

use arrayvec::ArrayVec;
use std::marker::Model;

/// One of the two measures that extremes are judged by.
#[derive(Clone, Copy, Drop)]
pub(crate) enum Axis {
    First,
    Second,
}

/// A reading of a series: a value, a position, or a ship's report of one.
#[derive(Default, Drop)]
pub struct Reading {
    /// The stamp of its record, in milliseconds since 1970.
    pub utc: u64,
    /// How many Gaps of its transmission group stand before it.
    pub gaps: u64,
    /// What its sentence says of itself, if it does.
    pub valid: Option<bool>,
    /// What extremes are judged by: of a value its number, of a position the latitude. Zero where there is nothing to judge by.
    pub measure: i128,
    /// Of a position the longitude, else the same again.
    pub second: i128,
    /// What is shown of it.
    pub text: ArrayVec<u8, 72>,
}

impl Model for Reading {
    ghost use Rattle.vdr_thin.specs.Runs.{Reading as AReading};

    ghost Value = { AReading };

    ghost view = { λ r. record { utc = r.utc; gaps = r.gaps; valid = r.valid; measure = r.measure; second = r.second; text = r.text.items } };
}

// A text of its own.
fn text_of(bytes: &[u8]) -> ArrayVec<u8, 72>
    requires { length bytes.now ≤ 72 }
    ensures { result.items ≡ bytes.now }
{
    let mut text = ArrayVec::new();
    let _ = text.try_extend_from_slice(bytes);
    text
}

impl Reading {
    /// One like it.
    pub(crate) fn copied(&self) -> Reading
        ensures { result ≡ self.now }
    {
        Reading {
            utc: self.utc,
            gaps: self.gaps,
            valid: self.valid,
            measure: self.measure,
            second: self.second,
            text: text_of(self.text.as_slice()),
        }
    }

    /// Its measure along an axis.
    pub(crate) fn along(&self, axis: Axis) -> i128
        ensures { result ≡ along axis self.now }
    {
        match axis {
            Axis::First => self.measure,
            Axis::Second => self.second,
        }
    }

    /// Whether the next reading ends the run that this one is the last of: in another bucket of `step` milliseconds, with a stamp that falls or rises by
    /// more than `longest`, or of another validity.
    pub(crate) fn ends(&self, step: u64, longest: u64, next: &Reading) -> bool
        requires { 0 < step }
        ensures { result ≡ ends step longest self.now next.now }
    {
        self.utc / step != next.utc / step
            || next.utc < self.utc
            || next.utc - self.utc > longest
            || self.valid != next.valid
    }

    /// Whether a Gap of the group stands between it and the next.
    pub(crate) fn is_missed(&self, next: &Reading) -> bool
        ensures { result ≡ is_missed self.now next.now }
    {
        self.gaps != next.gaps
    }
}
