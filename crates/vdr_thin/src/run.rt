// A run of readings, as it is kept.
ghost use Rattle.std.specs.Prelude.{◌≡◌, ◌<◌, ◌+◌, ◌^◌, if◌then◌else◌};
ghost use Rattle.vdr_thin.specs.Runs.{begun, begun_at, count_of, extremes_of, grown, marks_of, widened, with_point};

use crate::reading::{Axis, Reading};
use std::marker::Model;

/// A reading of a run, and which one it is, from 1.
#[derive(Default, Drop)]
pub struct Point {
    pub number: u64,
    pub reading: Reading,
}

impl Model for Point {
    ghost use Rattle.vdr_thin.specs.Runs.{Point as APoint};

    ghost Value = { APoint };

    ghost view = { λ p. record { number = p.number; reading = p.reading } };
}

impl Point {
    /// One like it.
    pub(crate) fn copied(&self) -> Point
        ensures { result ≡ self.now }
    {
        Point {
            number: self.number,
            reading: self.reading.copied(),
        }
    }
}

// The first least and the first greatest reading along an axis.
#[derive(Drop)]
pub(crate) struct Extremes {
    pub(crate) least: Point,
    pub(crate) greatest: Point,
}

impl Model for Extremes {
    ghost use Rattle.vdr_thin.specs.Runs.{Extremes as AreExtremes};

    ghost Value = { AreExtremes };

    ghost view = { λ e. record { least = e.least; greatest = e.greatest } };
}

// Puts a point in the place of one that it beats.
fn replace_if(is_beaten: bool, kept: &mut Point, point: &Point)
    ensures { kept.new ≡ if is_beaten then point.now else kept.old }
{
    if is_beaten {
        *kept = point.copied();
    }
}

impl Extremes {
    // Of one reading.
    fn of(point: &Point) -> Extremes
        ensures { result ≡ extremes_of point.now }
    {
        Extremes {
            least: point.copied(),
            greatest: point.copied(),
        }
    }

    // With one more.
    fn widen(&mut self, axis: Axis, point: &Point)
        ensures { self.new ≡ widened axis self.old point.now }
    {
        let measure = point.reading.along(axis);
        let is_less = measure < self.least.reading.along(axis);
        let is_greater = self.greatest.reading.along(axis) < measure;
        replace_if(is_less, &mut self.least, point);
        replace_if(is_greater, &mut self.greatest, point);
    }
}

/// A run of readings of a series: the first and the last one, and the first least and greatest of each measure.
#[derive(Drop)]
pub struct Run {
    pub(crate) behind: bool,
    pub(crate) first: Point,
    pub(crate) last: Point,
    pub(crate) extremes: Extremes,
    pub(crate) second: Extremes,
}

impl Model for Run {
    ghost use Rattle.vdr_thin.specs.Runs.{Run as ARun};

    ghost Value = { ARun };

    ghost view = { λ r. record { behind = r.behind; first = r.first; last = r.last; extremes = r.extremes; second = r.second } };
}

impl Run {
    // The run of one point.
    fn of(behind: bool, point: Point) -> Run
        ensures { result ≡ begun_at behind point }
    {
        Run {
            behind,
            first: point.copied(),
            extremes: Extremes::of(&point),
            second: Extremes::of(&point),
            last: point,
        }
    }

    /// The run of one reading.
    pub(crate) fn begin(behind: bool, reading: Reading) -> Run
        ensures { result ≡ begun behind reading }
    {
        Run::of(behind, Point { number: 1, reading })
    }

    fn add(&mut self, point: Point)
        ensures { self.new ≡ with_point self.old point }
    {
        self.extremes.widen(Axis::First, &point);
        self.second.widen(Axis::Second, &point);
        self.last = point;
    }

    /// One more reading of the run.
    pub(crate) fn grow(&mut self, reading: Reading)
        requires { count_of self.old + 1 < 2 ^ 64 }
        ensures { self.new ≡ grown self.old reading }
    {
        let number = self.last.number + 1;
        self.add(Point { number, reading });
    }

    /// Whether a Gap of the group stands between it and the series' reading before it, or there is none before it.
    pub fn is_behind(&self) -> bool
        ensures { result ≡ self.now.behind }
    {
        self.behind
    }

    /// How many readings it has.
    pub fn count(&self) -> u64
        ensures { result ≡ count_of self.now }
    {
        self.last.number
    }

    /// How many Gaps of the group stand between its first and its last reading.
    pub fn marks(&self) -> u64
        ensures { result ≡ marks_of self.now }
    {
        self.last
            .reading
            .gaps
            .saturating_sub(self.first.reading.gaps)
    }

    /// What its readings say of themselves.
    pub fn valid(&self) -> Option<bool>
        ensures { result ≡ self.now.first.reading.valid }
    {
        self.first.reading.valid
    }
}
