// The points that are shown of a run.
ghost use Rattle.std.specs.Prelude.{◌≡◌, ◌≤◌, ◌<◌, ◌+◌};
ghost use Rattle.arrayvec.specs.ArrayVec.{array_vec_len};
ghost use Rattle.vdr_alerts.specs.Rows.{AreOrdered, IsPlaced, put, with_row};
ghost use Rattle.vdr_thin.specs.Runs.{kept, point_cmp};

use crate::run::{Point, Run};
use arrayvec::ArrayVec;

// Where a point stands among others, or where it is to be put.
fn place_of(points: &[Point], point: &Point) -> Result<usize, usize>
    requires { AreOrdered point_cmp points.now }
    ensures { IsPlaced (λ p. point_cmp p point.now) points.now result }
{
    points.binary_search_by(|kept| kept.number.cmp(&point.number))
}

// Puts a point at its place.
fn put_at(points: &mut ArrayVec<Point, 6>, place: Result<usize, usize>, point: Point)
    requires place { IsPlaced (λ p. point_cmp p point) points.old.items place }
    requires room { array_vec_len points.old < 6 }
    ensures points { points.new.items ≡ with_row place points.old.items point }
    ensures more { array_vec_len points.new ≤ array_vec_len points.old + 1 }
{
    match place {
        Ok(at) => points[at] = point,
        Err(at) => points.insert(at, point),
    }
}

// Puts a point among others, once.
fn put_point(points: &mut ArrayVec<Point, 6>, point: &Point)
    requires ordered { AreOrdered point_cmp points.old.items }
    requires room { array_vec_len points.old < 6 }
    ensures points { points.new.items ≡ put point_cmp points.old.items point.now }
    ensures ordered { AreOrdered point_cmp points.new.items }
    ensures more { array_vec_len points.new ≤ array_vec_len points.old + 1 }
{
    put_at(points, place_of(points.as_slice(), point), point.copied());
}

impl Run {
    /// The points that are shown of it, in their order, each once.
    pub fn points(&self) -> ArrayVec<Point, 6>
        ensures { result.items ≡ kept self.now }
    {
        let mut points = ArrayVec::new();
        put_point(&mut points, &self.first);
        put_point(&mut points, &self.extremes.least);
        put_point(&mut points, &self.extremes.greatest);
        put_point(&mut points, &self.second.least);
        put_point(&mut points, &self.second.greatest);
        put_point(&mut points, &self.last);
        points
    }
}
