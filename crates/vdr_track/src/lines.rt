// What a line says of the track of a source.
ghost use Rattle.std.specs.Prelude.{◌≡◌};
ghost use Rattle.vdr_terms.specs.Stamps.{IsStamp};
ghost use Rattle.vdr_datagram.specs.Views.{verdict_of};
ghost use Rattle.vdr_rows.specs.Fixes.{source_of};
ghost use Rattle.vdr_track.specs.Steps.{HasStamp, is_of, line_step, step_by};

use crate::point::{Point, Step};
use vdr_datagram::LineVerdict;
use vdr_entry::Record;
use vdr_rows::{Fix, fix_of};

// The name of the source of a line that names none.
const NO_SOURCE: &[u8] = b"-";

// Whether a line is of this source.
fn is_of(source: &[u8], verdict: &LineVerdict<'_>) -> bool
    ensures { result ≡ is_of source.now (source_of (verdict_of verdict.now)) }
{
    match verdict {
        LineVerdict::Good { tags, .. } => tags.source.unwrap_or(NO_SOURCE) == source,
        LineVerdict::Tag(_) | LineVerdict::Sentence { .. } => false,
    }
}

// What a line of the record says by its fix.
fn step_by(item: &Record, fix: Fix) -> Step
    requires { IsStamp item.now.utc }
    ensures step { result ≡ step_by item.now fix }
    ensures stamp { HasStamp result }
{
    match fix {
        Fix::Unsaid => Step::Silent,
        Fix::Lost => Step::Lost,
        Fix::At {
            latitude,
            longitude,
        } => {
            Step::Said(Point {
                group: item.group,
                utc: item.utc.unsigned_abs(),
                latitude,
                longitude,
            })
        }
    }
}

/// What a line of the record says of the track of the source.
pub(crate) fn line_step(source: &[u8], item: &Record, verdict: &LineVerdict<'_>) -> Step
    requires { IsStamp item.now.utc }
    ensures step { result ≡ line_step source.now item.now (verdict_of verdict.now) }
    ensures stamp { HasStamp result }
{
    if is_of(source, verdict) {
        step_by(item, fix_of(verdict))
    } else {
        Step::Silent
    }
}
