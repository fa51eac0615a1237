// Surveying a segment: what its batches come to, or the first of them that is not legal.
//
// A survey judges no order: that places run on and ticks never fall is an answer, since what follows is a rule of
// the medium. The count of its summary stays at 2^32 - 1; a segment of a medium has fewer.
ghost use Rattle.std.specs.Prelude.{◌≤◌, ◌<◌, List, length, drop, IfOk, IfErr};
ghost use Rattle.vdr_terms.specs.Records.{Record as Entry};
ghost use Rattle.vdr_segment.specs.Segments.{AreBatches};
ghost use Rattle.vdr_index.specs.Surveys.{Surveys, BreaksAt};

use crate::Survey;
use crate::stretch::stretch_in;
use vdr_segment::{Walk, walk};

/// What the batches of a segment come to, whose first place is `first`, and whose bytes are at least a header and one gate.
/// The header, bytes 0 to 63, is not read. Err: the offset of the first batch that is not legal (this project's profile).
pub fn survey(segment: &[u8], first: u64) -> Result<Survey, usize>
    requires { 65 ≤ length segment.now }
    ensures legal { IfOk result (λ s. (batches : List (List Entry)) × AreBatches (drop 64 segment.now) batches × Surveys first batches s) }
    ensures inside { IfOk result (λ s. s.end < length segment.now) }
    ensures broken { IfErr result (BreaksAt segment.now) }
{
    let mut found = Survey::empty();
    loop {
        match walk(segment, found.end) {
            Walk::Batch { from, to } => {
                found = found.joined(first, stretch_in(&segment[from..to]), to);
            }
            Walk::End => return Ok(found),
            Walk::Broken => return Err(found.end),
        }
    }
}
