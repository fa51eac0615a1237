// Auditing a segment: whether its batches are legal and agree with the summary in its header.
//
// An audit surveys batch by batch and asks of each whether it is within the summary, so that it has no state of its
// own; a front of records that agree agrees, so one offset is the first.
ghost use Rattle.std.specs.Prelude.{◌≤◌, List, length, drop, IfOk, IfErr};
ghost use Rattle.vdr_terms.specs.Records.{Record as Entry};
ghost use Rattle.vdr_segment.specs.Segments.{AreBatches};
ghost use Rattle.vdr_index.specs.Audits.{Agree, DisagreesAt};

use crate::Survey;
use crate::agreeing::{are_within, has_at_least};
use crate::stretch::stretch_in;
use vdr_entry::Summary;
use vdr_segment::{Walk, walk};

/// Judges the batches of a segment whose header has this first place and this summary, and whose bytes are at least a header and one
/// gate. The header, bytes 0 to 63, is not read. Ok: all batches are legal, and their records agree with the summary: as many as it
/// counts, each within it, with places that run on from the first one and ticks that never fall. Err: the offset of the first batch
/// that is not legal or does not agree, or that behind the last batch where the summary counts more records (this project's profile).
pub fn audit(segment: &[u8], first: u64, summary: &Summary) -> Result<(), usize>
    requires { 65 ≤ length segment.now }
    ensures agrees { IfOk result (λ _. (batches : List (List Entry)) × AreBatches (drop 64 segment.now) batches × Agree first summary.now batches) }
    ensures differs { IfErr result (DisagreesAt segment.now first summary.now) }
{
    let mut found = Survey::empty();
    loop {
        match walk(segment, found.end) {
            Walk::Batch { from, to } => {
                let next = found.joined(first, stretch_in(&segment[from..to]), to);
                if !are_within(&next, first, summary) {
                    return Err(found.end);
                }
                found = next;
            }
            Walk::End => {
                if has_at_least(&found, first, summary.count) {
                    return Ok(());
                }
                return Err(found.end);
            }
            Walk::Broken => return Err(found.end),
        }
    }
}
