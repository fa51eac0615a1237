// Passing by the records of a segment that are not selected.
//
// What is not selected is passed by at its head, where its bytes stand, so that a payload that nobody asked for is
// not copied.
ghost use Rattle.std.specs.Prelude.{◌≡◌, ◌<◌};
ghost use Rattle.vdr_index.specs.Positions.{IsAt};
ghost use Rattle.vdr_index.specs.Selections.{Passes, StartsSelected};

use crate::head::head_at;
use crate::{Position, Selection};
use vdr_segment::{Walk, walk};

// Passes by the records of a batch, up to the first that is selected.
fn pass_in(segment: &[u8], position: Position, selection: &Selection) -> Position
    requires { IsAt segment.now position }
    ensures to { result.to ≡ position.to }
    ensures passes { Passes segment.now selection.now position result }
    ensures next { result.at < result.to → StartsSelected segment.now selection.now result }
{
    let mut at = position.at;
    while at < position.to {
        let head = head_at(&segment[at..position.to]);
        if selection.has(&head) {
            return Position {
                at,
                to: position.to,
            };
        }
        at += head.size;
    }
    Position {
        at,
        to: position.to,
    }
}

/// Passes by records of a segment, batch by batch, up to the first that is selected, and answers the position before it. Where none
/// is, it is behind the last legal batch. Of a record that is passed by only the head is read. The position is
/// `Position::front()`, or one that a step in this segment gave.
pub fn pass_by(segment: &[u8], position: Position, selection: &Selection) -> Position
    requires { IsAt segment.now position }
    ensures passes { Passes segment.now selection.now position result }
    ensures next { StartsSelected segment.now selection.now result }
{
    let mut reached = pass_in(segment, position, selection);
    while reached.at >= reached.to {
        let Walk::Batch { from, to } = walk(segment, reached.to) else {
            return reached;
        };
        reached = pass_in(segment, Position { at: from, to }, selection);
    }
    reached
}
