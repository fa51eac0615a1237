// Steps over the records of a segment up to its first batch that is not legal.
ghost use Rattle.std.specs.Prelude.{◌≡◌, ◌<◌, ◌↔◌, [], List, IfSome, IfNone};
ghost use Rattle.vdr_terms.specs.Records.{Record as Entry};
ghost use Rattle.vdr_index.specs.Positions.{IsAt};
ghost use Rattle.vdr_rescue.specs.Given.{HasLegally, StepsOn};

use vdr_entry::Record;
use vdr_index::Position;
use vdr_segment::{Walk, walk};

// Reads the next record of the batch, and answers the position behind it.
fn next_of_batch(segment: &[u8], position: Position, item: &mut Record) -> Position
    requires stands { IsAt segment.now position }
    requires more { position.at < position.to }
    ensures { StepsOn segment.now position item.new result }
{
    let Some(size) = item.read_from(&segment[position.at..position.to]) else {
        unreachable!()
    };
    Position {
        at: position.at + size,
        to: position.to,
    }
}

/// Reads the next record of a segment into `item`, whose own one is gone then, and answers the position behind it. None where no legal
/// batch has one any more.
pub(crate) fn step_on(segment: &[u8], position: Position, item: &mut Record) -> Option<Position>
    requires { IsAt segment.now position }
    ensures next { IfSome result (λ next. StepsOn segment.now position item.new next) }
    ensures none { IfNone result ((records : List Entry) → HasLegally segment.now position records ↔ (records ≡ [])) }
{
    if position.at < position.to {
        return Some(next_of_batch(segment, position, item));
    }
    match walk(segment, position.to) {
        Walk::Batch { from, to } => Some(next_of_batch(segment, Position { at: from, to }, item)),
        Walk::End => None,
        Walk::Broken => None,
    }
}
