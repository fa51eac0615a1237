// Stepping through the records of a segment, one after another.
ghost use Rattle.std.specs.Prelude.{◌≡◌, ◌<◌, ◌↔◌, [], List, IfOk, IfErr, IfSome, IfNone, MatchResult};
ghost use Rattle.vdr_terms.specs.Records.{Record as Entry};
ghost use Rattle.vdr_segment.specs.Walks.{Walks};
ghost use Rattle.vdr_segment.specs.declared.step.Walk.TheVariants.{Broken};
ghost use Rattle.vdr_index.specs.Positions.{IsAt, HasAhead, IsBrokenAt, StepsOver};

use crate::Position;
use vdr_entry::Record;
use vdr_segment::{Walk, walk};

// Reads the next record of the batch, and answers the position behind it.
fn next_of_batch(segment: &[u8], position: Position, item: &mut Record) -> Position
    requires stands { IsAt segment.now position }
    requires more { position.at < position.to }
    ensures { StepsOver segment.now position item.new result }
{
    let Some(size) = item.read_from(&segment[position.at..position.to]) else {
        unreachable!()
    };
    Position {
        at: position.at + size,
        to: position.to,
    }
}

/// Reads the next record of a segment into `item`, whose own one is gone then, and answers the position behind it. None where
/// no record is ahead. Err: no record is left of the position's batch, and the next one, which begins at this offset, is not
/// legal (this project's profile). The position is `Position::front()`, or one that a step in this segment gave.
pub fn step(
    segment: &[u8],
    position: Position,
    item: &mut Record,
) -> Result<Option<Position>, usize>
    requires { IsAt segment.now position }
    ensures next { IfOk result (λ found. IfSome found (λ next. StepsOver segment.now position item.new next)) }
    ensures none { IfOk result (λ found. IfNone found ((records : List Entry) → HasAhead segment.now position records ↔ (records ≡ []))) }
    ensures broken { IfErr result (λ at. (at ≡ position.to) × Walks segment.now at Broken
        × ((records : List Entry) → HasAhead segment.now position records → ⊥)) }
    ensures exact { MatchResult result (λ _. IsBrokenAt segment.now position → ⊥) (λ _. IsBrokenAt segment.now position) }
    ensures unread { MatchResult result (λ found. IfNone found (item.new ≡ item.old)) (λ _. item.new ≡ item.old) }
{
    if position.at < position.to {
        return Ok(Some(next_of_batch(segment, position, item)));
    }
    match walk(segment, position.to) {
        Walk::Batch { from, to } => Ok(Some(next_of_batch(
            segment,
            Position { at: from, to },
            item,
        ))),
        Walk::End => Ok(None),
        Walk::Broken => Err(position.to),
    }
}
