// A position in a segment, and the record there.
ghost use Rattle.std.specs.Prelude.{◌≡◌, ◌↔◌, List, IsTrue, None, option_map};
ghost use Rattle.vdr_terms.specs.Records.{Record as Entry};
ghost use Rattle.vdr_segment.specs.Batches.{AreRecords};
ghost use Rattle.vdr_index.specs.Positions.{IsAt};
ghost use Rattle.vdr_ring.specs.Visits.{StepsFrom, position_in, without_item};

use std::marker::Model;
use vdr_entry::{Record, record_at};
use vdr_index::{Position, Selection, pass_by, step};

/// A position in a segment, and the record there. It takes no memory, and each record is read into the place of the one before.
#[derive(Drop)]
pub struct Visit {
    slot: Option<u32>,
    position: Position,
    // The record that was read last.
    item: Record,
    // Whether the last step was to it.
    found: bool,
}

impl Model for Visit {
    ghost use Rattle.std.specs.Prelude.{if◌then◌else◌, Some, None};
    ghost use Rattle.vdr_ring.specs.Visits.{VisitState};

    ghost Value = { VisitState };

    ghost view = { λ c. record { slot = c.slot; position = c.position; item = if c.found then Some c.item else None } };
}

impl Visit {
    /// A visit that stands in no slot.
    pub fn new() -> Visit
        ensures slot { result.slot ≡ None }
        ensures item { result.item ≡ None }
    {
        Visit {
            slot: None,
            position: Position::front(),
            item: Record::start(0, 0, 0, 0),
            found: false,
        }
    }

    /// The record that it stepped to. None exactly where the visit is new, its last step answered false, or its last step
    /// was refused.
    pub fn item(&self) -> Option<&Record>
        ensures { option_map (λ r. r.now) result ≡ self.now.item }
    {
        if self.found { Some(&self.item) } else { None }
    }

    // Where a step in this slot begins.
    pub(crate) fn position_in(&self, slot: u32) -> Position
        ensures { result ≡ position_in slot self.now }
    {
        if self.slot == Some(slot) {
            self.position
        } else {
            Position::front()
        }
    }

    pub(crate) fn clear_item(&mut self)
        ensures { self.new ≡ without_item self.old }
    {
        self.found = false;
    }

    // The slot is closed, and so the visit stands in none.
    pub(crate) fn leave(&mut self)
        ensures slot { self.new.slot ≡ None }
        ensures item { self.new.item ≡ self.old.item }
    {
        self.slot = None;
    }

    // Steps from this position of a slot with these bytes to the next record that is selected. False where none is, and then it stands
    // behind them all. Err: the batch that begins at this offset is not legal.
    pub(crate) fn step_from(
        &mut self,
        slot: u32,
        segment: &[u8],
        position: Position,
        selection: &Selection,
    ) -> Result<bool, usize>
        requires stands { IsAt segment.now position }
        requires item { self.old.item ≡ None }
        ensures { StepsFrom selection.now slot segment.now position self.old result self.new }
    {
        let reached = pass_by(segment, position, selection);
        let next = step(segment, reached, &mut self.item)?;
        self.slot = Some(slot);
        self.position = reached;
        let Some(behind) = next else {
            return Ok(false);
        };
        self.position = behind;
        self.found = true;
        Ok(true)
    }
}

// The bytes are legal records, one after another.
fn are_records(bytes: &[u8]) -> bool
    ensures { IsTrue result ↔ ((records : List Entry) × AreRecords bytes.now records) }
{
    let mut rest = bytes;
    while !rest.is_empty() {
        match record_at(rest) {
            Some(size) => rest = &rest[size..],
            None => return false,
        }
    }
    true
}

// Whether a position is one of a segment: what is left of its batch are legal records, and a gate stands behind them.
pub(crate) fn stands_in(position: Position, segment: &[u8]) -> bool
    ensures { IsTrue result ↔ IsAt segment.now position }
{
    position.at <= position.to
        && position.to < segment.len()
        && are_records(&segment[position.at..position.to])
}
