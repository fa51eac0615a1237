// A reader of one medium that has its next record at hand.
ghost use Rattle.std.specs.Prelude.{◌≡◌, ◌<◌, ◌≤◌, List, true, IfOk, OnOk};
ghost use Rattle.vdr_terms.specs.Records.{Record as Entry};
ghost use Rattle.vdr_outside.specs.Causes.{HasCauseOn};
ghost use Rattle.vdr_outside.specs.Disk.{Unchanged, content};
ghost use Rattle.vdr_segment.specs.Areas.{HasRoom};
ghost use Rattle.vdr_compare.specs.Sides.{Gives, IsAhead, ahead_of, behind};

use std::marker::Model;
use vdr_entry::Record;
use vdr_outside::{Fault, Media};
use vdr_rescue::Cursor;

/// A reader of one medium that has its next record at hand.
#[derive(Drop)]
pub(crate) struct Side {
    pub(crate) cursor: Cursor,
    pub(crate) item: Record,
    // Whether the item is the next record; else none is left.
    pub(crate) more: bool,
}

impl Model for Side {
    ghost use Rattle.vdr_compare.specs.Sides.{SideState};

    ghost Value = { SideState };

    ghost view = { λ s. record { cursor = s.cursor; item = s.item; more = s.more } };
}

impl Side {
    /// Before the first record. `Fault`: a read failed.
    pub(crate) fn front<M: Media>(cursor: Cursor, media: &mut M) -> Result<Side, Fault>
        requires room { HasRoom cursor.area (M.disk media.old).sizes }
        ensures area { IfOk result (λ side. side.cursor.area ≡ cursor.area) }
        ensures gives { IfOk result (λ side. M.tells → (given : List Entry) → Gives (content (M.disk media.old).reads cursor.area.medium) cursor given
            → IsAhead (content (M.disk media.old).reads cursor.area.medium) side given) }
        ensures unchanged { Unchanged (M.disk media.old) (M.disk media.new) }
        ensures cause { HasCauseOn cursor.area.medium (M.faults media.old) (M.faults media.new) result }
    {
        let mut cursor = cursor;
        cursor.rewind();
        let mut item = Record::start(0, 0, 0, 0);
        let more = cursor.step(media, &mut item)?;
        Ok(Side { cursor, item, more })
    }

    /// Passes the record at hand, if there is one and it is to be passed. `Fault`: a read failed.
    pub(crate) fn pass<M: Media>(&mut self, passed: bool, media: &mut M) -> Result<(), Fault>
        requires room { HasRoom self.old.cursor.area (M.disk media.old).sizes }
        ensures area { self.new.cursor.area ≡ self.old.cursor.area }
        ensures left { OnOk result (ahead_of self.new ≤ ahead_of self.old) }
        ensures onward { OnOk result (passed ≡ true → self.old.more ≡ true → ahead_of self.new < ahead_of self.old) }
        ensures gives { OnOk result (M.tells → (given : List Entry) → IsAhead (content (M.disk media.old).reads self.old.cursor.area.medium) self.old given
            → IsAhead (content (M.disk media.old).reads self.old.cursor.area.medium) self.new (behind passed given)) }
        ensures unchanged { Unchanged (M.disk media.old) (M.disk media.new) }
        ensures cause { HasCauseOn self.old.cursor.area.medium (M.faults media.old) (M.faults media.new) result }
    {
        if passed && self.more {
            self.more = self.cursor.step(media, &mut self.item)?;
        }
        Ok(())
    }
}
