// A cursor over the records of one medium, from segment to segment.
//
// Each segment is read whole, once, and judged as it is entered. What is told of it is kept, so that what the medium
// lacks is known in the end.
ghost use Rattle.std.specs.Prelude.{◌≡◌, ◌↔◌, ◌<◌, ◌≤◌, ◌+◌, ◌++◌, ◌∷◌, [], ℕ, List, length, true, false, Some, None, Option, get_or, IfOk, IfSome, OnOk, OnErr, Ok, slice_get, All};
ghost use Rattle.vdr_outside.specs.Causes.{HasCauseOn, counted};
ghost use Rattle.vdr_outside.specs.Disk.{Unchanged, content};
ghost use Rattle.vdr_segment.specs.Areas.{HasRoom};
ghost use Rattle.vdr_terms.specs.Records.{Record as Entry};
ghost use Rattle.vdr_rescue.specs.declared.told.Told.{Told as Tale};
ghost use Rattle.vdr_rescue.specs.Cursors.{Ends, StepsIn, StepsTo, at_front, budget, entered, left_of, Enters};
ghost use Rattle.vdr_rescue.specs.Costs.{ReadsNoOther, Spends};
ghost use Rattle.vdr_directory.specs.Opening.{slot_bytes};
ghost use Rattle.vdr_rescue.specs.Judging.{Judges};
ghost use Rattle.vdr_rescue.specs.Runs.{run_with};

use crate::given::next_above;
use crate::judging::judge;
use crate::{Head, Run, Stand, Told};
use std::alloc::{AllocError, Global};
use std::marker::Model;
use vdr_entry::Record;
use vdr_outside::{Fault, Media};
use vdr_segment::{Area, read_slot};

// The segment in which a cursor stands.
#[derive(Clone, Copy, Drop)]
pub struct Inside {
    pub(crate) stand: Stand,
    // The least place that it may give.
    pub(crate) floor: u64,
    pub(crate) fault: Option<u32>,
    // The records that it gave so far.
    pub(crate) run: Option<Run>,
}

impl Inside {
    // Behind one record more.
    fn behind(self, stand: Stand, item: &Record) -> Inside
        ensures { result ≡ record { stand = stand; floor = self.floor; fault = self.fault; run = Some (run_with self.run item.now) } }
    {
        Inside {
            stand,
            floor: self.floor,
            fault: self.fault,
            run: Some(Run::with(self.run, item)),
        }
    }
}

/// Where a reader of one medium stands, and what it was told of the segments that it has read.
#[derive(Drop)]
pub struct Cursor {
    area: Area,
    heads: Vec<Head>,
    // It has room for all segments.
    told: Vec<Told>,
    inside: Option<Inside>,
    buffer: Vec<u8>,
    before: Option<u64>,
    reached: u64,
}

impl Model for Cursor {
    ghost use Rattle.std.specs.Prelude.{◌≤◌, length};
    ghost use Rattle.std.specs.Vec.{vec_capacity};
    ghost use Rattle.vdr_rescue.specs.Cursors.{CursorState, IsSettled};

    ghost Value = { CursorState };

    ghost view = { λ c. record { area = c.area; heads = c.heads.items; told = c.told.items; inside = c.inside; buffer = c.buffer.items; before = c.before; reached = c.reached } };

    ghost invariant = { λ c. IsSettled c.area c.heads.items c.told.items c.inside c.buffer.items × (length c.heads.items ≤ vec_capacity c.told) };
}

impl Cursor {
    /// A cursor before the first record of the segments, which are to be in the order in which they are read. Takes the memory of
    /// all steps: for what is told of them, and for one segment.
    pub fn new(alloc: Global, area: Area, heads: Vec<Head>) -> Result<Cursor, AllocError>
        requires slots { All (λ head. head.slot < area.slots) heads.items }
        ensures { IfOk result (λ c. (c.area ≡ area) × (c.heads ≡ heads.items) × (c ≡ at_front c)) }
    {
        let told = Vec::with_capacity(alloc, heads.len())?;
        let buffer = vec![in alloc; 0; area.segment as usize]?;
        Ok(Cursor {
            area,
            heads,
            told,
            inside: None,
            buffer,
            before: None,
            reached: 0,
        })
    }

    /// The slots of the medium.
    pub(crate) fn area(&self) -> Area
        ensures { result ≡ self.now.area }
    {
        self.area
    }

    /// The segments, in the order in which they are read.
    pub(crate) fn heads(&self) -> &[Head]
        ensures { result.now ≡ self.now.heads }
    {
        self.heads.as_slice()
    }

    /// What is told of those that were read, in that order.
    pub(crate) fn told(&self) -> &[Told]
        ensures told { result.now ≡ self.now.told }
        ensures few { length result.now ≤ length self.now.heads }
    {
        self.told.as_slice()
    }

    /// Goes back before the first record.
    pub fn rewind(&mut self)
        ensures { self.new ≡ at_front self.old }
    {
        self.told.clear();
        self.inside = None;
        self.before = None;
        self.reached = 0;
    }

    // Leaves the segment in which it stands.
    fn leave(&mut self, inside: Inside)
        requires { self.old.inside ≡ Some inside }
        ensures { self.new ≡ record self.old { told = self.old.told ++ record { fault = inside.fault; run = inside.run } ∷ []; inside = None } }
    {
        self.told.push_reserved(Told {
            fault: inside.fault,
            run: inside.run,
        });
        self.inside = None;
    }

    // Steps to the next record that the segment in which it stands gives, whose place is not below the floor. False where there is none,
    // and then it stands between segments.
    fn step_in(&mut self, item: &mut Record) -> bool
        ensures area { self.new.area ≡ self.old.area }
        ensures heads { self.new.heads ≡ self.old.heads }
        ensures out { result ≡ false → self.new.inside ≡ None }
        ensures left { left_of self.new ≤ left_of self.old }
        ensures onward { result ≡ true → left_of self.new < left_of self.old }
        ensures budget { budget self.new ≡ budget self.old }
        ensures gives { (bytes : List ℕ) (given : List Entry) (all : List Tale) → Ends bytes self.old given all ↔ StepsIn bytes result item.new self.new given all }
    {
        let Some(inside) = self.inside else {
            return false;
        };
        let Some(stand) = next_above(&self.buffer, inside.stand, inside.floor, item) else {
            self.leave(inside);
            return false;
        };
        self.inside = Some(inside.behind(stand, item));
        self.reached = item.place + 1;
        true
    }

    // The next segment. None where none is left.
    fn coming(&self) -> Option<Head>
        ensures some { IfSome result (λ head. (slice_get self.now.heads (length self.now.told) ≡ Some head) × (head.slot < self.now.area.slots)) }
        ensures none { result ≡ None → length self.now.heads ≤ length self.now.told }
    {
        self.heads.get(self.told.len()).copied()
    }

    // Reads a slot into the buffer.
    fn load<M: Media>(&mut self, media: &mut M, slot: u32) -> Result<(), Fault>
        requires room { HasRoom self.old.area (M.disk media.old).sizes }
        requires within { slot < self.old.area.slots }
        requires out { self.old.inside ≡ None }
        ensures state { self.new ≡ record self.old { buffer = self.new.buffer } }
        ensures bytes { OnOk result (M.tells → self.new.buffer ≡ slot_bytes self.old.area.segment slot (content (M.disk media.old).reads self.old.area.medium)) }
        ensures counts { M.bytes_read media.new ≡ counted (M.bytes_read media.old) self.old.area.medium self.old.area.segment }
        ensures unchanged { Unchanged (M.disk media.old) (M.disk media.new) }
        ensures cause { HasCauseOn self.old.area.medium (M.faults media.old) (M.faults media.new) result }
    {
        read_slot(media, self.area, slot, &mut self.buffer)
    }

    // Goes to the front of the segment in the buffer, and judges it.
    fn begin(&mut self, head: Head)
        requires out { self.old.inside ≡ None }
        requires there { slice_get self.old.heads (length self.old.told) ≡ Some head }
        ensures { (fault : Option ℕ) × Judges self.old.buffer self.old.before self.old.reached head fault
            × (self.new ≡ record self.old { inside = Some (entered head self.old.reached fault); before = Some head.seq }) }
    {
        let fault = judge(&self.buffer, self.before, self.reached, head);
        self.inside = Some(Inside {
            stand: Stand::front(head.first),
            floor: self.reached,
            fault,
            run: None,
        });
        self.before = Some(head.seq);
    }

    // Goes to the front of the next segment, and reads and judges it. False where none is left. Where the read fails it stays.
    fn enter<M: Media>(&mut self, media: &mut M) -> Result<bool, Fault>
        requires room { HasRoom self.old.area (M.disk media.old).sizes }
        requires out { self.old.inside ≡ None }
        ensures area { self.new.area ≡ self.old.area }
        ensures heads { self.new.heads ≡ self.old.heads }
        ensures onward { result ≡ Ok true → left_of self.new < left_of self.old }
        ensures spends { Spends self.old.area.medium (budget self.old) (budget self.new) (M.bytes_read media.old) (M.bytes_read media.new) result }
        ensures others { ReadsNoOther self.old.area.medium (M.bytes_read media.old) (M.bytes_read media.new) }
        ensures gives { IfOk result (λ more. M.tells → (given : List Entry) (all : List Tale)
            → Ends (content (M.disk media.old).reads self.old.area.medium) self.old given all
            ↔ Enters (content (M.disk media.old).reads self.old.area.medium) more self.new given all) }
        ensures unchanged { Unchanged (M.disk media.old) (M.disk media.new) }
        ensures cause { HasCauseOn self.old.area.medium (M.faults media.old) (M.faults media.new) result }
    {
        let Some(head) = self.coming() else {
            return Ok(false);
        };
        self.load(media, head.slot)?;
        self.begin(head);
        Ok(true)
    }

    /// Steps to the next record that the medium gives, and reads it into `item`, whose own one is gone then. False where there is
    /// none any more. Each segment is read whole as it is entered, once, and takes no memory. `Fault`: a read failed, and the
    /// count of faults of this medium rose.
    pub fn step<M: Media>(&mut self, media: &mut M, item: &mut Record) -> Result<bool, Fault>
        requires room { HasRoom self.old.area (M.disk media.old).sizes }
        ensures area { self.new.area ≡ self.old.area }
        ensures heads { self.new.heads ≡ self.old.heads }
        ensures onward { result ≡ Ok true → left_of self.new < left_of self.old }
        ensures spends { Spends self.old.area.medium (budget self.old) (budget self.new) (M.bytes_read media.old) (M.bytes_read media.new) result }
        ensures others { ReadsNoOther self.old.area.medium (M.bytes_read media.old) (M.bytes_read media.new) }
        ensures gives { IfOk result (λ more. M.tells → (given : List Entry) (all : List Tale)
            → Ends (content (M.disk media.old).reads self.old.area.medium) self.old given all
            ↔ StepsTo (content (M.disk media.old).reads self.old.area.medium) more item.new self.new given all) }
        ensures unchanged { Unchanged (M.disk media.old) (M.disk media.new) }
        ensures cause { HasCauseOn self.old.area.medium (M.faults media.old) (M.faults media.new) result }
    {
        while !self.step_in(item) {
            if !self.enter(media)? {
                return Ok(false);
            }
        }
        Ok(true)
    }
}
