// The track of a source, record by record, and at the end of the records.
ghost use Rattle.std.specs.Prelude.{◌∷◌, ◌++◌, [], ℕ, List, OnOk};
ghost use Rattle.std.specs.List.{flat_map};
ghost use Rattle.std.specs.Io.KnownBytes.{Appends};
ghost use Rattle.vdr_terms.specs.Records.{Record as Entry};
ghost use Rattle.vdr_outside.specs.Causes.{HasCause};
ghost use Rattle.vdr_outside.specs.Writes.{AppendsFront};
ghost use Rattle.vdr_track.specs.Texts.{entity, last_lines, line_at, opening, opening_behind};

use crate::point::Point;
use crate::segment::follow_record;
use crate::text::{closing_text, entity, name_end, opening_tags};
use std::alloc::AllocError;
use vdr_entry::Record;
use vdr_outside::{Failed, Sink, write_all};
use vdr_visit::{Visitor, VisitorRefused};

/// Prints the track of a source as GPX 1.1 (this project's profile).
///
/// A point is a good line of the source that says a valid position. A segment ends before a Start, before a Gap of its group, at a line of the source
/// that should say a position and says none that is valid, where the stamp falls or rises by more than 10,000 milliseconds, and where the group is
/// another. So no line is drawn over time without data.
///
/// It takes no memory.
#[derive(Drop)]
pub struct Track<'a> {
    source: &'a [u8],
    // Whether the tags before the segments were printed.
    begun: bool,
    // The last point of the segment that is open.
    last: Option<Point>,
}

fn print_name<O: Sink>(name: &[u8], out: &mut O) -> Result<(), Failed>
    ensures all { OnOk result (Appends (O.taken out.old) (O.taken out.new) (flat_map entity name.now)) }
    ensures front { AppendsFront (O.taken out.old) (O.taken out.new) (flat_map entity name.now) }
    ensures cause { HasCause (O.faults out.old) (O.faults out.new) result }
{
    for byte in name {
        write_all(out, entity(*byte).as_slice())?;
    }
    Ok(())
}

// Prints what stands before the segments: the tags up to the name, and the name.
fn print_opening<O: Sink>(source: &[u8], out: &mut O) -> Result<(), Failed>
    ensures all { OnOk result (Appends (O.taken out.old) (O.taken out.new) (opening source.now)) }
    ensures front { AppendsFront (O.taken out.old) (O.taken out.new) (opening source.now) }
    ensures cause { HasCause (O.faults out.old) (O.faults out.new) result }
{
    write_all(out, opening_tags())?;
    print_name(source, out)?;
    write_all(out, name_end())
}

impl<'a> Track<'a> {
    ghost use Rattle.vdr_track.specs.Drawn.{HasDrawn};

    /// The track of this source, `-` for the lines that name none, of no record.
    pub fn new(source: &'a [u8]) -> Track<'a>
        ensures { HasDrawn source.now [] result }
    {
        Track {
            source,
            begun: false,
            last: None,
        }
    }

    // Prints the tags before the segments, unless they are printed.
    fn begin<O: Sink>(&self, out: &mut O) -> Result<(), Failed>
        ensures all { (source : List ℕ) (seen : List Entry) → HasDrawn source seen self.now → OnOk result (Appends (O.taken out.old) (O.taken out.new) (opening_behind source seen)) }
        ensures front { (source : List ℕ) (seen : List Entry) → HasDrawn source seen self.now → AppendsFront (O.taken out.old) (O.taken out.new) (opening_behind source seen) }
        ensures cause { HasCause (O.faults out.old) (O.faults out.new) result }
    {
        if self.begun {
            return Ok(());
        }
        print_opening(self.source, out)
    }

    // Prints the next record.
    fn add<O: Sink>(&mut self, item: &Record, out: &mut O) -> Result<(), Failed>
        ensures drawn { (source : List ℕ) (seen : List Entry) → HasDrawn source seen self.old → OnOk result (HasDrawn source (seen ++ item.now ∷ []) self.new) }
        ensures all { (source : List ℕ) (seen : List Entry) → HasDrawn source seen self.old → OnOk result (Appends (O.taken out.old) (O.taken out.new) (line_at source seen item.now)) }
        ensures front { (source : List ℕ) (seen : List Entry) → HasDrawn source seen self.old → AppendsFront (O.taken out.old) (O.taken out.new) (line_at source seen item.now) }
        ensures cause { HasCause (O.faults out.old) (O.faults out.new) result }
    {
        self.begin(out)?;
        self.begun = true;
        follow_record(self.source, item, &mut self.last, out)
    }

    // Prints the end, behind the last record.
    fn end<O: Sink>(&self, out: &mut O) -> Result<(), Failed>
        ensures all { (source : List ℕ) (seen : List Entry) → HasDrawn source seen self.now → OnOk result (Appends (O.taken out.old) (O.taken out.new) (last_lines source seen)) }
        ensures front { (source : List ℕ) (seen : List Entry) → HasDrawn source seen self.now → AppendsFront (O.taken out.old) (O.taken out.new) (last_lines source seen) }
        ensures cause { HasCause (O.faults out.old) (O.faults out.new) result }
    {
        self.begin(out)?;
        write_all(out, closing_text(&self.last).as_slice())
    }
}

impl Visitor for Track<'_> {
    ghost use Rattle.std.specs.Prelude.{[]};
    ghost use Rattle.vdr_track.specs.Drawn.{HasDrawn};
    ghost use Rattle.vdr_track.specs.Texts.{last_lines, line_at};

    /// It never stops by itself; a command has a status for want of memory.
    type Reason = AllocError;

    ghost has = { λ first seen now. HasDrawn first.source.now [] first × HasDrawn first.source.now seen now };

    ghost line = { λ first seen item. line_at first.source.now seen item };

    ghost last = { λ first seen. last_lines first.source.now seen };

    ghost stops = { λ _ _ _. ⊥ };

    fn visit<O: Sink>(
        &mut self,
        item: &Record,
        out: &mut O,
    ) -> Result<(), VisitorRefused<AllocError>> {
        match self.add(item, out) {
            Ok(()) => Ok(()),
            Err(_) => Err(VisitorRefused::Output),
        }
    }

    fn finish<O: Sink>(&mut self, out: &mut O) -> Result<(), VisitorRefused<AllocError>> {
        match self.end(out) {
            Ok(()) => Ok(()),
            Err(_) => Err(VisitorRefused::Output),
        }
    }
}
