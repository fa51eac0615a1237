// The runs of the recorder, record by record, and at the end of the records.
ghost use Rattle.std.specs.Prelude.{◌≡◌, ◌≤◌, None, OnOk, Some, length};
ghost use Rattle.std.specs.Io.KnownBytes.{Appends};
ghost use Rattle.vdr_outside.specs.Causes.{HasCause};
ghost use Rattle.vdr_outside.specs.Writes.{AppendsFront};
ghost use Rattle.vdr_runs.specs.Runs.{closing_text, grown, left_text, record_text, run_after};

use crate::print::print_run;
use crate::run::Run;
use std::alloc::AllocError;
use std::marker::Model;
use vdr_entry::{Content, Record};
use vdr_outside::{Failed, Sink};
use vdr_visit::{Visitor, VisitorRefused};

/// Tells the runs of the recorder by its records, which it meets in the order of their places (this project's profile).
///
/// Each run is a line `A B FROM TO STATE TICK`: the places of its first and its last record, the stamps of its first and its last Datagram (`-`
/// without one), how it ended, and the tick of its last record, recording time in milliseconds. STATE is `closed` where it has its Stop, `cut` where the
/// next run begins without one, as behind a power failure, and `open` where it goes on behind the last record. Below it stands what it missed, by cause,
/// as its Gaps count it.
///
/// It takes no memory.
#[derive(Drop)]
pub struct Runs {
    // The run that goes on.
    current: Option<Run>,
}

impl Model for Runs {
    ghost use Rattle.std.specs.Prelude.{Option};
    ghost use Rattle.vdr_runs.specs.Runs.{Run as ARun};

    ghost Value = { Option ARun };

    ghost view = { λ r. r.current };
}

// Prints a run that did not end by its Stop, if there is one.
fn print_left<O: Sink>(current: &Option<Run>, state: &[u8], out: &mut O) -> Result<(), Failed>
    requires { length state.now ≤ 6 }
    ensures all { OnOk result (Appends (O.taken out.old) (O.taken out.new) (left_text state.now current.now)) }
    ensures front { AppendsFront (O.taken out.old) (O.taken out.new) (left_text state.now current.now) }
    ensures cause { HasCause (O.faults out.old) (O.faults out.new) result }
{
    match current {
        Some(run) => print_run(run, state, out),
        None => Ok(()),
    }
}

impl Runs {
    // One more record of the run that goes on, or of the one that it begins.
    fn grow(&mut self, item: &Record)
        ensures { self.new ≡ Some (grown self.old item.now) }
    {
        match &mut self.current {
            Some(run) => run.add(item),
            None => self.current = Some(Run::of_first(item)),
        }
    }

    /// The runs of no record.
    pub fn new() -> Runs
        ensures { result ≡ None }
    {
        Runs { current: None }
    }

    /// Meets the next record, and prints the run that ends with it or before it. Where a write fails a front of that is written.
    pub fn add<O: Sink>(&mut self, item: &Record, out: &mut O) -> Result<(), Failed>
        ensures added { OnOk result (self.new ≡ run_after self.old item.now) }
        ensures all { OnOk result (Appends (O.taken out.old) (O.taken out.new) (record_text self.old item.now)) }
        ensures front { AppendsFront (O.taken out.old) (O.taken out.new) (record_text self.old item.now) }
        ensures cause { HasCause (O.faults out.old) (O.faults out.new) result }
    {
        match item.content() {
            Content::Start => {
                print_left(&self.current, b"cut", out)?;
                self.current = Some(Run::of_first(item));
            }
            Content::Datagram(_) | Content::Gap(_) => self.grow(item),
            Content::Stop => {
                self.grow(item);
                print_left(&self.current, b"closed", out)?;
                self.current = None;
            }
        }
        Ok(())
    }

    /// Prints the run that goes on behind the last record, if there is one. Where a write fails a front of that is written.
    pub fn tell_last<O: Sink>(&self, out: &mut O) -> Result<(), Failed>
        ensures all { OnOk result (Appends (O.taken out.old) (O.taken out.new) (closing_text self.now)) }
        ensures front { AppendsFront (O.taken out.old) (O.taken out.new) (closing_text self.now) }
        ensures cause { HasCause (O.faults out.old) (O.faults out.new) result }
    {
        print_left(&self.current, b"open", out)
    }
}

impl Visitor for Runs {
    ghost use Rattle.std.specs.Prelude.{◌≡◌, None};
    ghost use Rattle.vdr_runs.specs.Runs.{last_lines, line_at, open_behind};

    /// It never stops by itself; a command has a status for want of memory.
    type Reason = AllocError;

    ghost has = { λ first seen now. (first ≡ None) × (now ≡ open_behind None seen) };

    ghost line = { λ _ seen item. line_at seen item };

    ghost last = { λ _ seen. last_lines seen };

    ghost stops = { λ _ _ _. ⊥ };

    fn visit<O: Sink>(
        &mut self,
        item: &Record,
        out: &mut O,
    ) -> Result<(), VisitorRefused<AllocError>> {
        match self.add(item, out) {
            Ok(()) => Ok(()),
            Err(_) => Err(VisitorRefused::Output),
        }
    }

    fn finish<O: Sink>(&mut self, out: &mut O) -> Result<(), VisitorRefused<AllocError>> {
        match self.tell_last(out) {
            Ok(()) => Ok(()),
            Err(_) => Err(VisitorRefused::Output),
        }
    }
}
