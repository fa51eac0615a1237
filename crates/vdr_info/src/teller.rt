// What tells of one medium alone, by the records that it gives.
ghost use Rattle.std.specs.Prelude.{◌≡◌, ◌++◌, OnOk};
ghost use Rattle.std.specs.Io.KnownBytes.{Appends};
ghost use Rattle.vdr_outside.specs.Causes.{HasCause};
ghost use Rattle.vdr_outside.specs.Writes.{AppendsFront};

use crate::{Held, medium_line};
use std::alloc::AllocError;
use std::marker::Model;
use vdr_entry::Record;
use vdr_outside::{Failed, Sink, write_all};
use vdr_visit::{Visitor, VisitorRefused};

/// Tells what stands on a medium by its records, which it meets in the order of their places: behind the last one it prints the line of the
/// medium, and below it the text that it was given. It takes no memory.
#[derive(Drop)]
pub struct Teller {
    held: Held,
    below: Vec<u8>,
}

impl Model for Teller {
    ghost use Rattle.vdr_info.specs.Infos.{TellerState};

    ghost Value = { TellerState };

    ghost view = { λ t. record { held = t.held; below = t.below.items } };
}

// Writes two texts.
fn write_both<O: Sink>(first: &[u8], second: &[u8], out: &mut O) -> Result<(), Failed>
    ensures all { OnOk result (Appends (O.taken out.old) (O.taken out.new) (first.now ++ second.now)) }
    ensures front { AppendsFront (O.taken out.old) (O.taken out.new) (first.now ++ second.now) }
    ensures cause { HasCause (O.faults out.old) (O.faults out.new) result }
{
    write_all(out, first)?;
    write_all(out, second)
}

impl Teller {
    /// One that has met no record of this medium.
    pub fn new(held: Held, below: Vec<u8>) -> Teller
        ensures { result ≡ record { held = held; below = below.items } }
    {
        Teller { held, below }
    }
}

impl Visitor for Teller {
    ghost use Rattle.std.specs.Prelude.{◌≡◌, []};
    ghost use Rattle.vdr_info.specs.Infos.{teller_behind, told_behind};

    /// It never stops by itself; a command has a status for want of memory.
    type Reason = AllocError;

    ghost has = { λ first seen now. now ≡ teller_behind first seen };

    ghost line = { λ _ seen item. [] };

    ghost last = { λ first seen. told_behind first seen };

    ghost stops = { λ _ _ _. ⊥ };

    fn visit<O: Sink>(
        &mut self,
        item: &Record,
        _out: &mut O,
    ) -> Result<(), VisitorRefused<AllocError>> {
        self.held = self.held.with(item);
        Ok(())
    }

    fn finish<O: Sink>(&mut self, out: &mut O) -> Result<(), VisitorRefused<AllocError>> {
        match write_both(
            medium_line(&self.held).as_slice(),
            self.below.as_slice(),
            out,
        ) {
            Ok(()) => Ok(()),
            Err(_) => Err(VisitorRefused::Output),
        }
    }
}
