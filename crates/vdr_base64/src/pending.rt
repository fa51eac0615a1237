// Bytes that wait until they make a line.
ghost use Rattle.std.specs.Prelude.{◌≡◌, [], length, take, OnOk};
ghost use Rattle.std.specs.Io.KnownBytes.{Appends};
ghost use Rattle.vdr_outside.specs.Causes.{HasCause};
ghost use Rattle.vdr_outside.specs.Writes.{AppendsFront};
ghost use Rattle.vdr_base64.specs.Lines.{left_over, lines_of, whole_lines};

use crate::lines::{PIECE, print_lines, print_whole};
use std::alloc::Global;
use vdr_outside::{Failed, Sink};

/// Bytes in memory that are not printed yet. As a sink it fails where there is no memory for more.
#[derive(Drop)]
pub(crate) struct Pending {
    bytes: Vec<u8>,
    refused: u64,
}

impl Pending {
    /// No byte waits.
    pub(crate) fn new(alloc: Global) -> Pending
        ensures { result.bytes.items ≡ [] }
    {
        Pending {
            bytes: Vec::new(alloc),
            refused: 0,
        }
    }

    /// Prints the lines of the pieces that are whole, and keeps what is behind them.
    pub(crate) fn hand_on<O: Sink>(&mut self, out: &mut O) -> Result<(), Failed>
        ensures all { OnOk result (Appends (O.taken out.old) (O.taken out.new) (whole_lines self.old.bytes.items)) }
        ensures kept { OnOk result (self.new.bytes.items ≡ left_over self.old.bytes.items) }
        ensures front { AppendsFront (O.taken out.old) (O.taken out.new) (whole_lines self.old.bytes.items) }
        ensures cause { HasCause (O.faults out.old) (O.faults out.new) result }
    {
        print_whole(self.bytes.as_slice(), out)?;
        let whole = self.len() / PIECE * PIECE;
        self.bytes.drain(..whole);
        Ok(())
    }

    /// How many bytes wait.
    pub(crate) fn len(&self) -> usize
        ensures { result ≡ length self.now.bytes.items }
    {
        self.bytes.as_slice().len()
    }

    /// Prints the lines of all that waits, and keeps the first of it, so many bytes.
    pub(crate) fn end<O: Sink>(&mut self, first: usize, out: &mut O) -> Result<(), Failed>
        ensures all { OnOk result (Appends (O.taken out.old) (O.taken out.new) (lines_of self.old.bytes.items)) }
        ensures kept { self.new.bytes.items ≡ take first self.old.bytes.items }
        ensures front { AppendsFront (O.taken out.old) (O.taken out.new) (lines_of self.old.bytes.items) }
        ensures cause { HasCause (O.faults out.old) (O.faults out.new) result }
    {
        let printed = print_lines(self.bytes.as_slice(), out);
        self.bytes.truncate(first);
        printed
    }
}

impl Sink for Pending {
    ghost use Rattle.std.specs.Prelude.{Some};

    ghost taken = { λ s. Some s.bytes.items };

    ghost faults = { λ s. s.refused };

    fn write(&mut self, bytes: &[u8]) -> Result<usize, Failed> {
        if self.bytes.extend_from_slice(bytes).is_err() {
            self.refused = self.refused.saturating_add(1);
            return Err(Failed);
        }
        Ok(bytes.len())
    }
}
