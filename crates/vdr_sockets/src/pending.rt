// The bytes of a peer that were not given as a line yet.
//
// A line is counted without its CR and LF, so that one of 256 bytes is none too long.
ghost use Rattle.std.specs.Prelude.{◌≡◌, ◌≢◌, ◌≤◌, ◌<◌, false, None, [], length, IfSome};
ghost use Rattle.vdr_outside.specs.Calls.{other};
ghost use Rattle.vdr_outside.specs.Hears.{Hears, heard_answer};
ghost use Rattle.vdr_outside.specs.declared.link.Heard.TheVariants.{Failed};

use arrayvec::ArrayVec;
use vdr_outside::{Heard, LONGEST_LINE};

/// How many bytes are gathered at most: a longest line with its CR, and a piece.
const CAPACITY: usize = 2 * LONGEST_LINE + 1;

#[derive(Drop)]
pub(crate) struct Pending {
    bytes: ArrayVec<u8, CAPACITY>,
    // Whether the line that is gathered is too long already: its bytes are passed over.
    is_long: bool,
}

impl Pending {
    pub(crate) fn new() -> Pending {
        Pending {
            bytes: ArrayVec::new(),
            is_long: false,
        }
    }

    // Whether no line is begun.
    pub(crate) fn is_empty(&self) -> bool {
        self.bytes.is_empty() && !self.is_long
    }

    // Gathers a piece of at most 256 bytes. No LF is among those that were gathered before.
    pub(crate) fn push(&mut self, piece: &[u8]) {
        if self.bytes.len() > LONGEST_LINE + 1 {
            self.bytes.clear();
            self.is_long = true;
        }
        let _ = self.bytes.try_extend_from_slice(piece);
    }

    // Gives the next line that is whole, without its LF and without a CR before it. It is quiet where there is none.
    pub(crate) fn line(&mut self, into: &mut ArrayVec<u8, LONGEST_LINE>) -> Heard
        ensures heard { Hears None None result into.new.items }
        ensures going_on { heard_answer result ≡ other }
        ensures not_failed { result ≢ Failed }
    {
        into.clear();
        let Some(end) = self.end_of_line() else {
            return Heard::Quiet;
        };
        let fits = self.give(end, into);
        self.bytes.drain(..=end);
        self.is_long = false;
        if fits { Heard::Line } else { Heard::Long }
    }

    // Where the first line ends.
    fn end_of_line(&self) -> Option<usize>
        ensures { IfSome result (λ end. end < length self.now.bytes.items) }
    {
        self.bytes.iter().position(|byte| *byte == b'\n')
    }

    // Gives the line that ends here, unless it is too long.
    fn give(&self, end: usize, into: &mut ArrayVec<u8, LONGEST_LINE>) -> bool
        requires { end < length self.now.bytes.items }
        ensures none { result ≡ false → into.new.items ≡ [] }
        ensures short { length into.new.items ≤ LONGEST_LINE }
    {
        into.clear();
        let line = match &self.bytes.as_slice()[..end] {
            [front @ .., b'\r'] => front,
            whole => whole,
        };
        if self.is_long || line.len() > LONGEST_LINE {
            return false;
        }
        let _ = into.try_extend_from_slice(line);
        true
    }
}
