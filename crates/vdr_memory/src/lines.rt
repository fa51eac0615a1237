// The lines that a link in memory has to give.
ghost use Rattle.std.specs.Prelude.{◌≡◌, ◌≢◌, ◌↔◌, [], Some};
ghost use Rattle.vdr_outside.specs.Hears.{Hears, bare};
ghost use Rattle.vdr_outside.specs.declared.link.Heard.TheVariants.{Quiet, Ended, Failed};

use arrayvec::ArrayVec;
use std::marker::Model;
use vdr_outside::{Heard, LONGEST_LINE};

/// A line that a link in memory is to give, without its LF.
#[derive(Drop)]
pub struct LinkLine {
    pub bytes: Vec<u8>,
}

impl Model for LinkLine {
    ghost use Rattle.std.specs.Prelude.{List, ℕ};

    ghost Value = { List ℕ };

    ghost view = { λ s. s.bytes.items };
}

#[derive(Drop)]
pub(crate) struct Lines {
    lines: Vec<LinkLine>,
    given: usize,
}

impl Model for Lines {
    ghost use Rattle.std.specs.Prelude.{◌≤◌, List, ℕ, length, drop};

    ghost Value = { List (List ℕ) };

    ghost view = { λ s. drop s.given s.lines.items };

    ghost invariant = { λ s. s.given ≤ length s.lines.items };
}

// The line without the CR at its end.
fn without_cr(line: &[u8]) -> &[u8]
    ensures { result.now ≡ bare line.now }
{
    match line {
        [front @ .., b'\r'] => front,
        _ => line,
    }
}

impl Lines {
    pub(crate) fn new(lines: Vec<LinkLine>) -> Lines
        ensures { result ≡ lines.items }
    {
        Lines { lines, given: 0 }
    }

    // Those that are not given yet.
    pub(crate) fn left(&self) -> &[LinkLine]
        ensures { result.now ≡ self.now }
    {
        &self.lines[self.given..]
    }

    // Gives the next one, if any is left.
    pub(crate) fn give(&mut self, into: &mut ArrayVec<u8, LONGEST_LINE>) -> Heard
        ensures heard { Hears (Some self.old) (Some self.new) result into.new.items }
        ensures ended { (result ≡ Ended) ↔ (self.old ≡ []) }
        ensures not_quiet { result ≢ Quiet }
        ensures not_failed { result ≢ Failed }
    {
        into.clear();
        if self.given == self.lines.len() {
            return Heard::Ended;
        }
        let line = without_cr(self.lines[self.given].bytes.as_slice());
        let is_long = line.len() > LONGEST_LINE;
        if !is_long {
            let _ = into.try_extend_from_slice(line);
        }
        self.given += 1;
        if is_long { Heard::Long } else { Heard::Line }
    }
}
