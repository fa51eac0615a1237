// The lines of a sentence datagram, one after another.
ghost use Rattle.std.specs.Prelude.{◌≡◌, ◌≤◌, length};

use crate::cutting::first_line;
use crate::line::{Line, read_line};

/// The lines of a datagram that are left.
#[derive(Drop)]
pub struct Lines<'a> {
    bytes: &'a [u8],
    // Where the next line begins.
    at: usize,
    ghost within: { at ≤ length bytes.now },
}

impl<'a> Lines<'a> {
    ghost use Rattle.std.specs.Prelude.{drop};
    ghost use Rattle.vdr_datagram.specs.Lines.{cut};
    ghost use Rattle.vdr_datagram.specs.Verdicts.{spans_from};
    ghost use Rattle.vdr_datagram.specs.Views.{lines_left};

    /// The lines of the bytes from this place on.
    pub(crate) fn from(bytes: &'a [u8], at: usize) -> Lines<'a>
        requires { at ≤ length bytes.now }
        ensures { lines_left result ≡ spans_from at (cut (drop at bytes.now)) }
    {
        Lines { bytes, at }
    }
}

impl<'a> Iterator for Lines<'a> {
    ghost use Rattle.std.specs.Iterator.{YieldsFirstBy, item_count};
    ghost use Rattle.vdr_datagram.specs.Views.{lines_left, span_of};

    type Item = Line<'a>;

    ghost next_gives = { YieldsFirstBy span_of lines_left };

    ghost remaining = { item_count lines_left };

    fn next(&mut self) -> Option<Line<'a>> {
        let line = first_line(&self.bytes[self.at..])?;
        let from = self.at;
        self.at += line.len();
        Some(Line {
            from,
            to: self.at,
            verdict: read_line(line),
        })
    }
}
