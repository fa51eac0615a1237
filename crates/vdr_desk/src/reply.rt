// A reply to an operator's line, of no line, of one, or of several.
ghost use Rattle.std.specs.Prelude.{◌≡◌, ◌≤◌, [], length};
ghost use Rattle.vdr_desk.specs.Exchanges.{no_order_line};

use arrayvec::ArrayVec;
use std::marker::Model;

/// Room for the longest reply that needs no memory, in bytes.
pub const ROOM: usize = 4_096;

/// What goes back over a link in answer to a line: whole lines, each with its LF. Contracts see its bytes.
#[derive(Drop)]
pub struct Reply {
    line: ArrayVec<u8, ROOM>,
    // In the place of the line, where there is one.
    page: Option<Vec<u8>>,
}

impl Model for Reply {
    ghost use Rattle.std.specs.Prelude.{List, ℕ, option_map, unwrap_or};

    ghost Value = { List ℕ };

    ghost view = { λ r. unwrap_or (option_map (λ page. page.items) r.page) r.line.items };
}

impl Reply {
    /// No line at all.
    pub fn empty() -> Reply
        ensures { result ≡ [] }
    {
        Reply {
            line: ArrayVec::new(),
            page: None,
        }
    }

    /// A reply of one line, of at most 100 bytes with its LF.
    pub fn of_line(text: &[u8]) -> Reply
        requires { length text.now ≤ 100 }
        ensures { result ≡ text.now }
    {
        let mut line = ArrayVec::new();
        for byte in text {
            line.push(*byte);
        }
        Reply { line, page: None }
    }

    /// A reply of lines that need no memory.
    pub fn of_lines(lines: ArrayVec<u8, ROOM>) -> Reply
        ensures { result ≡ lines.items }
    {
        Reply {
            line: lines,
            page: None,
        }
    }

    /// A reply of several lines.
    pub fn of_page(page: Vec<u8>) -> Reply
        ensures { result ≡ page.items }
    {
        Reply {
            line: ArrayVec::new(),
            page: Some(page),
        }
    }

    /// The reply to a line that asks for nothing.
    pub fn no_order() -> Reply
        ensures { result ≡ no_order_line }
    {
        Reply::of_line(b"REFUSED 2\n")
    }

    /// The bytes that go back.
    pub fn bytes(&self) -> &[u8]
        ensures { result.now ≡ self.now }
    {
        match &self.page {
            Some(page) => page.as_slice(),
            None => self.line.as_slice(),
        }
    }
}
