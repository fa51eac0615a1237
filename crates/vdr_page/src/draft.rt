// The text of lines on their way to rows.
ghost use Rattle.std.specs.Prelude.{◌≡◌, ◌++◌, [], false, OnOk};
ghost use Rattle.vdr_page.specs.Watched.{line_byte, rows_within, watch_rows};

use crate::field::escaped;
use std::alloc::{AllocError, Global};
use vdr_outside::{Failed, Sink};

/// A text in memory. It fails where there is no memory for it.
#[derive(Drop)]
pub(crate) struct Draft {
    pub(crate) bytes: Vec<u8>,
    refused: u64,
}

impl Draft {
    /// No text.
    pub(crate) fn new(alloc: Global) -> Draft
        ensures { result.bytes.items ≡ [] }
    {
        Draft {
            bytes: Vec::new(alloc),
            refused: 0,
        }
    }
}

impl Sink for Draft {
    ghost use Rattle.std.specs.Prelude.{Some};

    ghost taken = { λ s. Some s.bytes.items };

    ghost faults = { λ s. s.refused };

    fn write(&mut self, bytes: &[u8]) -> Result<usize, Failed> {
        if self.bytes.extend_from_slice(bytes).is_err() {
            self.refused = self.refused.saturating_add(1);
            return Err(Failed);
        }
        Ok(bytes.len())
    }
}

#[tactic(auto, unfolding(crate::specs::Watched::line_byte))]
fn push_line_byte(text: &mut Vec<u8>, within: bool, byte: u8) -> Result<(), AllocError>
    ensures { OnOk result (text.new.items ≡ text.old.items ++ line_byte within byte) }
{
    if !within {
        text.extend_from_slice(b"[\"watch\",\"")?;
    }
    match byte {
        b'\n' => text.extend_from_slice(b"\"],\n"),
        _ => text.extend_from_slice(escaped(byte).as_slice()),
    }
}

/// Appends a row for each line.
pub(crate) fn push_lines(text: &mut Vec<u8>, lines: &[u8]) -> Result<(), AllocError>
    ensures { OnOk result (text.new.items ≡ text.old.items ++ watch_rows lines.now) }
{
    let mut within = false;
    for byte in lines {
        push_line_byte(text, within, *byte)?;
        within = *byte != b'\n';
    }
    Ok(())
}
