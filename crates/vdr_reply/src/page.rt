// A text of several lines on its way to a link.
ghost use Rattle.std.specs.Prelude.{◌≡◌, ◌++◌, [], IfOk, Some, codes};
ghost use Rattle.vdr_reply.specs.Texts.{IsTextOr9, done_line, with_end};

use crate::lines::NO_MEMORY;
use std::alloc::{AllocError, Global};
use vdr_desk::Reply;
use vdr_outside::{Failed, Sink};

/// A page in memory. It fails where there is no memory for it.
#[derive(Drop)]
pub(crate) struct Page {
    bytes: Vec<u8>,
    refused: u64,
}

impl Page {
    /// A page with its first line.
    pub(crate) fn begin(alloc: Global) -> Result<Page, AllocError>
        ensures text { IfOk result (λ page. page.bytes.items ≡ done_line) }
        ensures works { IfOk result (λ page. page.refused ≡ 0) }
    {
        let mut bytes = Vec::new(alloc);
        bytes.extend_from_slice(b"OK\n")?;
        Ok(Page { bytes, refused: 0 })
    }

    /// A page with no line.
    pub(crate) fn empty(alloc: Global) -> Page
        ensures { result.bytes.items ≡ [] }
    {
        Page {
            bytes: Vec::new(alloc),
            refused: 0,
        }
    }

    /// What it has so far.
    pub(crate) fn as_slice(&self) -> &[u8]
        ensures { result.now ≡ self.now.bytes.items }
    {
        self.bytes.as_slice()
    }

    // The page with its last line.
    fn end(self) -> Result<Vec<u8>, AllocError>
        ensures { IfOk result (λ bytes. bytes.items ≡ self.bytes.items ++ codes ".\n") }
    {
        let Page {
            mut bytes,
            refused: _,
        } = self;
        bytes.extend_from_slice(b".\n")?;
        Ok(bytes)
    }

    /// The page with its last line, as the reply. Where there is no memory for it, that is the reply.
    pub(crate) fn reply(self) -> Reply
        ensures { IsTextOr9 (with_end self.bytes.items) result }
    {
        match self.end() {
            Ok(bytes) => Reply::of_page(bytes),
            Err(_) => Reply::of_line(NO_MEMORY),
        }
    }
}

impl Sink for Page {
    ghost taken = { λ s. Some s.bytes.items };

    ghost faults = { λ s. s.refused };

    fn write(&mut self, bytes: &[u8]) -> Result<usize, Failed> {
        if self.bytes.extend_from_slice(bytes).is_err() {
            self.refused = self.refused.saturating_add(1);
            return Err(Failed);
        }
        Ok(bytes.len())
    }
}
