// What is known of an image that is listed: how much of it is there.
ghost use Rattle.std.specs.Prelude.{◌≡◌, ◌≤◌, ◌<◌, ◌+◌, ◌++◌, codes, decimal, false, true, length, replicate, slice_set, IfOk};
ghost use Rattle.arrayvec.specs.ArrayVec.{array_vec_len};
ghost use Rattle.vdr_terms.specs.Stamps.{IsStamp};
ghost use Rattle.vdr_entry.specs.Utc.{utc_text};
ghost use Rattle.vdr_image.specs.Views.{header_of};
ghost use Rattle.vdr_export.specs.Listings.{listed_text, state_word, unseen, with_part};

use crate::block::Block;
use arrayvec::ArrayVec;
use itoa::Buffer;
use std::alloc::{AllocError, Global};
use std::marker::Model;
use vdr_entry::write_utc;
use vdr_image::ImageHeader;

/// Room for a line: a source of 6 bytes, a block of 10, a stamp of 24, two numbers of 10, a state of 8, and 6 bytes
/// behind them.
const ROOM: usize = 74;

type Line = ArrayVec<u8, ROOM>;

/// An image of which records have a part.
#[derive(Drop)]
pub(crate) struct Listed {
    /// The stamp of the record of its first part.
    utc: i64,
    /// Of each part, up to the number of parts that the first one says: whether it is there.
    had: Vec<bool>,
    /// How many of them are.
    parts: u32,
    /// Whether a part says another number of parts.
    mixed: bool,
}

impl Model for Listed {
    ghost use Rattle.std.specs.Prelude.{◌≡◌};
    ghost use Rattle.vdr_export.specs.Listings.{Listed as AListed, IsListed, parts_in};

    ghost Value = { AListed };

    ghost view = { λ x. record { utc = x.utc; had = x.had.items; mixed = x.mixed } };

    ghost invariant = { λ x. (x.parts ≡ parts_in x.had.items) × IsListed (record { utc = x.utc; had = x.had.items; mixed = x.mixed }) };
}

// So many parts, of which none is there.
fn no_parts(alloc: Global, count: u32) -> Result<Vec<bool>, AllocError>
    ensures { IfOk result (λ parts. parts.items ≡ replicate count false) }
{
    let mut parts = Vec::new(alloc);
    for _ in 0..count {
        parts.push(false)?;
    }
    Ok(parts)
}

// Appends a text, for which there is room.
fn push_text(line: &mut Line, text: &[u8])
    requires { array_vec_len line.old + length text.now ≤ 74 }
    ensures { line.new.items ≡ line.old.items ++ text.now }
{
    for byte in text {
        line.push(*byte);
    }
}

// A number and the space behind it.
fn push_number(line: &mut Line, number: u32)
    requires room { array_vec_len line.old + 11 ≤ 74 }
    ensures text { line.new.items ≡ line.old.items ++ decimal number ++ codes " " }
    ensures short { array_vec_len line.new ≤ array_vec_len line.old + 11 }
{
    push_text(line, Buffer::new().format(number).as_bytes());
    push_text(line, b" ");
}

// A stamp and the space behind it.
fn push_utc(line: &mut Line, utc: i64)
    requires stamp { IsStamp utc }
    requires room { array_vec_len line.old + 25 ≤ 74 }
    ensures text { line.new.items ≡ line.old.items ++ utc_text utc ++ codes " " }
    ensures short { array_vec_len line.new ≤ array_vec_len line.old + 25 }
{
    let mut text = ArrayVec::new();
    write_utc(utc, &mut text);
    push_text(line, text.as_slice());
    push_text(line, b" ");
}

impl Listed {
    /// An image of which no part is there, whose first part has this header and this stamp.
    pub(crate) fn unseen(
        alloc: Global,
        utc: i64,
        header: &ImageHeader<'_>,
    ) -> Result<Listed, AllocError>
        requires { IsStamp utc }
        ensures { IfOk result (λ x. x ≡ unseen utc (header_of header.now)) }
    {
        Ok(Listed {
            utc,
            had: no_parts(alloc, header.greatest)?,
            parts: 0,
            mixed: false,
        })
    }

    // The part of this number is there.
    fn put(&mut self, slot: usize)
        ensures { self.new ≡ record self.old { had = slice_set self.old.had slot true } }
    {
        if slot < self.had.len() && !self.had[slot] {
            self.had[slot] = true;
            self.parts += 1;
        }
    }

    /// One more part of it.
    pub(crate) fn add(&mut self, header: &ImageHeader<'_>)
        ensures { self.new ≡ with_part (header_of header.now) self.old }
    {
        if self.had.len() != header.greatest as usize {
            self.mixed = true;
        }
        self.put(header.sequence as usize - 1);
    }

    // `complete` where all parts are there and say one number of parts, `mixed` where they say several, else `part`.
    fn state(&self) -> &'static [u8]
        ensures word { result.now ≡ state_word self.now }
        ensures short { length result.now ≤ 8 }
    {
        if self.mixed {
            b"mixed"
        } else if self.parts as usize == self.had.len() {
            b"complete"
        } else {
            b"part"
        }
    }

    /// Its line: `SOURCE BLOCK UTC PARTS OF COMPLETE` and LF.
    pub(crate) fn text(&self, block: &Block) -> Line
        ensures { result.items ≡ listed_text (block.now, self.now) }
    {
        let mut line = ArrayVec::new();
        push_text(&mut line, &block.source);
        push_text(&mut line, b" ");
        push_number(&mut line, block.number);
        push_utc(&mut line, self.utc);
        push_number(&mut line, self.parts);
        push_number(&mut line, self.had.len() as u32);
        push_text(&mut line, self.state());
        push_text(&mut line, b"\n");
        line
    }
}
