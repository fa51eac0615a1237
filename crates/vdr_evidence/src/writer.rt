// What writes records as an evidence file.
ghost use Rattle.std.specs.Prelude.{◌≡◌, ◌++◌, ◌∷◌, [], ℕ, List, OnOk};
ghost use Rattle.std.specs.Io.KnownBytes.{Appends};
ghost use Rattle.vdr_outside.specs.Causes.{HasCause};
ghost use Rattle.vdr_outside.specs.Writes.{AppendsFront};
ghost use Rattle.vdr_terms.specs.Records.{Record as Entry};
ghost use Rattle.vdr_evidence.specs.Files.{closing, heading_at, record_part};

use crate::piece::{Piece, part_of, push, u32_bytes, u64_bytes};
use arrayvec::ArrayVec;
use sha2::{Digest, Sha256};
use std::alloc::AllocError;
use vdr_entry::Record;
use vdr_outside::{Failed, Sink, write_all};
use vdr_visit::{Visitor, VisitorRefused};

/// Writes the records that it visits as an evidence file: the heading before the first of them, each as soon as it comes, and behind the last
/// one their number and the SHA-256 of all before. It takes no memory.
#[derive(Drop)]
pub struct EvidenceWriter {
    heading: Vec<u8>,
    // Whether the heading was written.
    begun: bool,
    // How many records were written. The count stands still at the greatest u64.
    count: u64,
    // The hash of the heading and of these records' parts.
    hasher: Sha256,
}

// Writes two texts.
fn write_both<O: Sink>(first: &[u8], second: &[u8], out: &mut O) -> Result<(), Failed>
    ensures all { OnOk result (Appends (O.taken out.old) (O.taken out.new) (first.now ++ second.now)) }
    ensures front { AppendsFront (O.taken out.old) (O.taken out.new) (first.now ++ second.now) }
    ensures cause { HasCause (O.faults out.old) (O.faults out.new) result }
{
    write_all(out, first)?;
    write_all(out, second)
}

impl EvidenceWriter {
    ghost use Rattle.vdr_evidence.specs.Writing.{HasWritten};

    /// One that has written no record behind this heading.
    pub fn new(heading: Vec<u8>) -> EvidenceWriter
        ensures { HasWritten result heading.items [] }
    {
        let mut hasher = Sha256::new();
        hasher.update(heading.as_slice());
        EvidenceWriter {
            heading,
            begun: false,
            count: 0,
            hasher,
        }
    }

    // The heading, where it is still to be written.
    fn heading_left(&self) -> &[u8]
        ensures { (heading : List ℕ) (seen : List Entry) → HasWritten self.now heading seen → result.now ≡ heading_at heading seen }
    {
        if self.begun {
            return b"";
        }
        self.heading.as_slice()
    }

    // One record more, of which this is the part.
    fn add(&mut self, part: &[u8])
        ensures { (heading : List ℕ) (seen : List Entry) (item : Entry) → part.now ≡ record_part item → HasWritten self.old heading seen → HasWritten self.new heading (seen ++ item ∷ []) }
    {
        self.hasher.update(part);
        self.count = self.count.saturating_add(1);
        self.begun = true;
    }

    // What stands behind the last record.
    fn closing(&self) -> Piece
        ensures { (heading : List ℕ) (seen : List Entry) → HasWritten self.now heading seen → result.items ≡ closing heading seen }
    {
        let mut piece = ArrayVec::new();
        push(&mut piece, &u32_bytes(0));
        push(&mut piece, &u64_bytes(self.count));
        let mut hasher = self.hasher.clone().unwrap();
        hasher.update(piece.as_slice());
        push(&mut piece, &hasher.finalize());
        piece
    }
}

impl Visitor for EvidenceWriter {
    ghost use Rattle.vdr_evidence.specs.Files.{last_lines, line_at};
    ghost use Rattle.vdr_evidence.specs.Writing.{HasWritten};

    /// It never stops by itself; a command has a status for want of memory.
    type Reason = AllocError;

    ghost has = { λ first seen now. HasWritten first first.heading.items [] × HasWritten now first.heading.items seen };

    ghost line = { λ first seen item. line_at first.heading.items seen item };

    ghost last = { λ first seen. last_lines first.heading.items seen };

    ghost stops = { λ _ _ _. ⊥ };

    fn visit<O: Sink>(
        &mut self,
        item: &Record,
        out: &mut O,
    ) -> Result<(), VisitorRefused<AllocError>> {
        let part = part_of(item);
        let written = write_both(self.heading_left(), part.as_slice(), out);
        self.add(part.as_slice());
        match written {
            Ok(()) => Ok(()),
            Err(_) => Err(VisitorRefused::Output),
        }
    }

    fn finish<O: Sink>(&mut self, out: &mut O) -> Result<(), VisitorRefused<AllocError>> {
        let closing = self.closing();
        match write_both(self.heading_left(), closing.as_slice(), out) {
            Ok(()) => Ok(()),
            Err(_) => Err(VisitorRefused::Output),
        }
    }
}
