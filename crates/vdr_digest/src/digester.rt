// What makes the digest of records.
ghost use Rattle.std.specs.Prelude.{◌≡◌, ◌++◌, ◌∷◌, [], ℕ, List};
ghost use Rattle.vdr_terms.specs.Records.{Record as Entry};
ghost use Rattle.vdr_digest.specs.Digests.{last_lines, line_at};

use crate::hours::{Hours, hour_in};
use crate::line::{Lines, push_line};
use crate::span::Span;
use sha2::{Digest, Sha256};
use std::alloc::AllocError;
use vdr_entry::Record;
use vdr_outside::{Sink, write_all};
use vdr_visit::{Visitor, VisitorRefused};

/// Makes the digest of the records that it visits: a line for each hour, as soon as a record of another one comes, and behind the last
/// record the line of all. It takes no memory.
#[derive(Drop)]
pub struct Digester {
    hours: Hours,
    // The hash of the lines before the last hour's.
    lines: Sha256,
    // Where all records stand.
    all: Option<Span>,
}

impl Digester {
    ghost use Rattle.vdr_digest.specs.Held.{HasVisited, IsNew};

    /// One that has visited no record.
    pub fn new() -> Digester
        ensures { IsNew result }
    {
        Digester {
            hours: Hours::new(),
            lines: Sha256::new(),
            all: None,
        }
    }

    // Takes one record more, and gives the line of the hour before it, where it is of another one.
    fn take(&mut self, item: &Record) -> Lines
        ensures visited { (seen : List Entry) → HasVisited self.old seen → HasVisited self.new (seen ++ item.now ∷ []) }
        ensures line { (seen : List Entry) → HasVisited self.old seen → result.items ≡ line_at seen item.now }
    {
        let text = self.hours.line_before(hour_in(item));
        self.lines.update(text.as_slice());
        self.hours.add(item);
        self.all = Some(Span::with(self.all, item));
        text
    }

    // The lines behind the last record.
    fn end(&self) -> Lines
        ensures { (seen : List Entry) → HasVisited self.now seen → result.items ≡ last_lines seen }
    {
        let mut text = self.hours.line();
        let mut lines = self.lines.clone().unwrap();
        lines.update(text.as_slice());
        push_line(&mut text, b"all", self.all, &lines.finalize());
        text
    }
}

impl Visitor for Digester {
    ghost use Rattle.vdr_digest.specs.Held.{HasVisited, IsNew};

    /// It never stops by itself; a command has a status for want of memory.
    type Reason = AllocError;

    ghost has = { λ first seen now. IsNew first × HasVisited now seen };

    ghost line = { λ _ seen item. line_at seen item };

    ghost last = { λ _ seen. last_lines seen };

    ghost stops = { λ _ _ _. ⊥ };

    fn visit<O: Sink>(
        &mut self,
        item: &Record,
        out: &mut O,
    ) -> Result<(), VisitorRefused<AllocError>> {
        let line = self.take(item);
        match write_all(out, line.as_slice()) {
            Ok(()) => Ok(()),
            Err(_) => Err(VisitorRefused::Output),
        }
    }

    fn finish<O: Sink>(&mut self, out: &mut O) -> Result<(), VisitorRefused<AllocError>> {
        let lines = self.end();
        match write_all(out, lines.as_slice()) {
            Ok(()) => Ok(()),
            Err(_) => Err(VisitorRefused::Output),
        }
    }
}
