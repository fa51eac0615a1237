// The records that a review may print.
//
// Records are kept and not lines, each with its own bytes, so that memory grows with the window and not with the
// feed.
ghost use Rattle.std.specs.Prelude.{◌≡◌, ◌≤◌, ◌+◌, [], ◌∷◌, ◌++◌, List, All, OnOk, IsTrue, ◌↔◌};
ghost use Rattle.std.specs.Io.KnownBytes.{Appends};
ghost use Rattle.vdr_terms.specs.Records.{Record as Told, second};
ghost use Rattle.vdr_outside.specs.Causes.{HasCause};
ghost use Rattle.vdr_outside.specs.Writes.{AppendsFront};
ghost use Rattle.vdr_play.specs.Streams.{nothing_seen};
ghost use Rattle.vdr_play.specs.Texts.{records_text, seen_by};
ghost use Rattle.vdr_review.specs.Walks.{kept_of};
ghost use Rattle.vdr_review.specs.Review.{review_seconds, OnFirst, PopsOld, shown_records};

use crate::kept::Kept;
use std::alloc::{AllocError, Global};
use std::collections::VecDeque;
use std::marker::Model;
use vdr_config::SHIP_CAPSULE_SECONDS;
use vdr_entry::Record;
use vdr_outside::{Failed, Printable, Sink};
use vdr_play::{Tracks, print_record};
use vdr_window::in_window;

/// The records in their order, without those that left the window for good.
#[derive(Drop)]
pub(crate) struct Window {
    kept: VecDeque<Kept>,
}

// Prints a record that is in the window which ends with this second, and no other.
fn print_shown<O: Sink>(
    kept: &Kept,
    last: u64,
    tracks: &mut Tracks,
    out: &mut O,
) -> Result<(), Failed>
    ensures all { OnOk result (Appends (O.taken out.old) (O.taken out.new) (records_text tracks.old (shown_records last (kept.now ∷ [])))) }
    ensures front { AppendsFront (O.taken out.old) (O.taken out.new) (records_text tracks.old (shown_records last (kept.now ∷ []))) }
    ensures seen { OnOk result (tracks.new ≡ seen_by tracks.old (shown_records last (kept.now ∷ []))) }
    ensures cause { HasCause (O.faults out.old) (O.faults out.new) result }
{
    if has_left(kept, last) {
        return Ok(());
    }
    print_record(&kept.record(), tracks, out)
}

// The record is out of the window that ends with this second, and of each later one.
fn has_left(kept: &Kept, last: u64) -> bool
    ensures { IsTrue result ↔ (second kept.now.tick + review_seconds ≤ last) }
{
    !in_window(kept.second(), last, SHIP_CAPSULE_SECONDS)
}

impl Model for Window {
    ghost use Rattle.std.specs.Prelude.{List};
    ghost use Rattle.vdr_terms.specs.Records.{Record as Told};

    ghost Value = { List Told };

    ghost view = { λ w. w.kept.items };
}

impl Window {
    /// A window without a record.
    pub(crate) fn new(alloc: Global) -> Window
        ensures { result ≡ [] }
    {
        Window {
            kept: VecDeque::new(alloc),
        }
    }

    // Keeps one more record, if it is a Datagram or a Gap.
    fn push(&mut self, alloc: Global, item: &Record) -> Result<(), AllocError>
        ensures { OnOk result (self.new ≡ self.old ++ kept_of (item.now ∷ [])) }
    {
        match Kept::of(alloc, item)? {
            Some(kept) => self.kept.push_back(kept)?,
            None => {}
        }
        Ok(())
    }

    /// Keeps the Datagrams and Gaps of these records.
    pub(crate) fn keep(&mut self, alloc: Global, records: &[Record]) -> Result<(), AllocError>
        ensures { OnOk result (self.new ≡ self.old ++ kept_of records.now) }
    {
        for record in records {
            self.push(alloc, record)?;
        }
        Ok(())
    }

    /// Lets the first records go that are at least as old as a window that ends with this second.
    pub(crate) fn drop_before(&mut self, last: u64)
        ensures { (gone : List Told) × (self.old ≡ gone ++ self.new)
            × All (λ r. second r.tick + review_seconds ≤ last) gone }
    {
        while self.pop_before(last) {}
    }

    // Lets the first record go if it is so old.
    fn pop_before(&mut self, last: u64) -> bool
        ensures { PopsOld last result self.old self.new }
    {
        if !self.begins_before(last) {
            return false;
        }
        let _ = self.kept.pop_front();
        true
    }

    /// Prints the records of the window that ends with this second.
    pub(crate) fn print<O: Sink>(&self, last: u64, out: &mut O) -> Result<(), Failed>
        ensures all { OnOk result (Appends (O.taken out.old) (O.taken out.new) (records_text nothing_seen (shown_records last self.now))) }
        ensures front { AppendsFront (O.taken out.old) (O.taken out.new) (records_text nothing_seen (shown_records last self.now)) }
        ensures cause { HasCause (O.faults out.old) (O.faults out.new) result }
    {
        let mut tracks = Tracks::new();
        for kept in &self.kept {
            print_shown(kept, last, &mut tracks, out)?;
        }
        Ok(())
    }

    // The first record is so old.
    fn begins_before(&self, last: u64) -> bool
        ensures { IsTrue result ↔ OnFirst (λ r. second r.tick + review_seconds ≤ last) self.now }
    {
        match self.kept.front() {
            Some(first) => has_left(first, last),
            None => false,
        }
    }
}

/// A review that is ready to be printed: the records that may be shown, and the second in which the window ends.
#[derive(Drop)]
pub struct Review {
    pub(crate) window: Window,
    pub(crate) last: u64,
}

impl Printable for Review {
    ghost use Rattle.vdr_review.specs.Printed.{printed};

    ghost text = { printed };

    fn print<O: Sink>(&self, out: &mut O) -> Result<(), Failed> {
        self.window.print(self.last, out)
    }
}
