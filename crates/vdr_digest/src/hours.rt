// The records of the last hour.
ghost use Rattle.std.specs.Prelude.{◌≡◌, ◌≤◌, ◌+◌, ◌++◌, ◌∷◌, [], ℕ, List, true, false, if◌then◌else◌};
ghost use Rattle.arrayvec.specs.ArrayVec.{array_vec_len};
ghost use Rattle.vdr_terms.specs.Records.{Record as Entry};
ghost use Rattle.vdr_digest.specs.Digests.{hour, hour_line, is_hour_of};

use crate::line::{Lines, push_line};
use crate::span::Span;
use arrayvec::ArrayVec;
use itoa::Buffer;
use sha2::{Digest, Sha256};
use vdr_entry::{Record, write_record};

/// How many milliseconds an hour has.
const HOUR: u64 = 3_600_000;

/// The records of the last hour: which it is, where they stand, and the hash of their bytes so far.
#[derive(Drop)]
pub(crate) struct Hours {
    hour: u64,
    span: Option<Span>,
    records: Sha256,
}

/// The hour of a record.
pub(crate) fn hour_in(item: &Record) -> u64
    ensures { result ≡ hour item.now.tick }
{
    item.tick / HOUR
}

impl Hours {
    ghost use Rattle.vdr_digest.specs.Held.{HoldsHour, hour_of};

    /// No record.
    pub(crate) fn new() -> Hours
        ensures { HoldsHour result [] }
    {
        Hours {
            hour: 0,
            span: None,
            records: Sha256::new(),
        }
    }

    // Whether there are records, of this hour.
    fn are_of(&self, hour: u64) -> bool
        ensures { (held : List Entry) → HoldsHour self.now held → result ≡ is_hour_of held hour }
    {
        self.span.is_some() && self.hour == hour
    }

    /// One record more, of the hour of those before it.
    pub(crate) fn add(&mut self, item: &Record)
        ensures { (held : List Entry) → HoldsHour self.old held → hour_of (held ++ item.now ∷ []) ≡ hour item.now.tick → HoldsHour self.new (held ++ item.now ∷ []) }
    {
        let mut bytes = [0; 1516];
        let size = write_record(item, &mut bytes);
        self.records.update(&bytes[..size]);
        self.hour = hour_in(item);
        self.span = Some(Span::with(self.span, item));
    }

    /// The line of the hour, where there is a record of it.
    pub(crate) fn line(&self) -> Lines
        ensures text { (held : List Entry) → HoldsHour self.now held → result.items ≡ hour_line held }
        ensures short { array_vec_len result ≤ 149 }
    {
        let mut text = ArrayVec::new();
        if self.span.is_none() {
            return text;
        }
        let digest = self.records.clone().unwrap().finalize();
        push_line(
            &mut text,
            Buffer::new().format(self.hour).as_bytes(),
            self.span,
            &digest,
        );
        text
    }

    /// The line of the hour before this one, where the records are of another one, and none is held then.
    pub(crate) fn line_before(&mut self, hour: u64) -> Lines
        ensures text { (held : List Entry) → HoldsHour self.old held → result.items ≡ (if is_hour_of held hour then [] else hour_line held) }
        ensures left { (held : List Entry) → HoldsHour self.old held → HoldsHour self.new (if is_hour_of held hour then held else []) }
        ensures short { array_vec_len result ≤ 149 }
    {
        if self.are_of(hour) {
            return ArrayVec::new();
        }
        let text = self.line();
        self.hour = 0;
        self.span = None;
        self.records.reset();
        text
    }
}
