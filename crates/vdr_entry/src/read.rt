// Reading a record from its bytes.
ghost use Rattle.std.specs.Prelude.{◌≡◌, ◌≢◌, ◌≤◌, ◌<◌, ◌+◌, ◌↔◌, ◌++◌, ℕ, List, IsTrue, IfSome, IfNone};
ghost use Rattle.vdr_terms.specs.Legality.{IsMissed, IsRecord};
ghost use Rattle.vdr_terms.specs.Records.{Record as Entry, total};
ghost use Rattle.vdr_terms.specs.Sizes.{record_size};
ghost use Rattle.vdr_entry.specs.declared.kind.Kind.{Kind as AKind};
ghost use Rattle.vdr_entry.specs.Fields.{code_of, missed_in};
ghost use Rattle.vdr_entry.specs.Reading.{Begins};
ghost use Rattle.vdr_entry.specs.Spotting.{AreInRange, Spots, Suits, payload_in};
ghost use Rattle.vdr_entry.specs.Spelling.{gap_payload, record_bytes};

use crate::payload::{GAP_SIZE, missed_in, refill};
use crate::{Kind, Record};
use vdr_bytes::{u16_at, u64_at};
use vdr_terms::{Counts, LAST_STAMP, Verdict, recordable};

fn kind_of(code: u8) -> Option<Kind>
    ensures found { IfSome result (λ kind. code ≡ code_of kind) }
    ensures none { IfNone result ((kind : AKind) → code ≢ code_of kind) }
{
    match code {
        0 => Some(Kind::Start),
        1 => Some(Kind::Datagram),
        2 => Some(Kind::Gap),
        3 => Some(Kind::Stop),
        _ => None,
    }
}

fn is_any(missed: Counts) -> bool
    ensures { IsTrue result ↔ (0 < total missed) }
{
    missed.full > 0 || missed.rate > 0 || missed.bad > 0 || missed.large > 0
}

// The payload is that of a Gap whose first missed number is this.
fn suits_gap(number: u64, payload: &[u8]) -> bool
    ensures { IsTrue result ↔ (IsMissed (missed_in payload.now) × (payload.now ≡ gap_payload number (missed_in payload.now))) }
{
    if payload.len() != GAP_SIZE {
        return false;
    }
    if u64_at(payload, 0) != number {
        return false;
    }
    is_any(missed_in(payload))
}

fn suits(kind: Kind, group: u8, number: u64, payload: &[u8]) -> bool
    ensures { IsTrue result ↔ Suits kind group number payload.now }
{
    match kind {
        Kind::Start | Kind::Stop => group == 255 && number == 0 && payload.is_empty(),
        Kind::Datagram => group <= 15 && recordable(payload) == Verdict::Yes,
        Kind::Gap => group <= 15 && suits_gap(number, payload),
    }
}

fn are_in_range(place: u64, tick: u64, utc: u64) -> bool
    ensures { IsTrue result ↔ AreInRange place tick utc }
{
    place < 1 << 63 && tick < 1 << 63 && utc <= LAST_STAMP as u64
}

// The kind and the payload of the record at the front.
fn spot(bytes: &[u8]) -> Option<(Kind, &[u8])>
    ensures found { IfSome result (λ x. Spots bytes.now x.0) }
    ensures payload { IfSome result (λ x. x.1.now ≡ payload_in bytes.now) }
    ensures none { IfNone result ((kind : AKind) → Spots bytes.now kind → ⊥) }
{
    if bytes.len() < 44 {
        return None;
    }
    let len = u16_at(bytes, 2) as usize;
    if bytes.len() - 44 < len {
        return None;
    }
    let payload = &bytes[44..44 + len];
    let kind = kind_of(bytes[0])?;
    if !are_in_range(u64_at(bytes, 12), u64_at(bytes, 28), u64_at(bytes, 36)) {
        return None;
    }
    if !suits(kind, bytes[1], u64_at(bytes, 20), payload) {
        return None;
    }
    Some((kind, payload))
}

/// How many bytes the record at the front of these takes, without reading it out. None exactly where no front of the
/// bytes is a record.
pub fn record_at(bytes: &[u8]) -> Option<usize>
    ensures found { IfSome result (λ n. (r : Entry) × (rest : List ℕ) × Begins bytes.now r rest × (n ≡ record_size r)) }
    ensures none { IfNone result ((r : Entry) (rest : List ℕ) → Begins bytes.now r rest → ⊥) }
{
    let Some((_, payload)) = spot(bytes) else {
        return None;
    };
    Some(44 + payload.len())
}

impl Record {
    /// Reads the record at the front of the bytes into this place, and answers how many of them it takes. What stood here
    /// is gone. None exactly where no front of the bytes is a record, and then this one is as it was.
    pub fn read_from(&mut self, bytes: &[u8]) -> Option<usize>
        ensures found { IfSome result (λ size. (rest : List ℕ) × Begins bytes.now self.new rest × (size ≡ record_size self.new)) }
        ensures none { IfNone result ((r : Entry) (rest : List ℕ) → Begins bytes.now r rest → ⊥) }
        ensures same { IfNone result (self.new ≡ self.old) }
    {
        let Some((kind, payload)) = spot(bytes) else {
            return None;
        };
        self.kind = kind;
        self.group = bytes[1];
        self.bits = u64_at(bytes, 4);
        self.place = u64_at(bytes, 12);
        self.number = u64_at(bytes, 20);
        self.tick = u64_at(bytes, 28);
        self.utc = u64_at(bytes, 36) as i64;
        refill(&mut self.payload, payload);
        Some(self.size())
    }
}

/// The record at the front of the bytes, and how many of them it takes. None exactly where no front of the bytes is a
/// record.
pub fn read_record(bytes: &[u8]) -> Option<(Record, usize)>
    ensures found { IfSome result (λ x. (rest : List ℕ) × Begins bytes.now x.0 rest × (x.1 ≡ record_size x.0)) }
    ensures none { IfNone result ((r : Entry) (rest : List ℕ) → Begins bytes.now r rest → ⊥) }
{
    let mut item = Record::start(0, 0, 0, 0);
    let size = item.read_from(bytes)?;
    Some((item, size))
}

/// No record's bytes begin another's: a written record reads back whatever follows it.
pub fn one_spelling()
    ensures { (r s : Entry) (x y : List ℕ) → IsRecord r → IsRecord s → record_bytes r ++ x ≡ record_bytes s ++ y → r ≡ s }
{}
