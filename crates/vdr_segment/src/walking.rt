// Walking the batches of a segment.
ghost use Rattle.std.specs.Prelude.{◌≡◌, ◌↔◌, List, IsTrue, IfSome, IfNone};
ghost use Rattle.vdr_terms.specs.Records.{Record as Entry};
ghost use Rattle.vdr_terms.specs.Sizes.{records_size};
ghost use Rattle.vdr_segment.specs.Gates.{IsOpenAt};
ghost use Rattle.vdr_segment.specs.Batches.{AreRecords, HasBatchAt};
ghost use Rattle.vdr_segment.specs.Walks.{Walks};

use crate::{BATCH_HEAD, OPEN_GATE, Walk};
use vdr_bytes::u32_at;
use vdr_entry::record_at;

// The bytes are legal records, one after another.
fn are_records(bytes: &[u8]) -> bool
    ensures { IsTrue result ↔ ((records : List Entry) × AreRecords bytes.now records) }
{
    let mut rest = bytes;
    while !rest.is_empty() {
        match record_at(rest) {
            Some(size) => rest = &rest[size..],
            None => return false,
        }
    }
    true
}

// How many bytes of records the batch at the front has. None exactly where the gate there is that of no batch.
fn records_len(bytes: &[u8]) -> Option<usize>
    requires { IsOpenAt bytes.now 0 }
    ensures found { IfSome result (λ len. (records : List Entry) × HasBatchAt bytes.now 0 records × (len ≡ records_size records)) }
    ensures none { IfNone result ((records : List Entry) → HasBatchAt bytes.now 0 records → ⊥) }
{
    // A closing gate must fit behind the records.
    let least = BATCH_HEAD + 1;
    if bytes.len() < least {
        return None;
    }
    let len = u32_at(bytes, 1) as usize;
    if len == 0 || bytes.len() - least < len {
        return None;
    }
    if !are_records(&bytes[BATCH_HEAD..BATCH_HEAD + len]) {
        return None;
    }
    Some(len)
}

/// What stands at an offset of a segment: `End` exactly where its gate is not open or `at` is not below the segment's length,
/// `Broken` exactly where an open gate has no legal batch. A batch is legal where its records are, where there is at least
/// one, and where one more gate fits behind them.
pub fn walk(segment: &[u8], at: usize) -> Walk
    ensures { Walks segment.now at result }
{
    if at >= segment.len() || segment[at] != OPEN_GATE {
        return Walk::End;
    }
    match records_len(&segment[at..]) {
        Some(len) => Walk::Batch {
            from: at + BATCH_HEAD,
            to: at + BATCH_HEAD + len,
        },
        None => Walk::Broken,
    }
}
