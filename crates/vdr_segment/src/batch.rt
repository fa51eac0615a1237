// Writing a batch: its gate, the length of its records, and the records.
//
// `write_batch` writes an open gate and a closed one behind, so that its bytes are the batch as the grammar has it;
// whoever writes to a medium writes from byte 1 on, syncs, and then byte 0. A batch without room for one more gate
// is broken.
ghost use Rattle.std.specs.Prelude.{◌≡◌, ◌≤◌, ◌<◌, ◌+◌, ◌^◌, [], ◌∷◌, ◌++◌, length, All};
ghost use Rattle.vdr_bytes.specs.Numbers.{Puts};
ghost use Rattle.vdr_terms.specs.Legality.{IsRecord};
ghost use Rattle.vdr_terms.specs.Sizes.{record_size, records_size, batch_size};
ghost use Rattle.vdr_entry.specs.Spelling.{record_bytes, records_bytes};
ghost use Rattle.vdr_segment.specs.Gates.{closed_gate};
ghost use Rattle.vdr_segment.specs.Batches.{IsBatch, batch_bytes};

use crate::{CLOSED_GATE, OPEN_GATE};
use vdr_bytes::{put, put_u32};
use vdr_entry::{Record, put_record};

/// How many bytes a batch has before its records: its gate, and their length in four bytes.
pub const BATCH_HEAD: usize = 5;

// Writes a record at an offset, and answers where it ends.
fn put_at(item: &Record, into: &mut [u8], at: usize) -> usize
    requires { at + record_size item.now ≤ length into.old }
    ensures end { result ≡ at + record_size item.now }
    ensures bytes { Puts into.old into.new at (record_bytes item.now) }
    ensures legal { IsRecord item.now }
{
    at + put_record(item, &mut into[at..])
}

// Writes records one after another from an offset on, and answers where the last ends.
fn put_records(records: &[Record], into: &mut [u8], at: usize) -> usize
    requires { at + records_size records.now ≤ length into.old }
    ensures end { result ≡ at + records_size records.now }
    ensures bytes { Puts into.old into.new at (records_bytes records.now) }
    ensures legal { All IsRecord records.now }
{
    let mut end = at;
    for item in records {
        end = put_at(item, into, end);
    }
    end
}

/// Writes a batch of records at the front of a slice, its gate open, and a closed gate behind it (this project's profile).
/// Answers how many bytes the batch takes, in which the gate behind it is not counted. A batch has at least one record and
/// fewer than 2^32 bytes of records.
pub fn write_batch(records: &[Record], into: &mut [u8]) -> usize
    requires some { 0 < length records.now }
    requires short { records_size records.now < 2 ^ 32 }
    requires room { batch_size records.now < length into.old }
    ensures size { result ≡ batch_size records.now }
    ensures bytes { Puts into.old into.new 0 (batch_bytes records.now ++ closed_gate ∷ []) }
    ensures legal { IsBatch records.now }
{
    let end = put_records(records, into, BATCH_HEAD);
    put_u32(into, 1, (end - BATCH_HEAD) as u32);
    put(into, 0, &[OPEN_GATE]);
    put(into, end, &[CLOSED_GATE]);
    end
}
