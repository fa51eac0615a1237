// Writing a record as its bytes.
ghost use Rattle.std.specs.Prelude.{◌≡◌, ◌≤◌, length};
ghost use Rattle.vdr_bytes.specs.Numbers.{Puts};
ghost use Rattle.vdr_terms.specs.Legality.{IsRecord};
ghost use Rattle.vdr_terms.specs.Sizes.{record_size};
ghost use Rattle.vdr_entry.specs.Fields.{code_of};
ghost use Rattle.vdr_entry.specs.Spelling.{record_bytes};

use crate::{Kind, Record};
use vdr_bytes::{put, put_u16, put_u64s};

fn code(kind: Kind) -> u8
    ensures { result ≡ code_of kind }
{
    match kind {
        Kind::Start => 0,
        Kind::Datagram => 1,
        Kind::Gap => 2,
        Kind::Stop => 3,
    }
}

/// Writes a record at the front of a slice that has room for it, and answers how many bytes it takes.
pub fn put_record(item: &Record, into: &mut [u8]) -> usize
    requires { record_size item.now ≤ length into.old }
    ensures size { result ≡ record_size item.now }
    ensures bytes { Puts into.old into.new 0 (record_bytes item.now) }
    ensures legal { IsRecord item.now }
{
    let len = item.payload.len();
    let stamp = item.utc.unsigned_abs();
    put(into, 0, &[code(item.kind), item.group]);
    put_u16(into, 2, len as u16);
    put_u64s(
        into,
        4,
        &[item.bits, item.place, item.number, item.tick, stamp],
    );
    put(into, 44, item.payload.as_slice());
    44 + len
}

/// Writes a record at the front of a slice of at least 1,516 bytes, which are enough for any, and answers how many bytes
/// it takes.
pub fn write_record(item: &Record, into: &mut [u8]) -> usize
    requires { 1516 ≤ length into.old }
    ensures size { result ≡ record_size item.now }
    ensures bytes { Puts into.old into.new 0 (record_bytes item.now) }
    ensures legal { IsRecord item.now }
{
    let _payload = &item.payload;
    put_record(item, into)
}
