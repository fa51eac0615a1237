// Pieces of an evidence file: a record's part, and what stands behind the last one.
ghost use Rattle.std.specs.Prelude.{◌≡◌, ◌≤◌, ◌+◌, ◌++◌, length};
ghost use Rattle.arrayvec.specs.ArrayVec.{array_vec_len};
ghost use Rattle.vdr_bytes.specs.Numbers.{le_u32, le_u64};
ghost use Rattle.vdr_evidence.specs.Files.{record_part};

use arrayvec::ArrayVec;
use vdr_bytes::{put_u32, put_u64};
use vdr_entry::{Record, write_record};

/// Room for the part of the longest record: its length, and 1,516 bytes.
pub(crate) const ROOM: usize = 1_520;

/// Bytes of a file.
pub(crate) type Piece = ArrayVec<u8, ROOM>;

/// Appends bytes for which there is room.
pub(crate) fn push(piece: &mut Piece, bytes: &[u8])
    requires { array_vec_len piece.old + length bytes.now ≤ 1_520 }
    ensures { piece.new.items ≡ piece.old.items ++ bytes.now }
{
    let _ = piece.try_extend_from_slice(bytes);
}

/// A number as four bytes.
pub(crate) fn u32_bytes(n: u32) -> [u8; 4]
    ensures { result ≡ le_u32 n }
{
    let mut bytes = [0; 4];
    put_u32(&mut bytes, 0, n);
    bytes
}

/// A number as eight bytes.
pub(crate) fn u64_bytes(n: u64) -> [u8; 8]
    ensures { result ≡ le_u64 n }
{
    let mut bytes = [0; 8];
    put_u64(&mut bytes, 0, n);
    bytes
}

/// The part of a record.
pub(crate) fn part_of(item: &Record) -> Piece
    ensures { result.items ≡ record_part item.now }
{
    let mut bytes = [0; 1516];
    let size = write_record(item, &mut bytes);
    let mut piece = ArrayVec::new();
    push(&mut piece, &u32_bytes(size as u32));
    push(&mut piece, &bytes[..size]);
    piece
}
