// The header of a segment, with the summary of its records, read and written.
//
// A new header's summary is zeros though it isn't read, so that a new header is one list of bytes. A header is legal
// by its row alone; that numbers are in order is a rule of the medium.
ghost use Rattle.std.specs.Prelude.{◌≡◌, None, IfSome, IfNone, take, drop};
ghost use Rattle.vdr_segment.specs.declared.header.Header.{Header as AHeader};
ghost use Rattle.vdr_segment.specs.Headers.{IsHeader, TellsSummary, FitsSummary, new_header, summary_bytes};

use crate::OPEN_GATE;
use vdr_bytes::{put_u32, put_u64s, u32_at, u64_at};
use vdr_entry::Summary;

/// How many bytes the header at the front of a segment takes.
pub const HEADER_SIZE: usize = 64;

/// Where the gate of a header's summary stands. The summary is the bytes behind it.
pub const SUMMARY_GATE: usize = 17;

/// How many bytes a summary takes.
pub const SUMMARY_SIZE: usize = 44;

/// What the header of a segment says.
#[derive(Clone, Copy, Debug, PartialEq, Eq, Drop)]
pub struct Header {
    /// The sequence number of the segment: each new one on a medium has the next.
    pub seq: u64,
    /// The place of its first record.
    pub first: u64,
    /// What its records have in common. None where the summary gate is closed, as it is while the segment may grow.
    pub summary: Option<Summary>,
}

/// Writes the header of a new segment (this project's profile), with both its gates closed: its own, byte 0, and that of
/// its summary, byte 17.
pub fn write_header(seq: u64, first: u64, into: &mut [u8; HEADER_SIZE])
    ensures bytes { into.new ≡ new_header seq first }
    ensures header { IsHeader into.new (record { seq = seq; first = first; summary = None }) }
{
    *into = [0; HEADER_SIZE];
    put_u64s(into, 1, &[seq, first]);
}

/// Writes a summary as bytes 18 to 61 of a header have it, without its gate.
pub fn write_summary(summary: &Summary, into: &mut [u8; SUMMARY_SIZE])
    ensures { into.new ≡ summary_bytes summary.now }
{
    put_u32(into, 0, summary.count);
    put_u64s(
        into,
        4,
        &[
            summary.first_second,
            summary.last_second,
            summary.least_utc.cast_unsigned(),
            summary.greatest_utc.cast_unsigned(),
            summary.bits,
        ],
    );
}

// The summary in a header, where its gate is open.
fn summary_in(bytes: &[u8; HEADER_SIZE]) -> Option<Summary>
    ensures told { TellsSummary (take 45 (drop 17 bytes.now)) result }
    ensures fits { IfSome result FitsSummary }
{
    if bytes[SUMMARY_GATE] != OPEN_GATE {
        return None;
    }
    Some(Summary {
        count: u32_at(bytes, 18),
        first_second: u64_at(bytes, 22),
        last_second: u64_at(bytes, 30),
        least_utc: u64_at(bytes, 38).cast_signed(),
        greatest_utc: u64_at(bytes, 46).cast_signed(),
        bits: u64_at(bytes, 54),
    })
}

/// The header that the bytes are, whatever stands in byte 0. None exactly where they are none: where byte 62 or 63 is not
/// zero. Whether the numbers are in order with those of other segments is not asked here.
pub fn read_header(bytes: &[u8; HEADER_SIZE]) -> Option<Header>
    ensures found { IfSome result (IsHeader bytes.now) }
    ensures none { IfNone result ((h : AHeader) → IsHeader bytes.now h → ⊥) }
{
    if bytes[62] != 0 || bytes[63] != 0 {
        return None;
    }
    Some(Header {
        seq: u64_at(bytes, 1),
        first: u64_at(bytes, 9),
        summary: summary_in(bytes),
    })
}
