// Where a segment that was read whole is damaged.
ghost use Rattle.std.specs.Prelude.{◌≡◌, ◌<◌, ◌≤◌, length, IfSome};
ghost use Rattle.vdr_segment.specs.Gates.{IsOpenAt};
ghost use Rattle.vdr_rescue.specs.Judging.{Judges, JudgesAlone, JudgesBare, strays};

use crate::Head;
use vdr_index::{audit, survey};
use vdr_segment::{HEADER_SIZE, OPEN_GATE, read_header};

// Where a segment without a summary is damaged: at its first batch that is not legal, else in its header where places or ticks are out
// of order.
fn bare_fault(bytes: &[u8], first: u64) -> Option<usize>
    requires { 65 ≤ length bytes.now }
    ensures judges { JudgesBare bytes.now first result }
    ensures inside { IfSome result (λ at. at < length bytes.now) }
{
    match survey(bytes, first) {
        Ok(found) => { if found.in_order { None } else { Some(0) } }
        Err(at) => Some(at),
    }
}

// Where the segment of an open slot is damaged by itself.
fn open_fault(bytes: &[u8]) -> Option<usize>
    requires least { 65 ≤ length bytes.now }
    requires opened { IsOpenAt bytes.now 0 }
    ensures judges { JudgesAlone bytes.now result }
    ensures inside { IfSome result (λ at. at < length bytes.now) }
{
    let Some(front) = bytes.first_chunk::<HEADER_SIZE>() else {
        unreachable!()
    };
    let Some(header) = read_header(front) else {
        return Some(0);
    };
    match header.summary {
        Some(summary) => audit(bytes, header.first, &summary).err(),
        None => bare_fault(bytes, header.first),
    }
}

// Where the segment of a slot is damaged by itself. A closed one has none.
fn own_fault(bytes: &[u8]) -> Option<usize>
    requires { 65 ≤ length bytes.now }
    ensures judges { JudgesAlone bytes.now result }
    ensures inside { IfSome result (λ at. at < length bytes.now) }
{
    if bytes[0] != OPEN_GATE {
        return None;
    }
    open_fault(bytes)
}

// Whether a segment with these numbers is out of order behind those that were read before.
fn strays(before: Option<u64>, floor: u64, head: Head) -> bool
    ensures { result ≡ strays before floor head }
{
    let falls_behind = match before {
        Some(earlier) => !(earlier < head.seq),
        None => false,
    };
    falls_behind || head.first < floor || head.first < head.seq
}

/// Where the segment with these bytes is damaged, in bytes from the beginning of its slot, behind a segment with the sequence
/// number `before` and records with places below `floor`. None where it is not.
pub(crate) fn judge(bytes: &[u8], before: Option<u64>, floor: u64, head: Head) -> Option<u32>
    requires least { 65 ≤ length bytes.now }
    requires most { length bytes.now ≤ 16_777_216 }
    ensures judges { Judges bytes.now before floor head result }
    ensures inside { IfSome result (λ at. at < length bytes.now) }
{
    if let Some(at) = own_fault(bytes) {
        return Some(at as u32);
    }
    if strays(before, floor, head) {
        return Some(0);
    }
    None
}
