// A slot that was read whole, judged.
//
// A segment without a summary was judged by opening and is judged again as it is read, since others may write the
// medium; it costs a walk over the bytes that were just read.
ghost use Rattle.std.specs.Prelude.{◌≤◌, ◌<◌, ℕ, length, IfSome, IfNone};
ghost use Rattle.vdr_ring.specs.Damage.{IsDamagedAt, IsIntact};

use vdr_index::{audit, survey};
use vdr_segment::{HEADER_SIZE, OPEN_GATE, read_header};

/// Where a slot with these bytes is damaged, as an offset in bytes from its beginning: its header, or the first batch that is not legal
/// or does not agree with the summary in the header. None where the slot is closed or intact. The bytes are those of the whole slot.
pub fn first_damage(bytes: &[u8]) -> Option<usize>
    requires { 65 ≤ length bytes.now }
    ensures some { IfSome result (λ at. IsDamagedAt bytes.now at) }
    ensures inside { IfSome result (λ at. at < length bytes.now) }
    ensures none { IfNone result (IsIntact bytes.now) }
{
    if bytes[0] != OPEN_GATE {
        return None;
    }
    let Some(front) = bytes.first_chunk::<HEADER_SIZE>() else {
        unreachable!()
    };
    let Some(header) = read_header(front) else {
        return Some(0);
    };
    match header.summary {
        Some(summary) => audit(bytes, header.first, &summary).err(),
        None => survey(bytes, header.first).err(),
    }
}
