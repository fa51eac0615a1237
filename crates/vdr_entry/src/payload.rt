// What stands behind the 44 bytes of a record.
ghost use Rattle.std.specs.Prelude.{◌≡◌, ◌≤◌, ◌<◌, length};
ghost use Rattle.vdr_terms.specs.Legality.{IsMissed};
ghost use Rattle.vdr_terms.specs.Records.{total};
ghost use Rattle.vdr_entry.specs.Fields.{missed_in};
ghost use Rattle.vdr_entry.specs.Spelling.{gap_payload};

use arrayvec::ArrayVec;
use vdr_bytes::{put_u64s, u64_at};
use vdr_terms::Counts;

/// The payload of a Gap is five numbers of eight bytes.
pub(crate) const GAP_SIZE: usize = 40;

/// A copy of the bytes.
pub(crate) fn kept(bytes: &[u8]) -> ArrayVec<u8, 1472>
    requires { length bytes.now ≤ 1472 }
    ensures { result.items ≡ bytes.now }
{
    let mut payload = ArrayVec::new();
    let _ = payload.try_extend_from_slice(bytes);
    payload
}

/// Puts these bytes in the place of those that are held. Only they are copied.
pub(crate) fn refill(payload: &mut ArrayVec<u8, 1472>, bytes: &[u8])
    requires { length bytes.now ≤ 1472 }
    ensures { payload.new.items ≡ bytes.now }
{
    let kept = payload.len().min(bytes.len());
    payload.truncate(kept);
    payload.as_mut_slice().copy_from_slice(&bytes[..kept]);
    let _ = payload.try_extend_from_slice(&bytes[kept..]);
}

/// The payload of a Gap.
pub(crate) fn gap_payload(first: u64, missed: Counts) -> [u8; GAP_SIZE]
    ensures bytes { result ≡ gap_payload first missed }
    ensures legal { 0 < total missed → IsMissed missed }
{
    let mut bytes = [0; GAP_SIZE];
    let numbers = [first, missed.full, missed.rate, missed.bad, missed.large];
    put_u64s(&mut bytes, 0, &numbers);
    bytes
}

/// The counts in the payload of a Gap.
pub(crate) fn missed_in(payload: &[u8]) -> Counts
    requires { 40 ≤ length payload.now }
    ensures { result ≡ missed_in payload.now }
{
    Counts {
        full: u64_at(payload, 8),
        rate: u64_at(payload, 16),
        bad: u64_at(payload, 24),
        large: u64_at(payload, 32),
    }
}
