// The 19 bytes before an item's body.
ghost use Rattle.std.specs.Prelude.{◌≡◌, ◌≤◌, ◌<◌, ◌^◌, ◌≢◌, true, false, ℕ, List, take, length, IfOk, OnErr};
ghost use Rattle.std.specs.Io.KnownBytes.{Consumes};
ghost use Rattle.vdr_outside.specs.Causes.{HasCause};
ghost use Rattle.vdr_outside.specs.Filling.{ReadsFewer};
ghost use Rattle.vdr_feed.specs.Reader.{IfKnown};
ghost use Rattle.std.specs.Int.{w16, w64, from_le_bytes};
ghost use Rattle.vdr_terms.specs.Legality.{IsBytes};
ghost use Rattle.vdr_feed.specs.Feed.{group_in, received_in, utc_in, length_in, head_fault, feed_header};

use vdr_outside::{Failed, Source, fill};
use vdr_terms::LAST_STAMP;

const RECEIVED_END: u64 = 1 << 48;

fn u64_of(bytes: &[u8]) -> u64
    requires { length bytes.now ≡ 8 }
    ensures { result ≡ from_le_bytes w64 bytes.now }
{
    u64::from_le_bytes([
        bytes[0], bytes[1], bytes[2], bytes[3], bytes[4], bytes[5], bytes[6], bytes[7],
    ])
}

/// The milliseconds since capture began.
pub(crate) fn received_of(head: &[u8]) -> u64
    requires { length head.now ≡ 19 }
    ensures { result ≡ received_in head.now }
{
    u64_of(&head[1..9])
}

/// The UTC stamp as a natural number; a negative one is 2^63 or more.
pub(crate) fn utc_of(head: &[u8]) -> u64
    requires { length head.now ≡ 19 }
    ensures { result ≡ utc_in head.now }
{
    u64_of(&head[9..17])
}

/// The length of the body, in bytes.
pub(crate) fn length_of(head: &[u8]) -> u16
    requires { length head.now ≡ 19 }
    ensures { result ≡ length_in head.now }
{
    let tail = &head[17..19];
    u16::from_le_bytes([tail[0], tail[1]])
}

/// The number of the first fault of a head, where the item before was received at `floor`.
pub(crate) fn fault_of_head(head: &[u8], floor: u64) -> Option<u8>
    requires { length head.now ≡ 19 }
    ensures fault { result ≡ head_fault floor head.now }
    ensures bytes { IsBytes head.now }
{
    let received = received_of(head);
    if received >= RECEIVED_END || utc_of(head) > LAST_STAMP as u64 {
        return Some(3);
    }
    if head[0] > 15 {
        return Some(4);
    }
    if received < floor {
        return Some(5);
    }
    None
}

/// Whether the input begins with the header of a feed, which is then passed.
pub(crate) fn read_header<I: Source>(input: &mut I) -> Result<bool, Failed>
    ensures yes { IfOk result (λ yes. yes ≡ true → Consumes (I.left input.old) (I.left input.new) feed_header) }
    ensures front { IfOk result (λ _. (front : List ℕ) × (length front ≤ 8) × Consumes (I.left input.old) (I.left input.new) front) }
    ensures no { IfOk result (λ yes. yes ≡ false → IfKnown (I.left input.old) (λ bytes. take 8 bytes ≢ feed_header)) }
    ensures part { OnErr result (ReadsFewer 8 (I.left input.old) (I.left input.new)) }
    ensures cause { HasCause (I.faults input.old) (I.faults input.new) result }
{
    let mut front = [0; 8];
    let got = fill(input, &mut front)?;
    if got < 8 {
        return Ok(false);
    }
    if front[0] != b'V' || front[1] != b'D' || front[2] != b'R' || front[3] != b'F' {
        return Ok(false);
    }
    if front[4] != b'E' || front[5] != b'E' || front[6] != b'D' || front[7] != b'1' {
        return Ok(false);
    }
    Ok(true)
}
