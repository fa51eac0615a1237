// The generated feed.
ghost use Rattle.std.specs.Prelude.{◌≡◌, ◌≤◌, ◌<◌, ◌+◌, ◌++◌, length};
ghost use Rattle.vdr_feed.specs.Kept.{Holds};
ghost use Rattle.vdr_feed.specs.Trial.{checked, trial_bytes, trial_heading, trial_item, trial_state, trial_tag};

use crate::Item;
use arrayvec::ArrayVec;
use vdr_bytes::{checksum, upper_digits};
use vdr_outside::LONGEST_TAKEN;

// The transmission group NAVD (IEC 61162-450).
const NAVD: u8 = 3;

// The milliseconds between two items.
const STEP: u64 = 400;

// The start of 2024, in milliseconds since 1970.
const START: u64 = 1_704_067_200_000;

fn next_state(state: u32) -> u32
    ensures { result ≡ trial_state state }
{
    ((1_103_515_245 * state as u64 + 12_345) % 2_147_483_648) as u32
}

fn digit(n: u64) -> u8
    requires { n < 10 }
    ensures { result ≡ 48 + n }
{
    b'0' + n as u8
}

fn tag(index: u64) -> [u8; 14]
    ensures { result ≡ trial_tag index }
{
    let hundreds = digit(index / 100 % 10);
    let tens = digit(index / 10 % 10);
    let ones = digit(index % 10);
    [
        b's', b':', b'G', b'P', b'0', b'0', b'0', b'1', b',', b'n', b':', hundreds, tens, ones,
    ]
}

fn heading(tenths: u64) -> [u8; 13]
    ensures { result ≡ trial_heading tenths }
{
    let hundreds = digit(tenths / 10 / 100 % 10);
    let tens = digit(tenths / 10 / 10 % 10);
    let ones = digit(tenths / 10 % 10);
    let tenth = digit(tenths % 10);
    [
        b'G', b'P', b'H', b'D', b'T', b',', hundreds, tens, ones, b'.', tenth, b',', b'T',
    ]
}

fn push_text(bytes: &mut ArrayVec<u8, LONGEST_TAKEN>, text: &[u8])
    requires { length bytes.old.items + length text.now ≤ 1473 }
    ensures { bytes.new.items ≡ bytes.old.items ++ text.now }
{
    let _ = bytes.try_extend_from_slice(text);
}

// Appends a text with its checksum.
fn push_checked(bytes: &mut ArrayVec<u8, LONGEST_TAKEN>, text: &[u8])
    requires { length bytes.old.items + length text.now + 3 ≤ 1473 }
    ensures { bytes.new.items ≡ bytes.old.items ++ checked text.now }
{
    push_text(bytes, text);
    push_text(bytes, b"*");
    push_text(bytes, &upper_digits(checksum(text)));
}

fn fill_body(state: u32, index: u64, bytes: &mut ArrayVec<u8, LONGEST_TAKEN>)
    ensures { bytes.new.items ≡ trial_bytes state index }
{
    bytes.clear();
    push_text(bytes, b"UdPbC\0\\");
    push_checked(bytes, &tag(index));
    push_text(bytes, b"\\$");
    push_checked(bytes, &heading(state as u64 % 3600));
    push_text(bytes, b"\r\n");
}

/// Makes the item of this index of the generated feed (this project's profile), and the state of the next: a heading
/// sentence with a TAG block on transmission group NAVD, received 400 milliseconds after the one before it. The state of
/// the item with index 0 is the seed of the feed.
pub fn trial_item(state: &mut u32, index: u64, into: &mut Item)
    requires { index < 1_000_000 }
    ensures state { state.new ≡ trial_state state.old }
    ensures item { Holds into.new (trial_item (trial_state state.old) index) }
{
    *state = next_state(*state);
    into.group = NAVD;
    into.received = STEP * index;
    into.utc = (START + STEP * index) as i64;
    fill_body(*state, index, &mut into.bytes);
}
