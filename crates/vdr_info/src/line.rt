// The lines of media.
ghost use Rattle.std.specs.Prelude.{◌≡◌, ◌≤◌, ◌+◌, ◌-◌, ◌++◌, codes, length, slice_get, decimal, OnOk};
ghost use Rattle.arrayvec.specs.ArrayVec.{array_vec_len};
ghost use Rattle.hex.specs.Hex.{encode_lower};
ghost use Rattle.sha2.specs.Sha256.{sha256};
ghost use Rattle.vdr_info.specs.Lines.{closing, config_line, config_text, is_line_end, medium_line, name_of, seconds_between, stamp_text, stand_text};

use crate::{Held, Stand};
use arrayvec::ArrayVec;
use itoa::Buffer;
use sha2::{Digest, Sha256};
use std::alloc::AllocError;
use vdr_entry::write_utc;
use vdr_terms::LAST_STAMP;

// Room for a line: the longest has at most 223 bytes.
const ROOM: usize = 240;

type Line = ArrayVec<u8, ROOM>;

// Appends a text, for which there is room.
fn push_text(line: &mut Line, text: &[u8])
    requires { array_vec_len line.old + length text.now ≤ 240 }
    ensures { line.new.items ≡ line.old.items ++ text.now }
{
    let _ = line.try_extend_from_slice(text);
}

// A text, and a number behind it.
fn push_number(line: &mut Line, front: &[u8], number: u64)
    requires room { array_vec_len line.old + length front.now + 20 ≤ 240 }
    ensures text { line.new.items ≡ line.old.items ++ front.now ++ decimal number }
    ensures short { array_vec_len line.new ≤ array_vec_len line.old + length front.now + 20 }
{
    push_text(line, front);
    push_text(line, Buffer::new().format(number).as_bytes());
}

// A stamp; `-` for a number that is none.
fn push_stamp(line: &mut Line, utc: i64)
    requires room { array_vec_len line.old + 24 ≤ 240 }
    ensures text { line.new.items ≡ line.old.items ++ stamp_text utc }
    ensures short { array_vec_len line.new ≤ array_vec_len line.old + 24 }
{
    if 0 <= utc && utc <= LAST_STAMP {
        let mut text = ArrayVec::new();
        write_utc(utc, &mut text);
        push_text(line, text.as_slice());
    } else {
        push_text(line, b"-");
    }
}

// A text, and where records begin or end behind it.
fn push_stand(line: &mut Line, front: &[u8], stand: Option<Stand>)
    requires room { array_vec_len line.old + length front.now + 45 ≤ 240 }
    ensures text { line.new.items ≡ line.old.items ++ front.now ++ stand_text stand }
    ensures short { array_vec_len line.new ≤ array_vec_len line.old + length front.now + 45 }
{
    let Some(stand) = stand else {
        push_text(line, front);
        push_text(line, b"- -");
        return;
    };
    push_number(line, front, stand.place);
    push_text(line, b" ");
    push_stamp(line, stand.utc);
}

// The name of a medium.
fn name_of(medium: u8) -> &'static [u8]
    ensures name { result.now ≡ name_of medium }
    ensures short { length result.now ≤ 8 }
{
    if medium == 0 { b"capsule" } else { b"longterm" }
}

// The seconds from the first record to the last.
fn seconds_of(held: &Held) -> u64
    ensures { result ≡ seconds_between held.now.first held.now.last }
{
    match (held.first, held.last) {
        (Some(first), Some(last)) => last.second.saturating_sub(first.second),
        (None, _) | (_, None) => 0,
    }
}

/// The line of a medium: `MEDIUM slots N segment N used N first PLACE UTC last PLACE UTC seconds N`.
pub fn medium_line(held: &Held) -> ArrayVec<u8, ROOM>
    ensures { result.items ≡ medium_line held.now }
{
    let mut line = ArrayVec::new();
    push_text(&mut line, name_of(held.medium));
    push_number(&mut line, b" slots ", held.slots as u64);
    push_number(&mut line, b" segment ", held.segment as u64);
    push_number(&mut line, b" used ", held.used);
    push_stand(&mut line, b" first ", held.first);
    push_stand(&mut line, b" last ", held.last);
    push_number(&mut line, b" seconds ", seconds_of(held));
    push_text(&mut line, b"\n");
    line
}

// A space, and the digest of a text.
fn push_digest(line: &mut Line, text: &[u8])
    requires room { array_vec_len line.old + 65 ≤ 240 }
    ensures text { line.new.items ≡ line.old.items ++ codes " " ++ encode_lower (sha256 text.now) }
    ensures short { array_vec_len line.new ≤ array_vec_len line.old + 65 }
{
    let mut digits = [0; 64];
    let _ = hex::encode_to_slice(Sha256::digest(text).as_slice(), &mut digits);
    push_text(line, b" ");
    push_text(line, &digits);
}

// The line of a configuration: `configuration BYTES SHA256`.
fn config_line(text: &[u8]) -> Line
    ensures { result.items ≡ config_line text.now }
{
    let mut line = ArrayVec::new();
    push_number(&mut line, b"configuration ", text.len() as u64);
    push_digest(&mut line, text);
    push_text(&mut line, b"\n");
    line
}

// Whether a text ends with LF.
fn ends_line(text: &[u8]) -> bool
    ensures { result ≡ is_line_end (slice_get text.now (length text.now - 1)) }
{
    match text.last().copied() {
        Some(byte) => byte == b'\n',
        None => false,
    }
}

// What ends the last line of a text: LF where it has none.
fn closing(text: &[u8]) -> &'static [u8]
    ensures { result.now ≡ closing text.now }
{
    if ends_line(text) { b"" } else { b"\n" }
}

/// Appends the line of a configuration, and its text as it stands; LF behind it where it ends with none.
pub fn push_config(into: &mut Vec<u8>, text: &[u8]) -> Result<(), AllocError>
    ensures { OnOk result (into.new.items ≡ into.old.items ++ config_text text.now) }
{
    into.extend_from_slice(config_line(text).as_slice())?;
    into.extend_from_slice(text)?;
    into.extend_from_slice(closing(text))?;
    Ok(())
}
