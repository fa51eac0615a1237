// The lines of bytes.
ghost use Rattle.std.specs.Prelude.{◌≡◌, ◌≤◌, ◌<◌, ◌+◌, ◌++◌, length, OnOk};
ghost use Rattle.std.specs.Io.KnownBytes.{Appends};
ghost use Rattle.arrayvec.specs.ArrayVec.{array_vec_len};
ghost use Rattle.vdr_outside.specs.Causes.{HasCause};
ghost use Rattle.vdr_outside.specs.Writes.{AppendsFront};
ghost use Rattle.vdr_base64.specs.Lines.{last_line, line_of, lines_of, whole_lines};

use arrayvec::ArrayVec;
use base64::engine::general_purpose::STANDARD;
use vdr_outside::{Failed, Sink, write_all};

/// How many bytes a line has, but for the last one: the most below 4,097 that base64 spells without padding.
pub(crate) const PIECE: usize = 4_095;

/// Room for the base64 of a piece, in bytes.
const SYMBOLS: usize = 5_460;

/// Room for the line of a piece, in bytes.
const ROOM: usize = 5_462;

type Line = ArrayVec<u8, ROOM>;

// Appends bytes for which there is room.
fn push(line: &mut Line, bytes: &[u8])
    requires { array_vec_len line.old + length bytes.now ≤ 5_462 }
    ensures { line.new.items ≡ line.old.items ++ bytes.now }
{
    let _ = line.try_extend_from_slice(bytes);
}

// The line of a piece.
fn line_of(piece: &[u8]) -> Line
    requires { length piece.now ≤ 4_095 }
    ensures { result.items ≡ line_of piece.now }
{
    let mut symbols = [0; SYMBOLS];
    let size = STANDARD.encode_slice(piece, &mut symbols).unwrap();
    let mut line = ArrayVec::new();
    push(&mut line, b"+");
    push(&mut line, &symbols[..size]);
    push(&mut line, b"\n");
    line
}

// Prints the line of a piece.
fn print_line<O: Sink>(piece: &[u8], out: &mut O) -> Result<(), Failed>
    requires { length piece.now ≤ 4_095 }
    ensures all { OnOk result (Appends (O.taken out.old) (O.taken out.new) (line_of piece.now)) }
    ensures front { AppendsFront (O.taken out.old) (O.taken out.new) (line_of piece.now) }
    ensures cause { HasCause (O.faults out.old) (O.faults out.new) result }
{
    let line = line_of(piece);
    write_all(out, line.as_slice())
}

/// Prints the lines of the pieces that are whole.
pub(crate) fn print_whole<O: Sink>(bytes: &[u8], out: &mut O) -> Result<(), Failed>
    ensures all { OnOk result (Appends (O.taken out.old) (O.taken out.new) (whole_lines bytes.now)) }
    ensures front { AppendsFront (O.taken out.old) (O.taken out.new) (whole_lines bytes.now) }
    ensures cause { HasCause (O.faults out.old) (O.faults out.new) result }
{
    let mut rest = bytes;
    while rest.len() >= PIECE {
        let (piece, behind) = rest.split_at(PIECE);
        print_line(piece, out)?;
        rest = behind;
    }
    Ok(())
}

// Prints the line of what is behind the last piece that is whole, none where nothing is.
fn print_last<O: Sink>(rest: &[u8], out: &mut O) -> Result<(), Failed>
    requires { length rest.now < 4_095 }
    ensures all { OnOk result (Appends (O.taken out.old) (O.taken out.new) (last_line rest.now)) }
    ensures front { AppendsFront (O.taken out.old) (O.taken out.new) (last_line rest.now) }
    ensures cause { HasCause (O.faults out.old) (O.faults out.new) result }
{
    if rest.is_empty() {
        return Ok(());
    }
    print_line(rest, out)
}

/// Prints bytes as lines of base64: each of 4,095 bytes, and the last one of what is left. Where the output fails, a front of the lines stands in it.
pub fn print_lines<O: Sink>(bytes: &[u8], out: &mut O) -> Result<(), Failed>
    ensures all { OnOk result (Appends (O.taken out.old) (O.taken out.new) (lines_of bytes.now)) }
    ensures front { AppendsFront (O.taken out.old) (O.taken out.new) (lines_of bytes.now) }
    ensures cause { HasCause (O.faults out.old) (O.faults out.new) result }
{
    print_whole(bytes, out)?;
    let (_, rest) = bytes.split_at(bytes.len() / PIECE * PIECE);
    print_last(rest, out)
}
