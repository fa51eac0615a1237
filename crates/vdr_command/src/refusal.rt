// How the refusal of a configuration, and that of a channel, is told.
ghost use Rattle.std.specs.Prelude.{◌≡◌, ◌≤◌, ◌++◌, codes, decimal, OnOk};
ghost use Rattle.std.specs.Io.KnownBytes.{Appends};
ghost use Rattle.vdr_outside.specs.Causes.{HasCause};
ghost use Rattle.vdr_outside.specs.Writes.{AppendsFront};
ghost use Rattle.vdr_command.specs.Refusals.{number_of, key_of, refusal_line};
ghost use Rattle.vdr_command.specs.StatusLine.{channel_line, escaped_line, Wrote};

use crate::reports::{ROOM, push_text};
use arrayvec::ArrayVec;
use itoa::Buffer;
use vdr_config::ConfigBad;
use vdr_outside::{Failed, Sink, write_all};
use vdr_play::print_escaped;

/// The number of the refusal.
pub fn number_of(bad: &ConfigBad) -> u8
    ensures { result ≡ number_of bad.now }
{
    match bad {
        ConfigBad::NoMemory => 0,
        ConfigBad::Json => 1,
        ConfigBad::MissingKey(_) => 2,
        ConfigBad::UnknownKey(_) => 3,
        ConfigBad::Range(_) => 4,
        ConfigBad::Repeated(_) => 5,
        ConfigBad::ShortWindow(_) => 6,
        ConfigBad::SmallSegment(_) => 7,
        ConfigBad::TooLong => 8,
    }
}

// The path of the key that is refused, `-` where the whole text is.
fn key_of(bad: &ConfigBad) -> &[u8]
    ensures { result.now ≡ key_of bad.now }
{
    match bad {
        ConfigBad::NoMemory | ConfigBad::Json | ConfigBad::TooLong => b"-",
        ConfigBad::MissingKey(path)
        | ConfigBad::UnknownKey(path)
        | ConfigBad::Range(path)
        | ConfigBad::Repeated(path)
        | ConfigBad::ShortWindow(path)
        | ConfigBad::SmallSegment(path) => path.text.as_bytes(),
    }
}

// The line up to the key.
fn front_of(number: u8) -> ArrayVec<u8, ROOM>
    ensures { result.items ≡ codes "status 3 config " ++ decimal number ++ codes " " }
{
    let mut front = ArrayVec::new();
    push_text(&mut front, b"status 3 config ");
    push_text(&mut front, Buffer::new().format(number).as_bytes());
    push_text(&mut front, b" ");
    front
}

// A front of a line, a text by its escape, and the end of the line.
fn print_line<O: Sink>(front: &[u8], text: &[u8], out: &mut O) -> Result<(), Failed>
    ensures all { OnOk result (Appends (O.taken out.old) (O.taken out.new) (escaped_line front.now text.now)) }
    ensures front { AppendsFront (O.taken out.old) (O.taken out.new) (escaped_line front.now text.now) }
    ensures cause { HasCause (O.faults out.old) (O.faults out.new) result }
{
    write_all(out, front)?;
    print_escaped(text, out)?;
    write_all(out, b"\n")
}

fn print_refusal<O: Sink>(bad: &ConfigBad, out: &mut O) -> Result<(), Failed>
    ensures all { OnOk result (Appends (O.taken out.old) (O.taken out.new) (refusal_line bad.now)) }
    ensures front { AppendsFront (O.taken out.old) (O.taken out.new) (refusal_line bad.now) }
    ensures cause { HasCause (O.faults out.old) (O.faults out.new) result }
{
    print_line(front_of(number_of(bad)).as_slice(), key_of(bad), out)
}

/// Writes the status line of a refusal.
pub fn report_refusal<O: Sink>(bad: &ConfigBad, output: &mut O)
    ensures { Wrote (refusal_line bad.now) (O.taken output.old) (O.taken output.new) (O.faults output.old) (O.faults output.new) }
{
    let _ = print_refusal(bad, output);
}

/// Writes the status line of a channel that is not configured.
pub fn report_channel<O: Sink>(name: &[u8], output: &mut O)
    ensures { Wrote (channel_line name.now) (O.taken output.old) (O.taken output.new) (O.faults output.old) (O.faults output.new) }
{
    let _ = print_line(b"status 11 channel ", name, output);
}
