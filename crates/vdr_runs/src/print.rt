// The lines of a run.
ghost use Rattle.std.specs.Prelude.{◌≡◌, ◌≤◌, ◌+◌, ◌++◌, codes, length, OnOk, IfSome, decimal};
ghost use Rattle.std.specs.Io.KnownBytes.{Appends};
ghost use Rattle.arrayvec.specs.ArrayVec.{array_vec_len};
ghost use Rattle.vdr_terms.specs.Stamps.{IsStamp};
ghost use Rattle.vdr_outside.specs.Causes.{HasCause};
ghost use Rattle.vdr_outside.specs.Writes.{AppendsFront};
ghost use Rattle.vdr_runs.specs.Runs.{missed_line, run_line, run_text, stamp_text};

use crate::run::Run;
use arrayvec::ArrayVec;
use itoa::Buffer;
use vdr_entry::write_utc;
use vdr_outside::{Failed, Sink, write_all};
use vdr_terms::Counts;

/// Room for both lines: seven numbers of 20 bytes, two stamps of 24, a state of 6, and 38 bytes between them.
const ROOM: usize = 226;

type Line = ArrayVec<u8, ROOM>;

// Appends a text, for which there is room.
fn push_text(line: &mut Line, text: &[u8])
    requires { array_vec_len line.old + length text.now ≤ 226 }
    ensures { line.new.items ≡ line.old.items ++ text.now }
{
    for byte in text {
        line.push(*byte);
    }
}

// A number and the byte behind it.
fn push_number(line: &mut Line, number: u64, behind: &[u8])
    requires room { array_vec_len line.old + length behind.now + 20 ≤ 226 }
    ensures text { line.new.items ≡ line.old.items ++ decimal number ++ behind.now }
    ensures short { array_vec_len line.new ≤ array_vec_len line.old + length behind.now + 20 }
{
    push_text(line, Buffer::new().format(number).as_bytes());
    push_text(line, behind);
}

// A stamp, or `-`, and the space behind it.
fn push_stamp(line: &mut Line, stamp: Option<i64>)
    requires stamp { IfSome stamp (λ utc. IsStamp utc) }
    requires room { array_vec_len line.old + 25 ≤ 226 }
    ensures text { line.new.items ≡ line.old.items ++ stamp_text stamp ++ codes " " }
    ensures short { array_vec_len line.new ≤ array_vec_len line.old + 25 }
{
    let mut text = ArrayVec::new();
    match stamp {
        Some(utc) => {
            write_utc(utc, &mut text);
        }
        None => text.push(b'-'),
    }
    push_text(line, text.as_slice());
    push_text(line, b" ");
}

// A B FROM TO STATE TICK
fn run_line(run: &Run, state: &[u8]) -> Line
    requires { length state.now ≤ 6 }
    ensures text { result.items ≡ run_line run.now state.now }
    ensures short { array_vec_len result ≤ 120 }
{
    let mut line = ArrayVec::new();
    push_number(&mut line, run.first, b" ");
    push_number(&mut line, run.last, b" ");
    push_stamp(&mut line, run.since);
    push_stamp(&mut line, run.until);
    push_text(&mut line, state);
    push_text(&mut line, b" ");
    push_number(&mut line, run.tick, b"\n");
    line
}

// What was missed, by cause.
fn missed_line(missed: Counts) -> Line
    ensures text { result.items ≡ missed_line missed }
    ensures short { array_vec_len result ≤ 106 }
{
    let mut line = ArrayVec::new();
    push_text(&mut line, b"  full ");
    push_number(&mut line, missed.full, b" rate ");
    push_number(&mut line, missed.rate, b" bad ");
    push_number(&mut line, missed.bad, b" large ");
    push_number(&mut line, missed.large, b"\n");
    line
}

// Both lines of a run.
fn run_text(run: &Run, state: &[u8]) -> Line
    requires { length state.now ≤ 6 }
    ensures { result.items ≡ run_text state.now run.now }
{
    let mut text = run_line(run, state);
    push_text(&mut text, missed_line(run.missed).as_slice());
    text
}

/// Prints a run and how it ended, and below it what it missed.
pub(crate) fn print_run<O: Sink>(run: &Run, state: &[u8], out: &mut O) -> Result<(), Failed>
    requires { length state.now ≤ 6 }
    ensures all { OnOk result (Appends (O.taken out.old) (O.taken out.new) (run_text state.now run.now)) }
    ensures front { AppendsFront (O.taken out.old) (O.taken out.new) (run_text state.now run.now) }
    ensures cause { HasCause (O.faults out.old) (O.faults out.new) result }
{
    write_all(out, run_text(run, state).as_slice())
}
