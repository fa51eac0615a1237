// What findings come to, and their lines.
ghost use Rattle.std.specs.Prelude.{◌≡◌, ◌≤◌, ◌+◌, ◌++◌, length, decimal, OnOk};
ghost use Rattle.std.specs.Io.KnownBytes.{Appends};
ghost use Rattle.arrayvec.specs.ArrayVec.{array_vec_len};
ghost use Rattle.vdr_outside.specs.Causes.{HasCause};
ghost use Rattle.vdr_outside.specs.Writes.{AppendsFront};
ghost use Rattle.vdr_rescue.specs.Findings.{findings_text, found_in, line_of, worse};

use crate::Finding;
use arrayvec::ArrayVec;
use itoa::Buffer;
use vdr_outside::{Failed, Sink, write_all};

/// What findings come to.
#[derive(Clone, Copy, Drop)]
pub enum Found {
    /// Nothing is missing, and nothing is damaged.
    Whole,
    /// Where the first damage is, in bytes of the medium.
    Damaged { offset: u64 },
    /// No damage is told, and this is the first place that is missing.
    Missing { place: u64 },
}

fn worse(found: Found, finding: Finding) -> Found
    ensures { result ≡ worse found finding }
{
    match found {
        Found::Damaged { offset } => Found::Damaged { offset },
        Found::Missing { place } => match finding {
            Finding::Damaged { offset } => Found::Damaged { offset },
            Finding::Missing { .. } | Finding::Closed { .. } => Found::Missing { place },
        },
        Found::Whole => match finding {
            Finding::Damaged { offset } => Found::Damaged { offset },
            Finding::Missing { a, .. } => Found::Missing { place: a },
            Finding::Closed { .. } => Found::Whole,
        },
    }
}

/// What these findings come to: the first damage, else the first place that is missing.
pub fn found_of(findings: &[Finding]) -> Found
    ensures { result ≡ found_in findings.now }
{
    findings
        .iter()
        .fold(Found::Whole, |found, finding| worse(found, *finding))
}

// The longest line has 50 bytes.
const ROOM: usize = 64;

fn push(line: &mut ArrayVec<u8, ROOM>, text: &[u8])
    requires { array_vec_len line.old + length text.now ≤ 64 }
    ensures { line.new.items ≡ line.old.items ++ text.now }
{
    for byte in text {
        line.push(*byte);
    }
}

// The line of a finding.
fn line_of(finding: Finding) -> ArrayVec<u8, ROOM>
    ensures { result.items ≡ line_of finding }
{
    let mut line = ArrayVec::new();
    match finding {
        Finding::Missing { a, b } => {
            push(&mut line, b"missing ");
            push(&mut line, Buffer::new().format(a).as_bytes());
            push(&mut line, b" ");
            push(&mut line, Buffer::new().format(b).as_bytes());
        }
        Finding::Damaged { offset } => {
            push(&mut line, b"damaged ");
            push(&mut line, Buffer::new().format(offset).as_bytes());
        }
        Finding::Closed { offset } => {
            push(&mut line, b"closed ");
            push(&mut line, Buffer::new().format(offset).as_bytes());
        }
    }
    push(&mut line, b"\n");
    line
}

fn print_line<O: Sink>(finding: Finding, out: &mut O) -> Result<(), Failed>
    ensures all { OnOk result (Appends (O.taken out.old) (O.taken out.new) (line_of finding)) }
    ensures front { AppendsFront (O.taken out.old) (O.taken out.new) (line_of finding) }
    ensures cause { HasCause (O.faults out.old) (O.faults out.new) result }
{
    write_all(out, line_of(finding).as_slice())
}

/// Prints a line for each finding: `missing A B`, places A to B, both included; `damaged OFFSET` and `closed OFFSET`, in bytes of
/// the medium. `Failed`: the output failed, and its count of faults rose.
pub fn print_findings<O: Sink>(findings: &[Finding], out: &mut O) -> Result<(), Failed>
    ensures all { OnOk result (Appends (O.taken out.old) (O.taken out.new) (findings_text findings.now)) }
    ensures front { AppendsFront (O.taken out.old) (O.taken out.new) (findings_text findings.now) }
    ensures cause { HasCause (O.faults out.old) (O.faults out.new) result }
{
    for finding in findings {
        print_line(*finding, out)?;
    }
    Ok(())
}
