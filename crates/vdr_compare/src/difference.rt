// Where two media differ, and the lines of it.
ghost use Rattle.std.specs.Prelude.{◌≡◌, ◌≤◌, ◌+◌, ◌++◌, length, OnOk};
ghost use Rattle.std.specs.Io.KnownBytes.{Appends};
ghost use Rattle.arrayvec.specs.ArrayVec.{array_vec_len};
ghost use Rattle.vdr_outside.specs.Causes.{HasCause};
ghost use Rattle.vdr_outside.specs.Writes.{AppendsFront};
ghost use Rattle.vdr_compare.specs.Differences.{goes_on, line_of, medium_name, same_line, verdict_with, with_next};

use arrayvec::ArrayVec;
use itoa::Buffer;
use vdr_outside::{Failed, Sink, write_all};
use vdr_rescue::Places;

/// What is said of places of two media.
#[derive(Clone, Copy, Drop)]
pub enum Difference {
    /// A record stands at this place of both, with different bytes.
    Differs { place: u64 },
    /// This medium lacks the places from `a` to `b`, both included, which stand on the other one: 0 is the capsule, 1 the long-term
    /// medium.
    Lacks { medium: u8, a: u64, b: u64 },
}

/// What a comparison comes to: its first line but the last.
#[derive(Clone, Copy, Drop)]
pub enum Verdict {
    /// There is none.
    Same,
    /// The texts of the configurations differ.
    Configuration,
    /// They are the same, and this medium is damaged at this offset, in bytes: 0 is the capsule, 1 the long-term medium.
    Damaged { medium: u8, offset: u64 },
    /// Records differ at this place.
    Differs { place: u64 },
    /// A medium lacks this place.
    Lacks { place: u64 },
}

impl Difference {
    /// Whether the next one goes on where this one ends.
    pub(crate) fn goes_on(self, next: Difference) -> bool
        ensures { result ≡ goes_on self next }
    {
        match self {
            Difference::Differs { .. } => false,
            Difference::Lacks { medium, b, .. } => match next {
                Difference::Differs { .. } => false,
                Difference::Lacks {
                    medium: other,
                    a,
                    ..
                } => medium == other && b < a && a - 1 == b,
            },
        }
    }

    /// Both as one run of places.
    pub(crate) fn with_next(self, next: Difference) -> Difference
        ensures { result ≡ with_next self next }
    {
        match self {
            Difference::Differs { .. } => next,
            Difference::Lacks { medium, a, b } => match next {
                Difference::Differs { .. } => Difference::Lacks { medium, a, b },
                Difference::Lacks { b: end, .. } => Difference::Lacks { medium, a, b: end },
            },
        }
    }
}

impl Verdict {
    /// With one difference more behind those so far.
    pub(crate) fn with(self, difference: Difference) -> Verdict
        ensures { result ≡ verdict_with self difference }
    {
        match self {
            Verdict::Same => match difference {
                Difference::Differs { place } => Verdict::Differs { place },
                Difference::Lacks { a, .. } => Verdict::Lacks { place: a },
            },
            Verdict::Configuration => Verdict::Configuration,
            Verdict::Damaged { medium, offset } => Verdict::Damaged { medium, offset },
            Verdict::Differs { place } => Verdict::Differs { place },
            Verdict::Lacks { place } => Verdict::Lacks { place },
        }
    }
}

// The longest line has 57 bytes.
const ROOM: usize = 64;

pub(crate) type Line = ArrayVec<u8, ROOM>;

pub(crate) fn push(line: &mut Line, text: &[u8])
    requires { array_vec_len line.old + length text.now ≤ 64 }
    ensures { line.new.items ≡ line.old.items ++ text.now }
{
    for byte in text {
        line.push(*byte);
    }
}

// The name of a medium: 0 is the capsule.
pub(crate) fn name_of(medium: u8) -> &'static [u8]
    ensures name { result.now ≡ medium_name medium }
    ensures short { length result.now ≤ 8 }
{
    if medium == 0 { b"capsule" } else { b"longterm" }
}

// The line of a difference.
fn line_of(difference: Difference) -> Line
    ensures { result.items ≡ line_of difference }
{
    let mut line = ArrayVec::new();
    match difference {
        Difference::Differs { place } => {
            push(&mut line, b"differs ");
            push(&mut line, Buffer::new().format(place).as_bytes());
        }
        Difference::Lacks { medium, a, b } => {
            push(&mut line, b"lacks ");
            push(&mut line, name_of(medium));
            push(&mut line, b" ");
            push(&mut line, Buffer::new().format(a).as_bytes());
            push(&mut line, b" ");
            push(&mut line, Buffer::new().format(b).as_bytes());
        }
    }
    push(&mut line, b"\n");
    line
}

// The last line: between which places records are the same.
fn same_line(span: Option<Places>) -> Line
    ensures { result.items ≡ same_line span }
{
    let mut line = ArrayVec::new();
    match span {
        Some(span) => {
            push(&mut line, b"same ");
            push(&mut line, Buffer::new().format(span.a).as_bytes());
            push(&mut line, b" ");
            push(&mut line, Buffer::new().format(span.b).as_bytes());
            push(&mut line, b"\n");
        }
        None => push(&mut line, b"same - -\n"),
    }
    line
}

/// Prints the line of a difference. Where a write fails a front of it is written.
pub(crate) fn print_difference<O: Sink>(difference: Difference, out: &mut O) -> Result<(), Failed>
    ensures all { OnOk result (Appends (O.taken out.old) (O.taken out.new) (line_of difference)) }
    ensures front { AppendsFront (O.taken out.old) (O.taken out.new) (line_of difference) }
    ensures cause { HasCause (O.faults out.old) (O.faults out.new) result }
{
    write_all(out, line_of(difference).as_slice())
}

/// Prints the last line.
pub(crate) fn print_same<O: Sink>(span: Option<Places>, out: &mut O) -> Result<(), Failed>
    ensures all { OnOk result (Appends (O.taken out.old) (O.taken out.new) (same_line span)) }
    ensures front { AppendsFront (O.taken out.old) (O.taken out.new) (same_line span) }
    ensures cause { HasCause (O.faults out.old) (O.faults out.new) result }
{
    write_all(out, same_line(span).as_slice())
}
