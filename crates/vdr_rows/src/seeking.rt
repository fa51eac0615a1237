// Formatters that are looked for in the bytes of a datagram, and in the address of a line.
ghost use Rattle.std.specs.Prelude.{◌≡◌, drop};
ghost use Rattle.vdr_ais.specs.Lines.{carries};
ghost use Rattle.vdr_datagram.specs.Views.{verdict_of};
ghost use Rattle.vdr_rows.specs.Seeking.{is_carrier, is_sought, mentions};

use vdr_datagram::LineVerdict;

/// An AIS message of another ship, and one of the own ship.
const OTHER: &[u8] = b"VDM";

const OWN: &[u8] = b"VDO";

/// What is looked for.
#[derive(Clone, Copy, Drop)]
pub(crate) enum Sought {
    /// Parts of AIS messages.
    Parts,
    /// Positions.
    Position,
}

// The bytes are compared without a branch, so that many are looked at at once.
#[inline]
fn is_sought(sought: Sought, first: u8, second: u8, third: u8) -> bool
    ensures { result ≡ is_sought sought first second third }
{
    match sought {
        Sought::Parts => (first == b'V') & (second == b'D') & ((third == b'M') | (third == b'O')),
        Sought::Position => {
            (first == b'G') & (second == b'G') & (third == b'A')
                | (first == b'G') & (second == b'L') & (third == b'L')
                | (first == b'G') & (second == b'N') & (third == b'S')
                | (first == b'R') & (second == b'M') & (third == b'C')
        }
    }
}

/// Whether a formatter that is looked for stands in the bytes of a datagram, in an address or not.
#[inline]
pub(crate) fn mentions(sought: Sought, text: &[u8]) -> bool
    ensures { result ≡ mentions sought text.now }
{
    let mut found = false;
    for at in 0..text.len().saturating_sub(2) {
        found |= is_sought(sought, text[at], text[at + 1], text[at + 2]);
    }
    found
}

fn carries(address: &[u8]) -> bool
    ensures { result ≡ carries (drop 2 address.now) }
{
    let formatter = &address[address.len().min(2)..];
    formatter == OTHER || formatter == OWN
}

/// Whether a line may carry a part of an AIS message, by its address alone.
pub(crate) fn is_carrier(verdict: &LineVerdict<'_>) -> bool
    ensures { result ≡ is_carrier (verdict_of verdict.now) }
{
    match verdict {
        LineVerdict::Good { sentence, .. } => carries(sentence.address),
        LineVerdict::Tag(_) | LineVerdict::Sentence { .. } => false,
    }
}
