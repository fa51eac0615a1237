// Which datagrams can be recorded, by their length and their token.
ghost use Rattle.std.specs.Prelude.{◌≡◌};
ghost use Rattle.vdr_terms.specs.Datagrams.{has_token, is_letter, verdict};

/// The greatest length of a recordable datagram in bytes: a UDP payload in one Ethernet frame (IEC 61162-450).
const LARGEST: usize = 1472;

/// Whether a datagram can be recorded.
#[derive(Clone, Copy, Drop)]
pub enum Verdict {
    /// It begins with a token and has at most 1,472 bytes.
    Yes,
    /// It begins with no token.
    Bad,
    /// It has more than 1,472 bytes.
    Large,
}

fn is_letter(byte: u8) -> bool
    ensures { result ≡ is_letter byte }
{
    (byte >= b'A' && byte <= b'Z') || (byte >= b'a' && byte <= b'z')
}

// The datagram token of IEC 61162-450: five letters and NUL.
fn has_token(bytes: &[u8]) -> bool
    ensures { result ≡ has_token bytes.now }
{
    match bytes {
        [a, b, c, d, e, nul, ..] => {
            is_letter(*a)
                && is_letter(*b)
                && is_letter(*c)
                && is_letter(*d)
                && is_letter(*e)
                && *nul == 0
        }
        _ => false,
    }
}

/// The verdict on a datagram, by its length and its first six bytes alone: `Large` above 1,472 bytes, else `Bad` where
/// it does not begin with a token (five ASCII letters and NUL, IEC 61162-450), else `Yes`.
pub fn recordable(bytes: &[u8]) -> Verdict
    ensures { result ≡ verdict bytes.now }
{
    if bytes.len() > LARGEST {
        Verdict::Large
    } else if has_token(bytes) {
        Verdict::Yes
    } else {
        Verdict::Bad
    }
}
