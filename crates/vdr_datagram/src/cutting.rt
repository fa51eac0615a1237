// Cutting the first line off the bytes behind a token.
ghost use Rattle.std.specs.Prelude.{◌≡◌, ◌<◌, ◌≤◌, [], ◌∷◌, length, take, drop, IfSome, IfNone};
ghost use Rattle.vdr_datagram.specs.Lines.{HoldsNoOther, IsClosed, cut};

// How many bytes the first line takes.
fn first_length(bytes: &[u8]) -> usize
    requires { 0 < length bytes.now }
    ensures some { 0 < result }
    ensures within { result ≤ length bytes.now }
    ensures closed { result < length bytes.now → IsClosed (take result bytes.now) }
    ensures alone { HoldsNoOther (take result bytes.now) }
{
    for i in 1..bytes.len() {
        if bytes[i] == b'\n' && bytes[i - 1] == b'\r' {
            return i + 1;
        }
    }
    bytes.len()
}

/// The first line of the bytes. None where there is no byte.
pub(crate) fn first_line(bytes: &[u8]) -> Option<&[u8]>
    ensures some { IfSome result (λ line. 0 < length line.now) }
    ensures within { IfSome result (λ line. length line.now ≤ length bytes.now) }
    ensures cut { IfSome result (λ line. cut bytes.now ≡ line.now ∷ cut (drop (length line.now) bytes.now)) }
    ensures none { IfNone result (cut bytes.now ≡ []) }
{
    if bytes.is_empty() {
        return None;
    }
    Some(&bytes[..first_length(bytes)])
}
