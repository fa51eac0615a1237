// Reading the token of a datagram.
ghost use Rattle.std.specs.Prelude.{◌≡◌, true, false, take};
ghost use Rattle.vdr_terms.specs.Datagrams.{has_token};
ghost use Rattle.vdr_datagram.specs.Tokens.{token};

use crate::tokens::Token;
use vdr_terms::{Verdict, recordable};

// Five letters and NUL stand at the front.
fn has_token(bytes: &[u8]) -> bool
    ensures { result ≡ has_token bytes.now }
{
    bytes.len() >= 6 && matches!(recordable(&bytes[..6]), Verdict::Yes)
}

/// The token of a datagram, by its first six bytes alone.
pub fn token(bytes: &[u8]) -> Token
    ensures { result ≡ token bytes.now }
{
    if bytes.starts_with(b"UdPbC\0") {
        Token::Sentences
    } else if bytes.starts_with(b"RaUdP\0") || bytes.starts_with(b"RrUdP\0") {
        Token::Image
    } else if bytes.starts_with(b"PcmFr\0") {
        Token::Pcm
    } else if has_token(bytes) {
        Token::Other
    } else {
        Token::NoToken
    }
}
