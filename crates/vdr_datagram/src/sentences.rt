// The lines of a sentence datagram, from its token on.
ghost use Rattle.std.specs.Prelude.{◌≡◌, ◌≤◌, length};
ghost use Rattle.vdr_datagram.specs.Verdicts.{line_spans};
ghost use Rattle.vdr_datagram.specs.Views.{lines_left};

use crate::front::token;
use crate::line_iterator::Lines;
use crate::tokens::Token;

/// The lines of a sentence datagram, in order, each with what it reads as. They are the bytes behind the token, cut behind each CR LF:
/// each ends with CR LF but the last, which may lack it. Other datagrams have no line.
pub fn lines(bytes: &[u8]) -> Lines<'_>
    ensures { lines_left result ≡ line_spans bytes.now }
{
    match token(bytes) {
        Token::Sentences => Lines::from(bytes, 6),
        _ => Lines::from(bytes, bytes.len()),
    }
}
