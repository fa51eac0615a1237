// A line of a digest.
ghost use Rattle.std.specs.Prelude.{◌≡◌, ◌≤◌, ◌+◌, ◌++◌, List, ℕ, decimal, length};
ghost use Rattle.arrayvec.specs.ArrayVec.{array_vec_len};
ghost use Rattle.hex.specs.Hex.{encode_lower};
ghost use Rattle.sha2.specs.Sha256.{sha256};
ghost use Rattle.vdr_digest.specs.Digests.{digest_line};
ghost use Rattle.vdr_digest.specs.Spans.{span_text};

use crate::span::Span;
use arrayvec::ArrayVec;
use itoa::Buffer;

/// Room for two lines: each has at most 150 bytes.
pub(crate) const ROOM: usize = 300;

/// Text of lines.
pub(crate) type Lines = ArrayVec<u8, ROOM>;

fn push(text: &mut Lines, piece: &[u8])
    requires { array_vec_len text.old + length piece.now ≤ 300 }
    ensures { text.new.items ≡ text.old.items ++ piece.now }
{
    let _ = text.try_extend_from_slice(piece);
}

fn push_number(text: &mut Lines, n: u64)
    requires { array_vec_len text.old + 20 ≤ 300 }
    ensures grown { text.new.items ≡ text.old.items ++ decimal n }
    ensures short { array_vec_len text.new ≤ array_vec_len text.old + 20 }
{
    push(text, Buffer::new().format(n).as_bytes());
}

fn push_span(text: &mut Lines, span: Option<Span>)
    requires { array_vec_len text.old + 62 ≤ 300 }
    ensures grown { text.new.items ≡ text.old.items ++ span_text span }
    ensures short { array_vec_len text.new ≤ array_vec_len text.old + 62 }
{
    let Some(span) = span else {
        push(text, b"- - 0");
        return;
    };
    push_number(text, span.first);
    push(text, b" ");
    push_number(text, span.last);
    push(text, b" ");
    push_number(text, span.count);
}

fn push_digest(text: &mut Lines, digest: &[u8; 32])
    requires { array_vec_len text.old + 64 ≤ 300 }
    ensures grown { text.new.items ≡ text.old.items ++ encode_lower digest.now }
    ensures short { array_vec_len text.new ≡ array_vec_len text.old + 64 }
{
    let mut digits = [0; 64];
    let _ = hex::encode_to_slice(digest.as_slice(), &mut digits);
    push(text, &digits);
}

/// Appends the line of this word, with the digest of a message.
pub(crate) fn push_line(text: &mut Lines, word: &[u8], span: Option<Span>, digest: &[u8; 32])
    requires word { length word.now ≤ 20 }
    requires room { array_vec_len text.old ≤ 150 }
    ensures grown { (message : List ℕ) → digest.now ≡ sha256 message → text.new.items ≡ text.old.items ++ digest_line word.now span message }
    ensures short { array_vec_len text.new ≤ array_vec_len text.old + 149 }
{
    push(text, word);
    push(text, b" ");
    push_span(text, span);
    push(text, b" ");
    push_digest(text, digest);
    push(text, b"\n");
}
