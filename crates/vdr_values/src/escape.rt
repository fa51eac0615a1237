// Bytes as printable ASCII characters, the others as `<hh>`, appended to a text.
ghost use Rattle.std.specs.Prelude.{◌≡◌, ◌≤◌, ◌<◌, ◌+◌, ◌++◌, length};
ghost use Rattle.arrayvec.specs.ArrayVec.{array_vec_len};
ghost use Rattle.vdr_entry.specs.Escape.{escaped, escaped_byte, hex_digit, is_plain};

use crate::text::append;
use arrayvec::ArrayVec;

// A printable ASCII character that begins no escape.
fn is_plain(byte: u8) -> bool
    ensures { result ≡ is_plain byte }
{
    b' ' <= byte && byte <= b'~' && byte != b'<'
}

fn hex_digit(n: u8) -> u8
    requires { n ≤ 15 }
    ensures { result ≡ hex_digit n }
{
    if n <= 9 { b'0' + n } else { b'a' + (n - 10) }
}

fn print_escaped_byte(byte: u8, out: &mut ArrayVec<u8, 512>)
    requires { array_vec_len out.old + length (escaped_byte byte) ≤ 512 }
    ensures { out.new.items ≡ out.old.items ++ escaped_byte byte }
{
    if is_plain(byte) {
        out.push(byte);
        return;
    }
    append(
        out,
        &[b'<', hex_digit(byte / 16), hex_digit(byte % 16), b'>'],
    );
}

/// Appends bytes as they are printed (this project's profile): a printable ASCII character other than `<` as it stands, and any other byte as
/// `<hh>` with two hexadecimal digits in lower case.
pub fn print_escaped(bytes: &[u8], out: &mut ArrayVec<u8, 512>)
    requires { array_vec_len out.old + length (escaped bytes.now) ≤ 512 }
    ensures { out.new.items ≡ out.old.items ++ escaped bytes.now }
{
    for byte in bytes {
        print_escaped_byte(*byte, out);
    }
}
