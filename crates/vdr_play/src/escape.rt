// Bytes as printable ASCII characters, the others as `<hh>`.
ghost use Rattle.std.specs.Prelude.{◌≡◌, ◌≤◌, ◌<◌, ◌∷◌, [], IfOk, OnErr, OnOk, length, take, take_while};
ghost use Rattle.std.specs.Io.KnownBytes.{Appends};
ghost use Rattle.vdr_entry.specs.Escape.{escaped, escaped_byte, hex_digit, is_plain};
ghost use Rattle.vdr_outside.specs.Causes.{HasCause};
ghost use Rattle.vdr_outside.specs.Writes.{AppendsFront};

use vdr_outside::{Failed, Sink, write_all};

// A printable ASCII character that begins no escape.
fn is_plain(byte: u8) -> bool
    ensures { result ≡ is_plain byte }
{
    b' ' <= byte && byte <= b'~' && byte != b'<'
}

fn hex_digit(n: u8) -> u8
    requires { n ≤ 15 }
    ensures { result ≡ hex_digit n }
{
    if n <= 9 { b'0' + n } else { b'a' + (n - 10) }
}

// How many bytes at the front stand for themselves.
fn plain_run(bytes: &[u8]) -> usize
    ensures { result ≡ length (take_while is_plain bytes.now) }
{
    bytes.iter().take_while(|byte| is_plain(**byte)).count()
}

// Prints the longest run at the front that stands for itself, or else the first byte, and answers how many bytes these are.
fn print_piece<O: Sink>(bytes: &[u8], out: &mut O) -> Result<usize, Failed>
    requires { 0 < length bytes.now }
    ensures some { IfOk result (λ n. 0 < n) }
    ensures within { IfOk result (λ n. n ≤ length bytes.now) }
    ensures all { IfOk result (λ n. Appends (O.taken out.old) (O.taken out.new) (escaped (take n bytes.now))) }
    ensures front { OnErr result (AppendsFront (O.taken out.old) (O.taken out.new) (escaped bytes.now)) }
    ensures cause { HasCause (O.faults out.old) (O.faults out.new) result }
{
    let run = plain_run(bytes);
    if run > 0 {
        write_all(out, &bytes[..run])?;
        return Ok(run);
    }
    let byte = bytes[0];
    write_all(
        out,
        &[b'<', hex_digit(byte / 16), hex_digit(byte % 16), b'>'],
    )?;
    Ok(1)
}

/// Prints bytes: a printable ASCII character other than `<` as it stands, and any other byte as `<hh>` with two
/// hexadecimal digits in lower case (this project's profile). Where a write fails, a front of this is written.
pub fn print_escaped<O: Sink>(bytes: &[u8], out: &mut O) -> Result<(), Failed>
    ensures all { OnOk result (Appends (O.taken out.old) (O.taken out.new) (escaped bytes.now)) }
    ensures front { AppendsFront (O.taken out.old) (O.taken out.new) (escaped bytes.now) }
    ensures cause { HasCause (O.faults out.old) (O.faults out.new) result }
{
    let mut done = 0;
    while done < bytes.len() {
        done += print_piece(&bytes[done..], out)?;
    }
    Ok(())
}
