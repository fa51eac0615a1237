// A field in quotes (RFC 4180).
ghost use Rattle.std.specs.Prelude.{◌≡◌, ◌==◌, ◌∷◌, ◌++◌, [], OnOk};
ghost use Rattle.std.specs.List.{list_any};
ghost use Rattle.std.specs.Io.KnownBytes.{Appends};
ghost use Rattle.vdr_outside.specs.Causes.{HasCause};
ghost use Rattle.vdr_outside.specs.Writes.{AppendsFront};
ghost use Rattle.vdr_rows.specs.Texts.{doubled, doubled_byte, quoted};

use vdr_outside::{Failed, Sink, write_all};

fn print_byte<O: Sink>(byte: u8, out: &mut O) -> Result<(), Failed>
    ensures all { OnOk result (Appends (O.taken out.old) (O.taken out.new) (doubled_byte byte)) }
    ensures front { AppendsFront (O.taken out.old) (O.taken out.new) (doubled_byte byte) }
    ensures cause { HasCause (O.faults out.old) (O.faults out.new) result }
{
    if byte == b'"' {
        write_all(out, b"\"\"")
    } else {
        write_all(out, &[byte])
    }
}

fn print_each<O: Sink>(text: &[u8], out: &mut O) -> Result<(), Failed>
    ensures all { OnOk result (Appends (O.taken out.old) (O.taken out.new) (doubled text.now)) }
    ensures front { AppendsFront (O.taken out.old) (O.taken out.new) (doubled text.now) }
    ensures cause { HasCause (O.faults out.old) (O.faults out.new) result }
{
    for byte in text {
        print_byte(*byte, out)?;
    }
    Ok(())
}

fn has_quote(text: &[u8]) -> bool
    ensures { result ≡ list_any (λ b. b == 34) text.now }
{
    text.contains(&b'"')
}

fn print_doubled<O: Sink>(text: &[u8], out: &mut O) -> Result<(), Failed>
    ensures all { OnOk result (Appends (O.taken out.old) (O.taken out.new) (doubled text.now)) }
    ensures front { AppendsFront (O.taken out.old) (O.taken out.new) (doubled text.now) }
    ensures cause { HasCause (O.faults out.old) (O.faults out.new) result }
{
    if has_quote(text) {
        return print_each(text, out);
    }
    write_all(out, text)
}

// Prints a text that is not empty in quotes.
fn print_some<O: Sink>(text: &[u8], out: &mut O) -> Result<(), Failed>
    ensures all { OnOk result (Appends (O.taken out.old) (O.taken out.new) (34 ∷ (doubled text.now ++ 34 ∷ []))) }
    ensures front { AppendsFront (O.taken out.old) (O.taken out.new) (34 ∷ (doubled text.now ++ 34 ∷ [])) }
    ensures cause { HasCause (O.faults out.old) (O.faults out.new) result }
{
    write_all(out, b"\"")?;
    print_doubled(text, out)?;
    write_all(out, b"\"")
}

/// Prints a field in quotes, in which a quote stands twice; nothing where it is empty.
pub(crate) fn print_quoted<O: Sink>(text: &[u8], out: &mut O) -> Result<(), Failed>
    ensures all { OnOk result (Appends (O.taken out.old) (O.taken out.new) (quoted text.now)) }
    ensures front { AppendsFront (O.taken out.old) (O.taken out.new) (quoted text.now) }
    ensures cause { HasCause (O.faults out.old) (O.faults out.new) result }
{
    match text {
        [] => Ok(()),
        _ => print_some(text, out),
    }
}
