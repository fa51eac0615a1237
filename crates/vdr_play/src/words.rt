// Words of a line, with a space before each.
ghost use Rattle.std.specs.Prelude.{◌≡◌, ◌∷◌, OnOk, map};
ghost use Rattle.std.specs.Io.KnownBytes.{Appends};
ghost use Rattle.vdr_entry.specs.Lines.{spaced};
ghost use Rattle.vdr_outside.specs.Causes.{HasCause};
ghost use Rattle.vdr_outside.specs.Writes.{AppendsFront};

use vdr_outside::{Failed, Sink, write_all};

// Prints a space and the word.
fn print_word<O: Sink>(word: &[u8], out: &mut O) -> Result<(), Failed>
    ensures all { OnOk result (Appends (O.taken out.old) (O.taken out.new) (32 ∷ word.now)) }
    ensures front { AppendsFront (O.taken out.old) (O.taken out.new) (32 ∷ word.now) }
    ensures cause { HasCause (O.faults out.old) (O.faults out.new) result }
{
    write_all(out, b" ")?;
    write_all(out, word)
}

/// Prints the words with a space before each.
pub(crate) fn print_words<O: Sink>(words: &[&[u8]], out: &mut O) -> Result<(), Failed>
    ensures all { OnOk result (Appends (O.taken out.old) (O.taken out.new) (spaced (map (λ word. word.now) words.now))) }
    ensures front { AppendsFront (O.taken out.old) (O.taken out.new) (spaced (map (λ word. word.now) words.now)) }
    ensures cause { HasCause (O.faults out.old) (O.faults out.new) result }
{
    for word in words {
        print_word(word, out)?;
    }
    Ok(())
}
