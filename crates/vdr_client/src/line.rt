// The line that an operator's words ask for.
ghost use Rattle.std.specs.Prelude.{◌≡◌, ◌∷◌, ◌++◌, IfOk, OnOk, string_bytes};
ghost use Rattle.std.specs.List.{flat_map};
ghost use Rattle.vdr_client.specs.Orders.{line_of as line_told, spaced};

use std::alloc::{AllocError, Global};

// Appends a word with the space before it.
fn push_word(line: &mut String, word: &str) -> Result<(), AllocError>
    ensures { OnOk result (string_bytes line.new ≡ string_bytes line.old ++ 32 ∷ word.now) }
{
    line.push_str(" ")?;
    line.push_str(word)
}

// Appends each word with the space before it.
fn push_words(line: &mut String, words: &[String]) -> Result<(), AllocError>
    ensures { OnOk result (string_bytes line.new ≡ string_bytes line.old ++ flat_map spaced words.now) }
{
    for word in words {
        push_word(line, word.as_str())?;
    }
    Ok(())
}

/// The line that the words ask for, without its end: the words with one space between two of them, the first one in capitals.
pub fn line_of(alloc: Global, words: &[String]) -> Result<String, AllocError>
    ensures { IfOk result (λ line. string_bytes line ≡ line_told words.now) }
{
    let [first, rest @ ..] = words else {
        return Ok(String::new(alloc));
    };
    let mut line = first.as_str().to_string(alloc)?;
    line.make_ascii_uppercase();
    push_words(&mut line, rest)?;
    Ok(line)
}
