// The words that ask for a reading of a stored file: `from`, and those of a command without its medium.
//
// There is one table from words to readings, that of the commands: the word of a medium is put where it stands in theirs. Which
// medium that is says nothing, since a file has the records of one.
ghost use Rattle.std.specs.Prelude.{◌≡◌, ◌∷◌, ℕ, List, Some, IfSome, codes, true, false, map, option_map, string_bytes};
ghost use Rattle.vdr_readout.specs.Readings.{Reading as AReading, plain_reading};
ghost use Rattle.vdr_from.specs.Words.{SpellsBehind, SpellsFrom};

use vdr_readout::Reading;
use vdr_tool::{of_block, of_channel, of_medium, of_ships, of_time_line};

// The medium that stands in the place of that of the file.
const MEDIUM: &str = "longterm";

fn is_word(word: &str) -> bool
    ensures is { result ≡ true → word.now ≡ codes "from" }
    ensures no { result ≡ false → word.now ≡ codes "from" → ⊥ }
{
    word == "from"
}

/// Whether the words begin with `from`.
pub fn is_from(words: &[String]) -> bool
    ensures asks { result ≡ true → (rest : List (List ℕ)) × (map string_bytes words.now ≡ codes "from" ∷ rest) }
    ensures others { result ≡ false → (rest : List (List ℕ)) → map string_bytes words.now ≡ codes "from" ∷ rest → ⊥ }
{
    match words.split_first() {
        Some((word, _)) => is_word(word.as_str()),
        None => false,
    }
}

// What the words behind `from` ask to be read out.
fn reading_behind(words: &[String]) -> Option<Reading<'_>>
    ensures found { (reading : AReading) → SpellsBehind (map string_bytes words.now) reading → option_map plain_reading result ≡ Some reading }
    ensures only { IfSome result (λ reading. SpellsBehind (map string_bytes words.now) (plain_reading reading)) }
{
    match words {
        [word] => of_medium(word.as_str(), MEDIUM),
        [word, at] => of_ships(word.as_str(), MEDIUM, at.as_str()),
        [word, channel, from, to] => of_channel(
            word.as_str(),
            MEDIUM,
            channel.as_str(),
            from.as_str(),
            to.as_str(),
        ),
        [word, channel, from, to, last] => of_time_line(
            word.as_str(),
            MEDIUM,
            channel.as_str(),
            from.as_str(),
            to.as_str(),
            last.as_str(),
        ),
        [word, channel, source, number, from, to] => of_block(
            word.as_str(),
            MEDIUM,
            channel.as_str(),
            source.as_str(),
            number.as_str(),
            from.as_str(),
            to.as_str(),
        ),
        _ => None,
    }
}

/// What the words ask to be read out of a stored file, None where they ask for nothing of the kind.
pub(crate) fn reading_from(words: &[String]) -> Option<Reading<'_>>
    ensures found { (reading : AReading) → SpellsFrom (map string_bytes words.now) reading → option_map plain_reading result ≡ Some reading }
    ensures only { IfSome result (λ reading. SpellsFrom (map string_bytes words.now) (plain_reading reading)) }
{
    let Some((word, rest)) = words.split_first() else {
        return None;
    };
    if is_word(word.as_str()) {
        reading_behind(rest)
    } else {
        None
    }
}
