// The words of a live recording.
ghost use Rattle.std.specs.Prelude.{◌≡◌, ◌≤◌, ◌∷◌, [], ℕ, Some, IfSome, decimal};
ghost use Rattle.vdr_live.specs.Recordings.{AsksRecord, SpellsRecord};

use itoa::Buffer;

/// The most takes of a port in a run.
const MOST_TURNS: u64 = 1_000_000_000_000;

// A number within these limits, in decimal digits without a sign and without a leading zero.
fn number_of(word: &str, least: u64, most: u64) -> Option<u64>
    ensures found { (n : ℕ) → least ≤ n → n ≤ most → word.now ≡ decimal n → result ≡ Some n }
    ensures only { IfSome result (λ n. (least ≤ n) × (n ≤ most) × (word.now ≡ decimal n)) }
{
    let Ok(n) = word.parse::<u64>() else {
        return None;
    };
    if n < least || most < n {
        return None;
    }
    if Buffer::new().format(n) == word {
        Some(n)
    } else {
        None
    }
}

fn two_words(word: &str, turns: &str) -> Option<u64>
    ensures found { (n : ℕ) → SpellsRecord (word.now ∷ turns.now ∷ []) n → result ≡ Some n }
    ensures only { IfSome result (λ n. SpellsRecord (word.now ∷ turns.now ∷ []) n) }
{
    if word != "record" {
        return None;
    }
    number_of(turns, 1, MOST_TURNS)
}

/// How many takes of each port the words ask for, None where they ask for no recording.
pub(crate) fn turns_of(words: &[String]) -> Option<u64>
    ensures found { (turns : ℕ) → AsksRecord words.now turns → result ≡ Some turns }
    ensures only { IfSome result (λ turns. AsksRecord words.now turns) }
{
    match words {
        [word, turns] => two_words(word.as_str(), turns.as_str()),
        _ => None,
    }
}
