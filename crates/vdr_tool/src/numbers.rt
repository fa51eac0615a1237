// Numbers as words.
ghost use Rattle.std.specs.Prelude.{◌≡◌, ◌≤◌, ℕ, Some, IfSome, decimal};

use itoa::Buffer;

/// A number within these limits, in decimal digits without a sign and without a leading zero.
pub(crate) fn number_of(word: &str, least: u32, most: u32) -> Option<u32>
    ensures found { (n : ℕ) → least ≤ n → n ≤ most → word.now ≡ decimal n → result ≡ Some n }
    ensures only { IfSome result (λ n. (least ≤ n) × (n ≤ most) × (word.now ≡ decimal n)) }
{
    let Ok(n) = word.parse::<u32>() else {
        return None;
    };
    if n < least || most < n {
        return None;
    }
    if Buffer::new().format(n) == word {
        Some(n)
    } else {
        None
    }
}
