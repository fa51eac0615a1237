// The words of a line of a link.
ghost use Rattle.std.specs.Prelude.{◌≡◌, ◌==◌, ◌++◌, ◌∷◌, [], ℕ, List, position, IfSome, IfNone};
ghost use Rattle.vdr_control.specs.Words.{words};

/// What stands behind the front of a line.
pub(crate) fn behind<'a>(line: &'a [u8], front: &[u8]) -> Option<&'a [u8]>
    ensures found { IfSome result (λ rest. line.now ≡ front.now ++ rest.now) }
    ensures none { IfNone result ((rest : List ℕ) → line.now ≡ front.now ++ rest → ⊥) }
{
    line.strip_prefix(front)
}

/// The words of a text that has four.
pub(crate) fn four_words(text: &[u8]) -> Option<(&[u8], &[u8], &[u8], &[u8])>
    ensures found { IfSome result (λ four. words text.now ≡ four.0.now ∷ four.1.now ∷ four.2.now ∷ four.3.now ∷ []) }
    ensures none { IfNone result ((a b c d : List ℕ) → words text.now ≡ a ∷ b ∷ c ∷ d ∷ [] → ⊥) }
{
    let (first, rest) = cut_word(text)?;
    let (second, rest) = cut_word(rest)?;
    let (third, fourth) = cut_word(rest)?;
    match cut_word(fourth) {
        None => Some((first, second, third, fourth)),
        Some(_) => None,
    }
}

/// The words of a text that has five.
pub(crate) fn five_words(text: &[u8]) -> Option<(&[u8], &[u8], &[u8], &[u8], &[u8])>
    ensures found { IfSome result (λ five. words text.now ≡ five.0.now ∷ five.1.now ∷ five.2.now ∷ five.3.now ∷ five.4.now ∷ []) }
    ensures none { IfNone result ((a b c d e : List ℕ) → words text.now ≡ a ∷ b ∷ c ∷ d ∷ e ∷ [] → ⊥) }
{
    let (first, rest) = cut_word(text)?;
    let (second, third, fourth, fifth) = four_words(rest)?;
    Some((first, second, third, fourth, fifth))
}

/// The words of a text that has six.
pub(crate) fn six_words(text: &[u8]) -> Option<(&[u8], &[u8], &[u8], &[u8], &[u8], &[u8])>
    ensures found { IfSome result (λ six. words text.now ≡ six.0.now ∷ six.1.now ∷ six.2.now ∷ six.3.now ∷ six.4.now ∷ six.5.now ∷ []) }
    ensures none { IfNone result ((a b c d e f : List ℕ) → words text.now ≡ a ∷ b ∷ c ∷ d ∷ e ∷ f ∷ [] → ⊥) }
{
    let (first, rest) = cut_word(text)?;
    let (second, third, fourth, fifth, sixth) = five_words(rest)?;
    Some((first, second, third, fourth, fifth, sixth))
}

/// The words of a text that has two.
pub(crate) fn two_words(text: &[u8]) -> Option<(&[u8], &[u8])>
    ensures found { IfSome result (λ two. words text.now ≡ two.0.now ∷ two.1.now ∷ []) }
    ensures none { IfNone result ((a b : List ℕ) → words text.now ≡ a ∷ b ∷ [] → ⊥) }
{
    let (first, second) = cut_word(text)?;
    match cut_word(second) {
        None => Some((first, second)),
        Some(_) => None,
    }
}

// The first word of a text, and what stands behind the space after it. None where the text is one word.
fn cut_word(text: &[u8]) -> Option<(&[u8], &[u8])>
    ensures found { IfSome result (λ cut. words text.now ≡ cut.0.now ∷ words cut.1.now) }
    ensures none { IfNone result (words text.now ≡ text.now ∷ []) }
{
    let place = space_in(text)?;
    Some((&text[..place], &text[place + 1..]))
}

fn space_in(text: &[u8]) -> Option<usize>
    ensures { result ≡ position (λ b. b == 32) text.now }
{
    text.iter().position(|byte| *byte == b' ')
}
