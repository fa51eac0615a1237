// Splitting bytes at the first byte of a value.
ghost use Rattle.std.specs.Prelude.{◌≡◌, ◌≤◌, ◌<◌, ◌==◌, [], ◌∷◌, IfSome, IfNone, length, position};
ghost use Rattle.std.specs.List.{after_first, before_first, position_or_len};
ghost use Rattle.vdr_tag.specs.Parts.{parts};

fn place_of(bytes: &[u8], at: u8) -> Option<usize>
    ensures { result ≡ position (λ b. b == at) bytes.now }
{
    bytes.iter().position(|byte| *byte == at)
}

/// What stands before the first byte of this value, and what stands behind it. None where there is none.
pub(crate) fn split_once(bytes: &[u8], at: u8) -> Option<(&[u8], &[u8])>
    ensures found { IfSome result (λ x. position_or_len (λ b. b == at) bytes.now < length bytes.now) }
    ensures before { IfSome result (λ x. x.0.now ≡ before_first (λ b. b == at) bytes.now) }
    ensures after { IfSome result (λ x. x.1.now ≡ after_first (λ b. b == at) bytes.now) }
    ensures parts { IfSome result (λ x. parts at bytes.now ≡ x.0.now ∷ parts at x.1.now) }
    ensures none { IfNone result (length bytes.now ≤ position_or_len (λ b. b == at) bytes.now) }
    ensures whole { IfNone result (parts at bytes.now ≡ bytes.now ∷ []) }
{
    let place = place_of(bytes, at)?;
    Some((&bytes[..place], &bytes[place + 1..]))
}
