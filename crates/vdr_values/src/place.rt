// Cutting a text at its first comma.
ghost use Rattle.std.specs.Prelude.{◌≡◌, ◌≤◌, ◌==◌, ◌∷◌, [], IfSome, IfNone, length, position};
ghost use Rattle.std.specs.List.{position_or_len};
ghost use Rattle.vdr_values.specs.Readings.{fields_behind};

fn first_place(bytes: &[u8], at: u8) -> Option<usize>
    ensures { result ≡ position (λ b. b == at) bytes.now }
{
    bytes.iter().position(|byte| *byte == at)
}

/// The place of the first byte of this value, or the length where there is none.
pub(crate) fn place_of(bytes: &[u8], at: u8) -> usize
    ensures place { result ≡ position_or_len (λ b. b == at) bytes.now }
    ensures within { result ≤ length bytes.now }
{
    first_place(bytes, at).unwrap_or(bytes.len())
}

/// The first field of a text in which a comma stands before each, and what stands behind it. None where there is no field.
pub(crate) fn first_field(text: &[u8]) -> Option<(&[u8], &[u8])>
    ensures found { IfSome result (λ x. fields_behind text.now ≡ x.0.now ∷ fields_behind x.1.now) }
    ensures none { IfNone result (fields_behind text.now ≡ []) }
{
    match text {
        [] => None,
        [_, behind @ ..] => Some(behind.split_at(place_of(behind, b','))),
    }
}
