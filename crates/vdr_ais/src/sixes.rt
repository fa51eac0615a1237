// The characters that carry six bits each.
ghost use Rattle.std.specs.Prelude.{◌≡◌, ◌<◌, true};
ghost use Rattle.std.specs.List.{list_all};
ghost use Rattle.vdr_ais.specs.Bits.{is_legal, six};

fn is_legal(character: u8) -> bool
    ensures { result ≡ is_legal character }
{
    matches!(character, 0x30..=0x57 | 0x60..=0x77)
}

/// Whether each character of a payload stands for a number.
pub(crate) fn are_legal(payload: &[u8]) -> bool
    ensures { result ≡ list_all is_legal payload.now }
{
    payload.iter().all(|character| is_legal(*character))
}

/// The number from 0 to 63 that a character stands for.
pub(crate) fn six(character: u8) -> u8
    requires { is_legal character ≡ true }
    ensures value { result ≡ six character }
    ensures below { result < 64 }
{
    let number = character - 48;
    if number > 40 { number - 8 } else { number }
}
