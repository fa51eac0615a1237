// Texts of ASCII characters.
ghost use Rattle.std.specs.Prelude.{◌≡◌, ◌&&◌, nat_le};
ghost use Rattle.vdr_terms.specs.Texts.{are_graphic, are_printable};

/// Whether all are characters that are seen: 0x21 to 0x7E, so no space.
pub fn are_graphic(text: &[u8]) -> bool
    ensures { result ≡ are_graphic text.now }
{
    text.iter().all(|byte| *byte >= 0x21 && *byte <= 0x7E)
}

/// Whether all are characters that are seen, or spaces: 0x20 to 0x7E.
pub fn are_printable(text: &[u8]) -> bool
    ensures { result ≡ are_printable text.now }
{
    text.iter().all(|byte| *byte >= 0x20 && *byte <= 0x7E)
}
