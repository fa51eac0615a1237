// The checksum of IEC 61162-1, and the field in which a line writes it.
ghost use Rattle.std.specs.Prelude.{◌≡◌, Some, None, IfSome, IfNone};
ghost use Rattle.vdr_bytes.specs.Checksum.{checksum, covered, written};

use crate::hexadecimal::hex_byte;

/// The checksum of IEC 61162-1: the exclusive or of the bytes.
pub fn checksum(bytes: &[u8]) -> u8
    ensures { result ≡ checksum bytes.now }
{
    bytes.iter().fold(0, |sum, byte| sum ^ *byte)
}

/// The bytes before a checksum field at the end, and the checksum that the field writes: `*` and two hexadecimal digits in
/// either case. None where the last three bytes are no such field.
pub fn split_checksum(bytes: &[u8]) -> Option<(&[u8], u8)>
    ensures found { IfSome result (λ x. (x.0.now ≡ covered bytes.now) × (written bytes.now ≡ Some x.1)) }
    ensures none { IfNone result (written bytes.now ≡ None) }
{
    match bytes {
        [text @ .., b'*', high, low] => {
            let written = hex_byte(*high, *low)?;
            Some((text, written))
        }
        _ => None,
    }
}
