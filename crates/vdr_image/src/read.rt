// Reading the header of an image datagram.
ghost use Rattle.std.specs.Prelude.{◌≡◌, ◌≤◌, ◌&&◌, option_map, length, nat_le, IfSome, IfNone};
ghost use Rattle.vdr_image.specs.Headers.{Header, is_identifier};
ghost use Rattle.vdr_image.specs.Images.{IsImage, has_image_token, header_at, image_in, is_header, is_image, is_numbered};
ghost use Rattle.vdr_image.specs.Views.{header_of};

use crate::header::ImageHeader;
use vdr_bytes::{u16_at, u32_at};
use vdr_terms::are_graphic;

/// The size of a header with its token, in bytes.
const HEADER_SIZE: usize = 32;

/// The version of the layout.
const VERSION: u16 = 1;

/// The greatest sequence number that a block may have.
const MOST_PARTS: u32 = 65_535;

// One of the two tokens of image transfer (IEC 61162-450).
fn has_image_token(bytes: &[u8]) -> bool
    ensures { result ≡ has_image_token bytes.now }
{
    bytes.starts_with(b"RaUdP\0") || bytes.starts_with(b"RrUdP\0")
}

fn is_identifier(text: &[u8]) -> bool
    ensures { result ≡ is_identifier text.now }
{
    text.len() == 6 && are_graphic(text)
}

fn is_numbered(sequence: u32, greatest: u32) -> bool
    ensures { result ≡ is_numbered sequence greatest }
{
    1 <= sequence && sequence <= greatest && greatest <= MOST_PARTS
}

// What stands behind the token and the version is a header of the profile.
#[tactic(auto, unfolding(crate::specs::Images::header_at))]
fn has_header(bytes: &[u8]) -> bool
    requires { 32 ≤ length bytes.now }
    ensures { result ≡ is_header (header_at bytes.now) }
{
    is_identifier(&bytes[8..14])
        && is_identifier(&bytes[14..20])
        && is_numbered(u32_at(bytes, 24), u32_at(bytes, 28))
}

fn is_image(bytes: &[u8]) -> bool
    ensures { result ≡ is_image bytes.now }
{
    bytes.len() >= HEADER_SIZE
        && has_image_token(bytes)
        && u16_at(bytes, 6) == VERSION
        && has_header(bytes)
}

/// Reads the header of an image datagram (this project's profile), which is all of the bytes. None exactly where they aren't one: fewer
/// than 32 bytes, none of the tokens `RaUdP` NUL and `RrUdP` NUL, a version other than 1, a source or a destination that isn't
/// 6 bytes of 0x21 to 0x7E, or not 1 <= sequence <= greatest <= 65,535.
pub fn read_image(bytes: &[u8]) -> Option<ImageHeader<'_>>
    // What is read is what the bytes are, and other bytes are no image datagram.
    ensures image { IfSome result (λ header. IsImage bytes.now (header_of header)) }
    ensures no_image { IfNone result ((header : Header) → IsImage bytes.now header → ⊥) }

    // The same as a function of the bytes.
    ensures exact { option_map header_of result ≡ image_in bytes.now }
{
    if !is_image(bytes) {
        return None;
    }
    Some(ImageHeader {
        source: &bytes[8..14],
        destination: &bytes[14..20],
        block: u32_at(bytes, 20),
        sequence: u32_at(bytes, 24),
        greatest: u32_at(bytes, 28),
        body: &bytes[HEADER_SIZE..],
    })
}
