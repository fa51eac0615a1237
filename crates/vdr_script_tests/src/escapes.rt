// Bytes as a script spells them: `<hh>` is the byte of these two digits, and all else stands for itself.
use anyhow::{Context, Result};
use std::alloc::{AllocError, Global};

// The value of a hexadecimal digit.
fn digit(byte: u8) -> Option<u8> {
    match byte {
        b'0'..=b'9' => Some(byte - b'0'),
        b'a'..=b'f' => Some(byte - b'a' + 10),
        _ => None,
    }
}

// The byte of an escape at the front of a text.
fn escape_at(text: &[u8]) -> Option<u8> {
    match text {
        [b'<', high, low, b'>', ..] => Some((digit(*high)? << 4) | digit(*low)?),
        _ => None,
    }
}

/// The bytes that a text spells.
pub(crate) fn unescaped(alloc: Global, text: &str) -> Result<Vec<u8>, AllocError> {
    let mut bytes = Vec::new(alloc);
    let text = text.as_bytes();
    let mut passed = 0u8;
    for at in 0..text.len() {
        if passed > 0 {
            passed -= 1;
            continue;
        }
        match escape_at(&text[at..]) {
            Some(byte) => {
                bytes.push(byte)?;
                passed = 3;
            }
            None => bytes.push(text[at])?,
        }
    }
    Ok(bytes)
}

/// The number that a word spells in decimal digits.
pub(crate) fn number(word: &str) -> Result<u64> {
    word.parse::<u64>().context("no number")
}

/// The byte that a word spells in decimal digits.
pub(crate) fn small_number(word: &str) -> Result<u8> {
    word.parse::<u8>().context("no number of a byte")
}

/// The word before the first space, and what stands behind it.
pub(crate) fn first_word(text: &str) -> Result<(&str, &str)> {
    text.split_once(' ').context("too few words")
}
