// The words of a line, and bytes as a script spells them: `<hh>` is the byte of these two digits, and all else stands for itself.
use anyhow::{Context, Result};
use std::alloc::{AllocError, Global};

/// The word before the first space, and what stands behind it.
pub(crate) fn first_word(text: &str) -> (&str, &str) {
    text.split_once(' ').unwrap_or((text, ""))
}

/// The number that a word spells in decimal digits.
pub(crate) fn number(word: &str) -> Result<u64> {
    word.parse::<u64>().context("no number")
}

// Appends what stands behind a `<`: the byte of an escape and what follows it, or all as it stands.
fn push_part(bytes: &mut Vec<u8>, part: &str) -> Result<(), AllocError> {
    let (digits, plain) = part.split_once('>').unwrap_or((part, ""));
    match u8::from_str_radix(digits, 16) {
        Ok(byte) if digits.len() == 2 => {
            bytes.push(byte)?;
            bytes.extend_from_slice(plain.as_bytes())
        }
        _ => {
            bytes.push(b'<')?;
            bytes.extend_from_slice(part.as_bytes())
        }
    }
}

/// The bytes that a text spells.
pub(crate) fn unescaped(alloc: Global, text: &str) -> Result<Vec<u8>, AllocError> {
    let mut bytes = Vec::new(alloc);
    let (front, rest) = text.split_once('<').unwrap_or((text, ""));
    bytes.extend_from_slice(front.as_bytes())?;
    if front.len() == text.len() {
        return Ok(bytes);
    }
    for part in rest.split('<') {
        push_part(&mut bytes, part)?;
    }
    Ok(bytes)
}
