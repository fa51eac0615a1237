// Bytes in the text of rows.

use std::alloc::{AllocError, Global};

/// The bytes of a text in which `<hh>` stands for a byte, and `<hh*N>` for N of it.
pub(crate) fn bytes_of(alloc: Global, text: &str) -> Result<Vec<u8>, AllocError> {
    let mut bytes = Vec::new(alloc);
    let (front, rest) = text.split_once('<').unwrap_or((text, ""));
    bytes.extend_from_slice(front.as_bytes())?;
    for part in rest.split('<') {
        let (escape, plain) = part.split_once('>').unwrap_or(("", part));
        put_escape(&mut bytes, escape)?;
        bytes.extend_from_slice(plain.as_bytes())?;
    }
    Ok(bytes)
}

// Appends what stands between `<` and `>`.
fn put_escape(bytes: &mut Vec<u8>, escape: &str) -> Result<(), AllocError> {
    let (digits, times) = escape.split_once('*').unwrap_or((escape, "1"));
    if let Ok(byte) = u8::from_str_radix(digits, 16) {
        for _ in 0..times.parse::<u16>().unwrap_or(0) {
            bytes.push(byte)?;
        }
    }
    Ok(())
}
