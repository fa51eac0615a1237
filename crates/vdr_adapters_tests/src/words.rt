// The words of a line, and what a line that is not met is told with.
use anyhow::{Context, Error, Result, ensure};
use std::alloc::{AllocError, Global};
use std::io;

/// That it is so. Else these words are told.
pub(crate) fn expect(is_so: bool, words: &'static str) -> Result<()> {
    if is_so {
        Ok(())
    } else {
        Err(Error::msg(words))
    }
}

/// The same, of a call of the system.
pub(crate) fn done(called: io::Result<()>) -> Result<()> {
    called?;
    Ok(())
}

/// What stands before the first of these characters, and what stands behind it, which is nothing where there is none.
pub(crate) fn cut(text: &str, at: char) -> (&str, &str) {
    text.split_once(at).unwrap_or((text, ""))
}

/// The word before the first space, and what stands behind it.
pub(crate) fn first_word(text: &str) -> (&str, &str) {
    cut(text, ' ')
}

/// The number that a word spells in decimal digits.
pub(crate) fn number(word: &str) -> Result<u64> {
    word.parse::<u64>().context("no number")
}

/// The number of a port that a word spells.
pub(crate) fn port_number(word: &str) -> Result<u16> {
    word.parse::<u16>().context("no number of a port")
}

/// The byte that a word spells in decimal digits.
pub(crate) fn small_number(word: &str) -> Result<u8> {
    word.parse::<u8>().context("no number of a byte")
}

/// A text in which `<0a>` and `<0d>` stand for an end of a line and a carriage return.
pub(crate) fn unescaped(alloc: Global, text: &str) -> Result<String, AllocError> {
    let text = text.replace(alloc, "<0a>", "\n")?;
    text.as_str().replace(alloc, "<0d>", "\r")
}

// The first byte of a text.
fn first_byte(text: &str) -> u8 {
    text.as_bytes().first().copied().unwrap_or(b'?')
}

/// So many bytes, each the first of a text.
pub(crate) fn run_of(alloc: Global, count: u64, text: &str) -> Result<Vec<u8>> {
    ensure!(count <= 1_000_000, "too many");
    Ok(vec![in alloc; first_byte(text); count as usize]?)
}

/// As many bytes as a word says, each the first of a text.
pub(crate) fn run_of_word(alloc: Global, word: &str, text: &str) -> Result<Vec<u8>> {
    run_of(alloc, number(word)?, text)
}

/// How many bytes are the first one of a text.
pub(crate) fn count_of(bytes: &[u8], text: &str) -> u64 {
    let byte = first_byte(text);
    let mut count = 0u64;
    for it in bytes {
        if *it == byte {
            count = count.saturating_add(1);
        }
    }
    count
}
