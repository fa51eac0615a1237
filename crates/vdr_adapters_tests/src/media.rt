// What is asked of media.
ghost use Rattle.std.specs.Prelude.{◌≡◌, true};
ghost use Rattle.vdr_outside.specs.Disk.{InRange};

use crate::words::{expect, first_word, number, run_of, run_of_word};
use anyhow::{Result, ensure};
use std::alloc::Global;
use vdr_adapters::{FileMedia, MediumFile, Trouble};
use vdr_outside::Media;

// Whether medium m has so many bytes from `at` on.
fn fits<M: Media>(media: &M, m: u8, at: u64, length: usize) -> bool
    ensures { result ≡ true → InRange (M.disk media.now).sizes m at length }
{
    m < media.count() && at <= media.size(m) && length as u64 <= media.size(m) - at
}

// Whether these bytes could be read.
fn reads<M: Media>(media: &mut M, m: u8, at: u64, into: &mut [u8]) -> bool {
    fits(media, m, at, into.len()) && media.read(m, at, into).is_ok()
}

// Whether these bytes could be written.
fn writes<M: Media>(media: &mut M, m: u8, at: u64, bytes: &[u8]) -> bool {
    fits(media, m, at, bytes.len()) && media.write(m, at, bytes).is_ok()
}

// Whether a medium could be synced.
fn syncs<M: Media>(media: &mut M, m: u8) -> bool {
    fits(media, m, 0, 0) && media.sync(m).is_ok()
}

// Whether a call of medium m for no bytes succeeds.
fn succeeds<M: Media>(media: &mut M, m: u8, call: &str) -> bool {
    match call {
        "sync" => syncs(media, m),
        "read" => reads(media, m, 0, &mut []),
        _ => writes(media, m, 0, b""),
    }
}

// Whether a call is to succeed, where a file that is locked up may be written nonetheless or not.
fn is_well(word: &str, may_write: bool) -> bool {
    match word {
        "well" => true,
        "if-all" => may_write,
        "unless-all" => !may_write,
        _ => false,
    }
}

// The bytes that a line speaks of: a text, or so many sevens where it says `fill`.
fn bytes_of(alloc: Global, verb: &str, text: &str) -> Result<Vec<u8>> {
    if verb == "fill" {
        run_of_word(alloc, text, "7")
    } else {
        Ok(text.as_bytes().to_vec(alloc)?)
    }
}

// That medium m has these bytes.
fn has<M: Media>(media: &mut M, m: u8, at: u64, bytes: &[u8], mut piece: Vec<u8>) -> bool {
    reads(media, m, at, piece.as_mut_slice()) && piece.as_slice() == bytes
}

// That medium m has the bytes of a line `AT TEXT`.
fn has_text<M: Media>(alloc: Global, media: &mut M, m: u8, rest: &str) -> Result<()> {
    let (at, text) = first_word(rest);
    let piece = run_of(alloc, text.len() as u64, "?")?;
    let is_so = has(media, m, number(at)?, text.as_bytes(), piece);
    expect(is_so && !text.is_empty(), "other bytes")
}

// Writes the bytes of a line `AT TEXT` or `AT COUNT`.
fn put<M: Media>(alloc: Global, media: &mut M, m: u8, verb: &str, rest: &str) -> Result<()> {
    let (at, text) = first_word(rest);
    let at = number(at)?;
    let bytes = bytes_of(alloc, verb, text)?;
    expect(writes(media, m, at, bytes.as_slice()), "it failed")
}

/// Follows a line of a script that is about a medium: its number stands first. None where there is no such line.
pub(crate) fn follow<M: Media>(
    alloc: Global,
    media: &mut M,
    may_write: bool,
    verb: &str,
    rest: &str,
) -> Option<Result<()>> {
    let (m, rest) = first_word(rest);
    let m = m.parse::<u8>().ok()?;
    match verb {
        "sync" | "read" | "write" => {
            let answer = succeeds(media, m, verb) == is_well(rest, may_write);
            Some(expect(answer, "another answer"))
        }
        "size" => Some(is_number(media.size(m), rest)),
        "has" => Some(has_text(alloc, media, m, rest)),
        "put" | "fill" => Some(put(alloc, media, m, verb, rest)),
        _ => None,
    }
}

// That this is the number that a word spells.
fn is_number(found: u64, word: &str) -> Result<()> {
    expect(number(word)? == found, "another length")
}

// What stands in the way of media, in words.
fn words_of(alloc: Global, told: Option<(&'static str, &Trouble)>) -> Result<String> {
    match told {
        Some((name, trouble)) => Ok(format!(in alloc; "{name}: {trouble}")?),
        None => Ok(String::new(alloc)),
    }
}

// That a text begins with these words, or is none where they are none.
fn is_told(text: &str, words: &str) -> Result<()> {
    ensure!(
        text.starts_with(words) && text.is_empty() == words.is_empty(),
        "it tells {text}"
    );
    Ok(())
}

/// That what stands in the way of the media begins with these words, or that nothing does where they are none.
pub(crate) fn tells<F: MediumFile + Drop>(
    alloc: Global,
    media: &FileMedia<F>,
    words: &str,
) -> Result<()> {
    let told = words_of(alloc, media.trouble())?;
    is_told(told.as_str(), words)
}

// Whether a sync is told, or none, as the word says.
fn is_timed(sync: Option<u64>, word: &str) -> bool {
    if sync.is_some() {
        word == "yes"
    } else {
        word == "no"
    }
}

/// That a sync of the capsule and of the long-term medium in the last minute is told, or none, as the words say: `yes` or `no`.
pub(crate) fn timed<F: MediumFile + Drop>(media: &FileMedia<F>, words: &str) -> Result<()> {
    let (of_capsule, of_long_term) = first_word(words);
    let (capsule, long_term) = media.longest_syncs();
    let is_so = is_timed(capsule, of_capsule) && is_timed(long_term, of_long_term);
    expect(is_so, "another answer")
}
