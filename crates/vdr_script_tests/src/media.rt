// The media of scripts, and what is kept of them.
use crate::escapes::{first_word, number, small_number, unescaped};
use anyhow::{Context, Result, bail, ensure};
use std::alloc::Global;
use vdr_memory::{Call, MemoryMedia, Torn, Work};

/// What each medium reads as, and what is kept of it under names.
#[derive(Drop)]
pub(crate) struct Shelf {
    alloc: Global,
    pub(crate) contents: Vec<Vec<u8>>,
    kept: Vec<Kept>,
    // The media of the last command that was stopped or of which a call was to fail.
    held: Option<MemoryMedia>,
}

#[derive(Drop)]
struct Kept {
    name: String,
    contents: Vec<Vec<u8>>,
}

// What a stop leaves of a write that was not synced: `old`, `new`, or a byte that stands in its whole range.
fn torn_of(alloc: Global, word: &str) -> Result<Torn> {
    if word == "old" {
        return Ok(Torn::Old);
    }
    if word == "new" {
        return Ok(Torn::New);
    }
    let bytes = unescaped(alloc, word)?;
    Ok(Torn::Filled(*bytes.first().context("a byte is missing")?))
}

// The write or the sync that these words spell, `write MEDIUM AT LENGTH` or `sync MEDIUM`, which was done or failed.
fn call_of(text: &str, done: bool) -> Result<Call> {
    let (verb, rest) = first_word(text)?;
    if verb == "sync" {
        return Ok(Call {
            medium: small_number(rest)?,
            work: Work::Sync,
            done,
        });
    }
    ensure!(verb == "write", "no call");
    let (medium, rest) = first_word(rest)?;
    let (at, length) = first_word(rest)?;
    let at = number(at)?;
    let length = number(length)? as usize;
    Ok(Call {
        medium: small_number(medium)?,
        work: Work::Write { at, length },
        done,
    })
}

impl Shelf {
    pub(crate) fn new(alloc: Global) -> Shelf {
        Shelf {
            alloc,
            contents: Vec::new(alloc),
            kept: Vec::new(alloc),
            held: None,
        }
    }

    /// Holds media that were stopped, or of which a call failed.
    pub(crate) fn hold(&mut self, media: MemoryMedia) {
        self.held = Some(media);
    }

    // Media of these sizes, in which this byte stands everywhere.
    fn make(&mut self, rest: &str) -> Result<()> {
        let (byte, sizes) = first_word(rest)?;
        let byte = unescaped(self.alloc, byte)?;
        let byte = *byte.first().context("a byte is missing")?;
        self.contents.clear();
        for size in sizes.split(' ') {
            let size = number(size)?;
            ensure!(size <= 10_000_000, "too large");
            self.contents
                .push(vec![in self.alloc; byte; size as usize]?)?;
        }
        Ok(())
    }

    fn keep(&mut self, name: &str) -> Result<()> {
        let name = String::from_str(self.alloc, name)?;
        let contents = self.contents.to_vec(self.alloc)?;
        self.kept.push(Kept { name, contents })?;
        Ok(())
    }

    fn get(&self, name: &str) -> Result<&[Vec<u8>]> {
        let found = self
            .kept
            .iter()
            .rev()
            .find(|kept| kept.name.as_str() == name);
        Ok(found.context("nothing is kept")?.contents.as_slice())
    }

    fn back(&mut self, name: &str) -> Result<()> {
        self.contents = self.get(name)?.to_vec(self.alloc)?;
        Ok(())
    }

    // What a stop of the media that are held leaves.
    fn image(&mut self, rest: &str) -> Result<()> {
        let held = self.held.as_ref().context("no command was stopped")?;
        let (last, rest) = rest.rsplit_once(' ').unwrap_or((rest, rest));
        let (last, rest) = ([torn_of(self.alloc, last)?], torn_of(self.alloc, rest)?);
        self.contents = held.image(&last, &rest)?;
        Ok(())
    }

    fn poke(&mut self, rest: &str) -> Result<()> {
        let (medium, rest) = first_word(rest)?;
        let (at, bytes) = first_word(rest)?;
        let (medium, at) = (small_number(medium)? as usize, number(at)? as usize);
        let bytes = unescaped(self.alloc, bytes)?;
        let medium = self.contents.get_mut(medium).context("no such medium")?;
        let length = bytes.len();
        ensure!(
            at <= medium.len() && length <= medium.len() - at,
            "past the medium"
        );
        medium[at..at + length].copy_from_slice(bytes.as_slice());
        Ok(())
    }

    // Leaves the first bytes of a medium alone.
    fn shorten(&mut self, rest: &str) -> Result<()> {
        let (medium, size) = first_word(rest)?;
        let (medium, size) = (small_number(medium)? as usize, number(size)? as usize);
        let medium = self.contents.get_mut(medium).context("no such medium")?;
        ensure!(size <= medium.len(), "past the medium");
        medium.truncate(size);
        Ok(())
    }

    fn medium(&self, word: &str) -> Result<&[u8]> {
        let medium = self.contents.get(small_number(word)? as usize);
        Ok(medium.context("no such medium")?.as_slice())
    }

    fn peek(&self, rest: &str) -> Result<()> {
        let (medium, rest) = first_word(rest)?;
        let (at, bytes) = first_word(rest)?;
        let bytes = unescaped(self.alloc, bytes)?;
        let behind = self.medium(medium)?.get(number(at)? as usize..);
        let behind = behind.context("past the medium")?;
        ensure!(
            behind.starts_with(bytes.as_slice()),
            "other bytes stand there"
        );
        Ok(())
    }

    // Whether these bytes stand anywhere on a medium.
    fn holds(&self, rest: &str) -> Result<bool> {
        let (medium, bytes) = first_word(rest)?;
        let bytes = unescaped(self.alloc, bytes)?;
        ensure!(!bytes.is_empty(), "no bytes");
        let mut places = self.medium(medium)?.windows(bytes.len());
        Ok(places.any(|place| place == bytes.as_slice()))
    }

    // The write or sync of this number, of the media that are held.
    fn call(&self, rest: &str, done: bool) -> Result<()> {
        let held = self.held.as_ref().context("no command was stopped")?;
        let (index, call) = first_word(rest)?;
        let found = held.calls().get(number(index)? as usize);
        ensure!(found == Some(&call_of(call, done)?), "another call");
        Ok(())
    }

    // That the media are those that were kept under this name.
    fn is_same(&self, name: &str) -> Result<()> {
        ensure!(self.contents.as_slice() == self.get(name)?, "other media");
        Ok(())
    }

    // That these bytes stand on a medium, or that they do not.
    fn is_there(&self, rest: &str, there: bool) -> Result<()> {
        ensure!(self.holds(rest)? == there, "it is otherwise");
        Ok(())
    }

    // Follows a line on what stands on the media and was done.
    fn tell(&self, verb: &str, rest: &str) -> Option<Result<()>> {
        let done = match verb {
            "same" => self.is_same(rest),
            "peek" => self.peek(rest),
            "holds" => self.is_there(rest, true),
            "lacks" => self.is_there(rest, false),
            "call" => self.call(rest, true),
            "failed" => self.call(rest, false),
            _ => return None,
        };
        Some(done)
    }

    /// Follows a line on media. None where it is none.
    pub(crate) fn follow(&mut self, verb: &str, rest: &str) -> Option<Result<()>> {
        let done = match verb {
            "media" => self.make(rest),
            "keep" => self.keep(rest),
            "back" => self.back(rest),
            "image" => self.image(rest),
            "poke" => self.poke(rest),
            "shorten" => self.shorten(rest),
            _ => return self.tell(verb, rest),
        };
        Some(done)
    }
}
