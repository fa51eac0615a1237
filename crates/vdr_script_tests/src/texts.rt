// The texts of scripts, by their names: inputs of commands, and what is expected of them.
use crate::escapes::{first_word, number, small_number, unescaped};
use anyhow::{Context, Result, ensure};
use std::alloc::{AllocError, Global};
use vdr_feed::{Item, trial_item};

const FEED_HEADER: &[u8] = b"VDRFEED1";

#[derive(Drop)]
struct Text {
    name: String,
    bytes: Vec<u8>,
}

#[derive(Drop)]
pub(crate) struct Texts {
    alloc: Global,
    all: Vec<Text>,
}

// Appends an item to a feed.
fn push_item(
    feed: &mut Vec<u8>,
    group: u8,
    received: u64,
    utc: i64,
    body: &[u8],
) -> Result<(), AllocError> {
    feed.push(group)?;
    feed.extend_from_slice(&received.to_le_bytes())?;
    feed.extend_from_slice(&utc.to_le_bytes())?;
    let len = u16::try_from(body.len()).unwrap_or(u16::MAX);
    feed.extend_from_slice(&len.to_le_bytes())?;
    feed.extend_from_slice(body)
}

// Appends the first items of the generated feed with the seed 0.
fn push_generated(feed: &mut Vec<u8>, count: u64) -> Result<()> {
    ensure!(count <= 1_000_000, "too many items");
    let mut state = 0;
    let mut item = Item::new();
    for index in 0..count {
        trial_item(&mut state, index, &mut item);
        push_item(feed, 3, item.received, item.utc, item.bytes.as_slice())?;
    }
    Ok(())
}

impl Texts {
    pub(crate) fn new(alloc: Global) -> Texts {
        Texts {
            alloc,
            all: Vec::new(alloc),
        }
    }

    /// The newest text of this name.
    pub(crate) fn get(&self, name: &str) -> Result<&[u8]> {
        let found = self
            .all
            .iter()
            .rev()
            .find(|text| text.name.as_str() == name);
        Ok(found.context("no such text")?.bytes.as_slice())
    }

    /// Begins a text with these bytes.
    pub(crate) fn begin(&mut self, name: &str, bytes: Vec<u8>) -> Result<()> {
        let name = String::from_str(self.alloc, name)?;
        self.all.push(Text { name, bytes })?;
        Ok(())
    }

    // The bytes of the newest text.
    fn newest(&mut self) -> Result<&mut Vec<u8>> {
        Ok(&mut self.all.last_mut().context("no text")?.bytes)
    }

    fn item(&mut self, rest: &str) -> Result<()> {
        let (group, rest) = first_word(rest)?;
        let (received, rest) = first_word(rest)?;
        let (utc, body) = first_word(rest)?;
        let utc = utc.parse::<i64>()?;
        let body = unescaped(self.alloc, body)?;
        let feed = self.newest()?;
        push_item(
            feed,
            small_number(group)?,
            number(received)?,
            utc,
            body.as_slice(),
        )?;
        Ok(())
    }

    fn swap(&mut self, rest: &str) -> Result<()> {
        let alloc = self.alloc;
        let (old, new) = first_word(rest)?;
        let bytes = self.newest()?;
        let text = str::from_utf8(bytes.as_slice())?;
        ensure!(text.contains(old), "the text lacks it");
        let text = text.replace(alloc, old, new)?;
        *bytes = text.into_bytes();
        Ok(())
    }

    fn copy(&mut self, name: &str) -> Result<()> {
        let bytes = self.get(name)?.to_vec(self.alloc)?;
        self.newest()?.extend_from_slice(bytes.as_slice())?;
        Ok(())
    }

    fn push(&mut self, rest: &str) -> Result<()> {
        let bytes = unescaped(self.alloc, rest)?;
        self.newest()?.extend_from_slice(bytes.as_slice())?;
        Ok(())
    }

    fn line(&mut self, rest: &str) -> Result<()> {
        let bytes = self.newest()?;
        bytes.extend_from_slice(rest.as_bytes())?;
        bytes.push(b'\n')?;
        Ok(())
    }

    fn pad(&mut self, rest: &str) -> Result<()> {
        let length = number(rest)?;
        ensure!(length <= 1_000_000, "too long");
        self.newest()?.resize(length as usize, b' ')?;
        Ok(())
    }

    // Begins a text with the header of a feed.
    fn begin_feed(&mut self, name: &str) -> Result<()> {
        let header = FEED_HEADER.to_vec(self.alloc)?;
        self.begin(name, header)
    }

    fn generate(&mut self, rest: &str) -> Result<()> {
        push_generated(self.newest()?, number(rest)?)
    }

    fn cut(&mut self, rest: &str) -> Result<()> {
        let length = number(rest)? as usize;
        self.newest()?.truncate(length);
        Ok(())
    }

    // Follows a line on the newest text.
    fn follow_newest(&mut self, verb: &str, rest: &str) -> Option<Result<()>> {
        let done = match verb {
            "bytes" => self.push(rest),
            "line" => self.line(rest),
            "copy" => self.copy(rest),
            "swap" => self.swap(rest),
            "cut" => self.cut(rest),
            "pad" => self.pad(rest),
            _ => return None,
        };
        Some(done)
    }

    /// Follows a line on texts. None where it is none.
    pub(crate) fn follow(&mut self, verb: &str, rest: &str) -> Option<Result<()>> {
        let done = match verb {
            "text" => self.begin(rest, Vec::new(self.alloc)),
            "feed" => self.begin_feed(rest),
            "item" => self.item(rest),
            "generated" => self.generate(rest),
            _ => return self.follow_newest(verb, rest),
        };
        Some(done)
    }
}
