// What is heard over a link, and taken of a port.
use crate::words::{count_of, expect, first_word, number, run_of, run_of_word, unescaped};
use anyhow::{Result, bail, ensure};
use arrayvec::ArrayVec;
use std::alloc::Global;
use vdr_outside::{Heard, LONGEST_LINE, LONGEST_TAKEN, Link, Port, Taken};

/// How often a line of a script looks for what is to come.
const LOOKS: u32 = 40;

// The next answer of a link that isn't quiet.
fn next_heard<L: Link>(link: &mut L, into: &mut ArrayVec<u8, LONGEST_LINE>) -> Heard {
    for _ in 0..LOOKS {
        let heard = link.line(into);
        if heard != Heard::Quiet {
            return heard;
        }
    }
    Heard::Quiet
}

// That the next line of a link is this one.
fn hear<L: Link>(link: &mut L, line: &[u8]) -> Result<()> {
    let mut into = ArrayVec::new();
    let heard = next_heard(link, &mut into);
    expect(
        heard == Heard::Line && into.as_slice() == line,
        "another line",
    )
}

// That the next line of a link is so many x.
fn hear_x<L: Link>(alloc: Global, link: &mut L, count: &str) -> Result<()> {
    let line = run_of_word(alloc, count, "x")?;
    hear(link, line.as_slice())
}

// What a script calls an answer.
fn name_of(heard: Heard) -> &'static str {
    match heard {
        Heard::Line => "line",
        Heard::Long => "long",
        Heard::Quiet => "quiet",
        Heard::Ended => "ended",
        Heard::Failed => "failed",
    }
}

/// That the next answer of a link is the one of this name.
pub(crate) fn hear_of<L: Link>(link: &mut L, name: &str) -> Result<()> {
    let mut into = ArrayVec::new();
    let found = name_of(next_heard(link, &mut into));
    ensure!(found == name, "it answers {found}");
    Ok(())
}

// Whether a link stays quiet for so many looks.
fn is_quiet<L: Link>(link: &mut L, looks: u64) -> bool {
    let mut into = ArrayVec::new();
    for _ in 0..looks {
        if link.line(&mut into) != Heard::Quiet {
            return false;
        }
    }
    true
}

// Replies these bytes.
fn reply<L: Link>(link: &mut L, bytes: &[u8]) -> Result<()> {
    expect(link.reply(bytes).is_ok(), "a reply failed")
}

// Replies this text.
fn reply_text<L: Link>(alloc: Global, link: &mut L, text: &str) -> Result<()> {
    let bytes = unescaped(alloc, text)?;
    reply(link, bytes.as_bytes())
}

// Replies pieces of 65,536 bytes, so many.
fn reply_pieces<L: Link>(alloc: Global, link: &mut L, count: u64) -> Result<()> {
    let piece = run_of(alloc, 65_536, ".")?;
    for _ in 0..count {
        reply(link, piece.as_slice())?;
    }
    Ok(())
}

// That a link stays quiet for so many looks.
fn stays_quiet<L: Link>(link: &mut L, looks: &str) -> Result<()> {
    let looks = number(looks)?;
    expect(is_quiet(link, looks), "it isn't quiet")
}

/// Follows a line of a script that is about a link.
pub(crate) fn follow_link<L: Link>(
    alloc: Global,
    link: &mut L,
    verb: &str,
    rest: &str,
) -> Result<()> {
    match verb {
        "hear" => hear(link, rest.as_bytes()),
        "hear-x" => hear_x(alloc, link, rest),
        "link-is" => hear_of(link, rest),
        "quiet" => stays_quiet(link, rest),
        "reply" => reply_text(alloc, link, rest),
        _ => reply_pieces(alloc, link, number(rest)?),
    }
}

// The next answer of a port that isn't quiet.
fn next_taken<P: Port>(port: &mut P, into: &mut ArrayVec<u8, LONGEST_TAKEN>) -> Taken {
    for _ in 0..LOOKS {
        let taken = port.take(into);
        if taken != Taken::Quiet {
            return taken;
        }
    }
    Taken::Quiet
}

// That these are so many bytes, each the first of a text.
fn are_bytes(bytes: &[u8], length: u64, text: &str) -> Result<()> {
    expect(bytes.len() as u64 == length, "another length")?;
    expect(count_of(bytes, text) == length, "other bytes")
}

// When the next datagram came, which has so many bytes, each the first of a text, and a stamp of this century.
fn taken<P: Port>(port: &mut P, length: u64, text: &str) -> Result<u64> {
    let mut into = ArrayVec::new();
    let Taken::Datagram { received, utc } = next_taken(port, &mut into) else {
        bail!("no datagram");
    };
    are_bytes(into.as_slice(), length, text)?;
    expect(utc > 1_700_000_000_000, "another stamp")?;
    Ok(received)
}

/// That the next datagram of a port is so many bytes, each the first of a text, and came in the first minute and not before the last
/// one.
pub(crate) fn take<P: Port>(port: &mut P, last: &mut u64, rest: &str) -> Result<()> {
    let (length, text) = first_word(rest);
    let received = taken(port, number(length)?, text)?;
    ensure!(*last <= received && received < 60_000, "another time");
    *last = received;
    Ok(())
}

/// That the very next answer of a port is the one of this name.
pub(crate) fn take_of<P: Port>(port: &mut P, name: &str) -> Result<()> {
    let mut into = ArrayVec::new();
    let found = match port.take(&mut into) {
        Taken::Datagram { .. } => "datagram",
        Taken::Quiet => "quiet",
        Taken::Ended => "ended",
        Taken::Failed => "failed",
    };
    ensure!(found == name, "it answers {found}");
    Ok(())
}
