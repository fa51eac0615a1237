// The peers of a link.
use crate::words::{done, expect, first_word, number, run_of, run_of_word, unescaped};
use anyhow::{Context, Result, ensure};
use std::alloc::Global;
use std::io;
use std::io::{Read, Write};
use std::net::TcpStream;
use std::time::Duration;

// A peer says something.
fn say(alloc: Global, peer: &mut TcpStream, text: &str) -> Result<()> {
    let bytes = unescaped(alloc, text)?;
    done(peer.write_all(bytes.as_bytes()))
}

// A peer says so many x.
fn say_x(alloc: Global, peer: &mut TcpStream, count: &str) -> Result<()> {
    let bytes = run_of_word(alloc, count, "x")?;
    done(peer.write_all(bytes.as_slice()))
}

// That the next bytes that come to a peer are these.
fn gets(alloc: Global, peer: &mut TcpStream, bytes: &[u8]) -> Result<()> {
    let mut piece = run_of(alloc, bytes.len() as u64, "?")?;
    peer.read_exact(piece.as_mut_slice())?;
    expect(piece.as_slice() == bytes, "other bytes")
}

// That what comes next to a peer is this text.
fn gets_text(alloc: Global, peer: &mut TcpStream, text: &str) -> Result<()> {
    let bytes = unescaped(alloc, text)?;
    gets(alloc, peer, bytes.as_bytes())
}

// Whether the other end has hung up, which shows within a tenth of a second.
fn is_gone(peer: &mut TcpStream) -> io::Result<bool> {
    peer.set_read_timeout(Some(Duration::from_millis(100)))?;
    let mut byte = [0; 1];
    match peer.read(&mut byte) {
        Err(error) if error.kind() == io::ErrorKind::WouldBlock => Ok(false),
        _ => Ok(true),
    }
}

// That the other end has hung up, or that it has not.
fn stays_or_not(peer: &mut TcpStream, goes: bool) -> Result<()> {
    expect(is_gone(peer)? == goes, "it is not so")
}

// The peer of this place hangs up.
fn hang_up(peers: &mut Vec<TcpStream>, place: usize) -> Result<()> {
    ensure!(place < peers.len(), "no such peer");
    drop(peers.remove(place));
    Ok(())
}

// Follows a line about one peer.
fn follow_one(alloc: Global, peer: &mut TcpStream, verb: &str, rest: &str) -> Result<()> {
    match verb {
        "say" => say(alloc, peer, rest),
        "say-x" => say_x(alloc, peer, rest),
        "gets" => gets_text(alloc, peer, rest),
        _ => stays_or_not(peer, verb == "gone"),
    }
}

/// Follows a line of a script that is about peers.
pub(crate) fn follow(
    alloc: Global,
    peers: &mut Vec<TcpStream>,
    verb: &str,
    rest: &str,
) -> Result<()> {
    let (word, rest) = first_word(rest);
    let place = number(word)? as usize;
    if verb == "hang-up" {
        return hang_up(peers, place);
    }
    follow_one(
        alloc,
        peers.get_mut(place).context("no such peer")?,
        verb,
        rest,
    )
}
