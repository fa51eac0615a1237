// One command of the program over files, with its streams in memory.
use crate::errors::Told;
use crate::words::unescaped;
use anyhow::Result;
use std::fs::File;
use std::net::{Net, TcpListener, TcpStream};
use std::sync::Wait;
use std::thread::Threads;
use std::time::Clock;
use vdr_live::{Alarm, Streams, command_line, last_heard, tcp_desk, udp_lanes};

/// What a command left.
#[derive(Drop)]
pub(crate) struct Ran {
    pub(crate) code: u8,
    pub(crate) printed: Vec<u8>,
    pub(crate) told: String,
}

// The words of a command, of which `""` is an empty one.
fn words_of(rt: &HostRuntime, text: &str) -> Result<Vec<String>> {
    let mut words = Vec::new(rt.alloc());
    for word in text.split(' ') {
        let word = if word == "\"\"" { "" } else { word };
        let bytes = unescaped(rt.alloc(), word)?;
        words.push(str::from_utf8(bytes.as_slice())?.to_string(rt.alloc())?)?;
    }
    Ok(words)
}

// Runs a command of these words, with this file as its input.
fn run<
    R: AllocGlobal
        + Net<Listener = TcpListener, Stream = TcpStream>
        + Clock
        + Print
        + Eprint
        + Threads
        + Wait
        + Sync,
>(rt: &R, host: &HostRuntime, words: &[String], input: &str) -> Result<Ran> {
    let alarm = Alarm::new();
    let heard = last_heard(host);
    let mut lanes = udp_lanes(host, host.alloc(), &alarm, &heard)?;
    let mut desks = [tcp_desk(rt, host.alloc(), &alarm)?];
    let told = Told::new(rt.alloc());
    let mut printed = Vec::new(rt.alloc());
    let streams = Streams {
        input: File::open(host, input)?,
        output: &mut printed,
        errors: &told,
    };
    let code = command_line(
        rt,
        host,
        words,
        streams,
        lanes.as_mut_slice(),
        &mut desks,
        &alarm,
        &heard,
    );
    Ok(Ran {
        code,
        printed,
        told: told.into_text(),
    })
}

/// Runs the command of a line `WORDS` or `WORDS < FILE`.
pub(crate) fn ask<
    R: AllocGlobal
        + Net<Listener = TcpListener, Stream = TcpStream>
        + Clock
        + Print
        + Eprint
        + Threads
        + Wait
        + Sync,
>(rt: &R, host: &HostRuntime, line: &str) -> Result<Ran> {
    let (text, input) = line.split_once(" < ").unwrap_or((line, "/dev/null"));
    let words = words_of(host, text)?;
    run(rt, host, words.as_slice(), input)
}
