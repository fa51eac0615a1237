// The reply to a line, as a command tells it.
use crate::{Ended, gone_from, no_file, told_of};
use std::alloc::Global;
use std::io::{BufRead, Write};

/// The order whose text may be cut behind a whole record, by a line of its own.
const PLAY: &[u8] = b"PLAY ";

/// The orders whose reply is a text, ended by a line `.`.
const WITH_TEXT: [&[u8]; 10] = [
    PLAY,
    b"INCIDENTS",
    b"HEALTH",
    b"SOURCES ",
    b"WATCH ",
    b"TARGETS ",
    b"DIGEST ",
    b"EVIDENCE ",
    b"WAV ",
    b"PICTURE ",
];

// Reads the next line, without its end.
fn next_line<I: BufRead>(input: &mut I, line: &mut Vec<u8>) -> Result<(), Ended> {
    line.clear();
    match input.read_until(b'\n', line) {
        Ok(_) => {}
        Err(_) => return Err(Ended::NoLink),
    }
    if line.pop() == Some(b'\n') {
        Ok(())
    } else {
        Err(Ended::NoLink)
    }
}

// Prints a line with its end.
fn print_line<W: Write>(output: &mut W, line: &[u8]) -> Result<(), Ended> {
    if output.write_all(line).is_ok() && output.write_all(b"\n").is_ok() {
        Ok(())
    } else {
        Err(Ended::Output)
    }
}

// Prints a status line whose last words are told by the reply.
fn print_status<W: Write>(output: &mut W, begin: &[u8], told: &[u8]) -> Result<(), Ended> {
    if output.write_all(begin).is_err() {
        return Err(Ended::Output);
    }
    print_line(output, told)
}

// Tells where a play was cut: the media failed, or records were written over before they were sent. A line of a record tells neither.
fn tell_cut<W: Write>(output: &mut W, line: &[u8]) -> Result<(), Ended> {
    if let Some(told) = told_of(line) {
        return Err(Ended::Told(told));
    }
    if let Some(place) = gone_from(line) {
        print_status(output, b"status 11 gone ", place)?;
        return Err(Ended::Gone);
    }
    Ok(())
}

// Prints the lines up to the one that ends them.
fn print_text<I: BufRead, W: Write>(
    input: &mut I,
    output: &mut W,
    line: &mut Vec<u8>,
    is_play: bool,
) -> Result<(), Ended> {
    for _ in 0..u64::MAX {
        next_line(input, line)?;
        if *line.as_slice() == *b".".as_slice() {
            return Ok(());
        }
        if is_play {
            tell_cut(output, line.as_slice())?;
        }
        print_line(output, line.as_slice())?;
    }
    Err(Ended::NoLink)
}

/// Prints the reply to a line: what stands behind its `OK`, or its text, without the line that ends it; or the status line of a file that
/// there is not, and behind what came of a play the one that tells from which place on its records were written over.
pub fn print_reply<I: BufRead, W: Write>(
    alloc: Global,
    asked: &[u8],
    input: &mut I,
    output: &mut W,
) -> Result<(), Ended> {
    let mut line = Vec::new(alloc);
    next_line(input, &mut line)?;
    if let Some(told) = told_of(line.as_slice()) {
        return Err(Ended::Told(told));
    }
    if let Some(why) = no_file(line.as_slice()) {
        print_status(output, b"status 14 ", why)?;
        return Err(Ended::NoFile);
    }
    match line.as_slice() {
        b"OK" => {}
        [b'O', b'K', b' ', rest @ ..] => return print_line(output, rest),
        _ => return Err(Ended::NoLink),
    }
    if WITH_TEXT.iter().any(|begin| asked.starts_with(begin)) {
        return print_text(input, output, &mut line, asked.starts_with(PLAY));
    }
    Ok(())
}
