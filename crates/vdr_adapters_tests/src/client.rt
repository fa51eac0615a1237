// Replies of a recorder, as the client tells them.
use crate::words::{cut, expect, first_word, small_number, unescaped};
use anyhow::{Result, ensure};
use std::alloc::Global;
use std::io::Cursor;
use vdr_client::print_reply;

// What is printed of a reply to what was asked, with the line of its status behind it; and the number of that.
fn told(alloc: Global, asked: &[u8], reply: &[u8]) -> Result<(u8, Vec<u8>)> {
    let mut output = Vec::new(alloc);
    let mut input = Cursor::new(reply);
    match print_reply(alloc, asked, &mut input, &mut output) {
        Ok(()) => Ok((0, output)),
        Err(ended) => {
            output.extend_from_slice(ended.line().as_bytes())?;
            Ok((ended.code(), output))
        }
    }
}

// That what is printed is this text.
fn is_text(alloc: Global, printed: &[u8], text: &str) -> Result<()> {
    let text = unescaped(alloc, text)?;
    expect(printed == text.as_bytes(), "another text")
}

// That a reply is told with this number and this text.
fn is_told(alloc: Global, code: u8, asked: &str, reply: &str, text: &str) -> Result<()> {
    let reply = unescaped(alloc, reply)?;
    let (found, printed) = told(alloc, asked.as_bytes(), reply.as_bytes())?;
    ensure!(found == code, "it ends with {found}");
    is_text(alloc, printed.as_slice(), text)
}

/// That a reply is told as a line says: `CODE ASKED|REPLY|PRINTED`.
pub(crate) fn tells(alloc: Global, line: &str) -> Result<()> {
    let (code, rest) = first_word(line);
    let (asked, rest) = cut(rest, '|');
    let (reply, text) = cut(rest, '|');
    is_told(alloc, small_number(code)?, asked, reply, text)
}
