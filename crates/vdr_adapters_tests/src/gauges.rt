// What is gauged of the host beside the port and the link of a script.
use crate::words::{expect, first_word, number, port_number, small_number};
use anyhow::Result;
use std::time::Duration;
use vdr_sockets::{LastHeard, drops_in};

// The number that a word spells, `-` for none.
fn told(word: &str) -> Result<Option<u64>> {
    if word == "-" {
        return Ok(None);
    }
    Ok(Some(number(word)?))
}

/// That so many datagrams were dropped for a port, by a row of the host's table.
pub(crate) fn drops(rest: &str) -> Result<()> {
    let (port, rest) = first_word(rest);
    let (count, row) = first_word(rest);
    let drops = drops_in(row.as_bytes(), port_number(port)?);
    expect(drops == told(count)?, "another count")
}

// That a group was heard so many milliseconds before now, and another one never.
fn is_heard(heard: &LastHeard, group: u8, now: Duration, ago: Option<u64>) -> Result<()> {
    expect(heard.ago(group, now) == ago, "another time")?;
    expect(heard.ago(15, now).is_none(), "heard")
}

// That a group whose last datagram came then was heard so long before now: the words `NOW AGO`.
fn is_ago(group: u8, received: u64, rest: &str) -> Result<()> {
    let (now, ago) = first_word(rest);
    let now = Duration::from_millis(number(now)?);
    let heard = LastHeard::new(Duration::ZERO);
    heard.note(u16::from(group), received);
    is_heard(&heard, group, now, told(ago)?)
}

/// That a group was heard so long before now: the words `GROUP RECEIVED NOW AGO`, all times in milliseconds.
pub(crate) fn ago(rest: &str) -> Result<()> {
    let (group, rest) = first_word(rest);
    let (received, rest) = first_word(rest);
    is_ago(small_number(group)?, number(received)?, rest)
}
