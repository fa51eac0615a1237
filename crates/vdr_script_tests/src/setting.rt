// What stands around the next command: calls that fail, ports and links.
use crate::escapes::{first_word, number, small_number, unescaped};
use anyhow::{Context, Result, ensure};
use std::alloc::{AllocError, Global};
use vdr_capture::Lane;
use vdr_memory::{LinkLine, LinkPlan, MemoryLink, MemoryPort, PortItem, are_in_order};
use vdr_session::{Desk, Mark, Piece};

#[derive(Drop)]
pub(crate) struct Setting {
    alloc: Global,
    /// After how many writes and syncs of the media the power goes.
    pub(crate) stop: Option<u64>,
    /// Which calls of the media, of the input and of the output fail, by their numbers from 0.
    pub(crate) failing: Vec<u64>,
    pub(crate) failing_reads: Vec<u64>,
    pub(crate) failing_writes: Vec<u64>,
    /// The text that a stored file is once it was read, where that is another one.
    pub(crate) later: Option<String>,
    given: Vec<Given>,
    // The groups of ports, and the takes that fail and that find none.
    failing_takes: Vec<(u8, u64)>,
    quiet_takes: Vec<(u8, u64)>,
    links: Vec<LinkSetting>,
}

// A datagram of a group's port, received so many milliseconds after capture began.
#[derive(Drop)]
struct Given {
    group: u8,
    received: u64,
    bytes: Vec<u8>,
}

#[derive(Drop)]
struct LinkSetting {
    lines: Vec<LinkLine>,
    failing: Vec<u64>,
    refusing: Vec<u64>,
}

// The numbers of a group's takes.
fn takes_of(alloc: Global, group: u8, takes: &[(u8, u64)]) -> Result<Vec<u64>, AllocError> {
    let mut numbers = Vec::new(alloc);
    for (of, number) in takes {
        if *of == group {
            numbers.push(*number)?;
        }
    }
    Ok(numbers)
}

// Appends a number.
fn push_number(numbers: &mut Vec<u64>, word: &str) -> Result<()> {
    numbers.push(number(word)?)?;
    Ok(())
}

// Appends the group and the number of a take.
fn push_take(takes: &mut Vec<(u8, u64)>, rest: &str) -> Result<()> {
    let (group, take) = first_word(rest)?;
    takes.push((small_number(group)?, number(take)?))?;
    Ok(())
}

impl Setting {
    /// Nothing fails, and no port and no link has anything to give.
    pub(crate) fn new(alloc: Global) -> Setting {
        Setting {
            alloc,
            stop: None,
            failing: Vec::new(alloc),
            failing_reads: Vec::new(alloc),
            failing_writes: Vec::new(alloc),
            later: None,
            given: Vec::new(alloc),
            failing_takes: Vec::new(alloc),
            quiet_takes: Vec::new(alloc),
            links: Vec::new(alloc),
        }
    }

    /// Whether the media are to stop, or a call of theirs is to fail.
    pub(crate) fn fails_media(&self) -> bool {
        self.stop.is_some() || !self.failing.is_empty()
    }

    fn port(&self, group: u8) -> Result<MemoryPort> {
        let alloc = self.alloc;
        let mut items = Vec::new(alloc);
        for given in self.given.iter() {
            if given.group == group {
                ensure!(given.received <= 1_000_000, "too late");
                items.push(PortItem {
                    received: given.received,
                    utc: 0,
                    bytes: given.bytes.as_slice().to_vec(alloc)?,
                })?;
            }
        }
        ensure!(are_in_order(items.as_slice()), "out of order");
        let failing = takes_of(alloc, group, self.failing_takes.as_slice())?;
        let quiet = takes_of(alloc, group, self.quiet_takes.as_slice())?;
        Ok(MemoryPort::new(items, failing, quiet))
    }

    /// The lanes of all groups.
    pub(crate) fn lanes(&self) -> Result<Vec<Lane<MemoryPort>>> {
        let mut lanes = Vec::new(self.alloc);
        for group in 0..16u8 {
            lanes.push(Lane::new(self.port(group)?, group))?;
        }
        Ok(lanes)
    }

    /// The desks of the links.
    pub(crate) fn into_desks(self) -> Result<Vec<Desk<MemoryLink, Mark>>, AllocError> {
        let alloc = self.alloc;
        let mut desks = Vec::new(alloc);
        for link in self.links {
            let plan = LinkPlan {
                failing: link.failing,
                quiet: Vec::new(alloc),
                refusing: link.refusing,
            };
            let piece = Box::new(alloc, Piece::new())?;
            desks.push(Desk::new(MemoryLink::new(alloc, link.lines, plan), piece))?;
        }
        Ok(desks)
    }

    fn give(&mut self, rest: &str) -> Result<()> {
        let (group, rest) = first_word(rest)?;
        let (received, bytes) = first_word(rest)?;
        self.given.push(Given {
            group: small_number(group)?,
            received: number(received)?,
            bytes: unescaped(self.alloc, bytes)?,
        })?;
        Ok(())
    }

    // The link that was named last.
    fn link(&mut self) -> Result<&mut LinkSetting> {
        self.links.last_mut().context("no link")
    }

    fn begin_link(&mut self) -> Result<()> {
        self.links.push(LinkSetting {
            lines: Vec::new(self.alloc),
            failing: Vec::new(self.alloc),
            refusing: Vec::new(self.alloc),
        })?;
        Ok(())
    }

    fn ask(&mut self, rest: &str) -> Result<()> {
        let bytes = unescaped(self.alloc, rest)?;
        self.link()?.lines.push(LinkLine { bytes })?;
        Ok(())
    }

    fn stop_behind(&mut self, rest: &str) -> Result<()> {
        self.stop = Some(number(rest)?);
        Ok(())
    }

    fn change_later(&mut self, name: &str) -> Result<()> {
        self.later = Some(String::from_str(self.alloc, name)?);
        Ok(())
    }

    fn fail_line(&mut self, rest: &str) -> Result<()> {
        push_number(&mut self.link()?.failing, rest)
    }

    fn fail_reply(&mut self, rest: &str) -> Result<()> {
        push_number(&mut self.link()?.refusing, rest)
    }

    // Follows a line on ports and links.
    fn follow_lanes(&mut self, verb: &str, rest: &str) -> Option<Result<()>> {
        let done = match verb {
            "give" => self.give(rest),
            "fail-take" => push_take(&mut self.failing_takes, rest),
            "quiet-take" => push_take(&mut self.quiet_takes, rest),
            "link" => self.begin_link(),
            "ask" => self.ask(rest),
            "fail-line" => self.fail_line(rest),
            "fail-reply" => self.fail_reply(rest),
            _ => return None,
        };
        Some(done)
    }

    /// Follows a line on what stands around the next command. None where it is none.
    pub(crate) fn follow(&mut self, verb: &str, rest: &str) -> Option<Result<()>> {
        let done = match verb {
            "stop" => self.stop_behind(rest),
            "fail" => push_number(&mut self.failing, rest),
            "fail-read" => push_number(&mut self.failing_reads, rest),
            "fail-write" => push_number(&mut self.failing_writes, rest),
            "later" => self.change_later(rest),
            _ => return self.follow_lanes(verb, rest),
        };
        Some(done)
    }
}
