// The command that was run last, and what is expected of it.
use crate::asking::Ran;
use crate::paths;
use crate::words::{first_word, unescaped};
use anyhow::{Context, Result};
use std::alloc::Global;
use std::{fs, io};

/// What goes on from one line to the next.
#[derive(Drop)]
pub(crate) struct Bench {
    alloc: Global,
    ran: Option<Ran>,
    number: usize,
    count: u64,
    // What is expected: the standard output, the standard error, and the exit status where no line of the output tells it.
    printed: Vec<u8>,
    told: String,
    code: Option<u8>,
}

// The number in a line of a status at the end of a text, 0 where there is none.
fn code_of(text: &[u8]) -> u8 {
    let Some(front) = text.strip_suffix(b"\n") else {
        return 0;
    };
    let last = front.rsplit(|byte| *byte == b'\n').next().unwrap_or(&[]);
    let Ok(last) = str::from_utf8(last) else {
        return 0;
    };
    let words = last.strip_prefix("status ").unwrap_or("");
    first_word(words).0.parse::<u8>().unwrap_or(0)
}

impl Bench {
    pub(crate) fn new(alloc: Global) -> Bench {
        Bench {
            alloc,
            ran: None,
            number: 0,
            count: 0,
            printed: Vec::new(alloc),
            told: String::new(alloc),
            code: None,
        }
    }

    /// How many commands were run.
    pub(crate) fn count(&self) -> u64 {
        self.count
    }

    // Whether the command left what is expected.
    fn is_met(&self, ran: &Ran) -> bool {
        let code = self.code.unwrap_or(code_of(self.printed.as_slice()));
        ran.code == code
            && ran.printed.as_slice() == self.printed.as_slice()
            && ran.told.as_str() == self.told.as_str()
    }

    /// Tells what the last command left, where something else is expected.
    pub(crate) fn settle<R: AllocGlobal + Print>(&mut self, rt: &R, name: &str) -> io::Result<()> {
        let Some(ran) = self.ran.take() else {
            return Ok(());
        };
        if !self.is_met(&ran) {
            let printed = String::from_utf8_lossy(rt.alloc(), ran.printed.as_slice())?;
            println!(rt;
                "{name}:{}: it ended with {}, printed",
                self.number, ran.code
            )?;
            println!(rt; "{printed}and told")?;
            println!(rt; "{}", ran.told)?;
        }
        Ok(())
    }

    /// Takes what the command of this line left, of which nothing is expected yet.
    pub(crate) fn take(&mut self, number: usize, ran: Ran) {
        self.printed.clear();
        self.told.clear();
        self.code = None;
        self.number = number;
        self.count = self.count.saturating_add(1);
        self.ran = Some(ran);
    }

    // Expects this line, as it stands, and its end.
    fn expect_line(&mut self, text: &str) -> Result<()> {
        self.printed.extend_from_slice(text.as_bytes())?;
        self.printed.push(b'\n')?;
        Ok(())
    }

    fn expect_bytes(&mut self, text: &str) -> Result<()> {
        let bytes = unescaped(self.alloc, text)?;
        self.printed.extend_from_slice(bytes.as_slice())?;
        Ok(())
    }

    fn expect_told(&mut self, text: &str) -> Result<()> {
        self.told.push_str(text)?;
        self.told.push('\n')?;
        Ok(())
    }

    fn expect_status(&mut self, word: &str) -> Result<()> {
        self.code = Some(word.parse::<u8>().context("no status")?);
        Ok(())
    }

    // Expects the bytes of a file.
    fn expect_file(&mut self, rt: &HostRuntime, path: &str) -> Result<()> {
        let bytes = fs::read(rt, path)?;
        self.printed.extend_from_slice(bytes.as_slice())?;
        Ok(())
    }

    /// Follows a line of a script that runs no command.
    pub(crate) fn follow(&mut self, rt: &HostRuntime, verb: &str, rest: &str) -> Result<()> {
        match verb {
            ">" => self.expect_line(rest),
            "=" => self.expect_bytes(rest),
            "is" => self.expect_file(rt, rest),
            "!" => self.expect_told(rest),
            "status" => self.expect_status(rest),
            _ => paths::follow(rt, verb, rest),
        }
    }
}
