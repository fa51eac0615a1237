// What a command printed, what was replied over its link, and what it did with the media.
use crate::escapes::{first_word, number, small_number, unescaped};
use anyhow::{Context, Result, ensure};
use std::alloc::Global;
use vdr_memory::CallCounts;

/// Where the lines of a script go over an output from its front to its end.
#[derive(Drop)]
pub(crate) struct Output {
    bytes: Vec<u8>,
    passed: usize,
}

impl Output {
    pub(crate) fn new(bytes: Vec<u8>) -> Output {
        Output { bytes, passed: 0 }
    }

    /// What no line has gone over yet.
    pub(crate) fn left(&self) -> &[u8] {
        self.bytes.get(self.passed..).unwrap_or(&[])
    }

    /// Goes over these bytes.
    pub(crate) fn pass(&mut self, bytes: &[u8]) -> Result<()> {
        ensure!(self.left().starts_with(bytes), "something else is printed");
        self.passed = self.passed.saturating_add(bytes.len());
        Ok(())
    }

    // Goes over this line.
    fn pass_line(&mut self, line: &str) -> Result<()> {
        self.pass(line.as_bytes())?;
        self.pass(b"\n")
    }

    // Goes over the next line, whatever it is.
    fn skip_line(&mut self) -> Result<()> {
        let end = self.left().iter().position(|byte| *byte == b'\n');
        let end = end.context("too few lines are printed")?;
        self.passed = self.passed.saturating_add(end).saturating_add(1);
        Ok(())
    }

    // Goes over so many lines.
    fn skip(&mut self, count: &str) -> Result<()> {
        for _ in 0..number(count)? {
            self.skip_line()?;
        }
        Ok(())
    }

    // Goes over a line at its end.
    fn end(&mut self, line: &str) -> Result<()> {
        let left = self.left();
        let front = left.strip_suffix(b"\n").context("no line is printed")?;
        let front = front
            .strip_suffix(line.as_bytes())
            .context("it ends otherwise")?;
        let length = self.passed.saturating_add(front.len());
        self.bytes.truncate(length);
        Ok(())
    }

    fn text(&self) -> Result<&str> {
        Ok(str::from_utf8(self.bytes.as_slice())?)
    }

    /// Goes over all that is left.
    pub(crate) fn pass_all(&mut self) {
        self.passed = self.bytes.len();
    }

    // That nothing is left.
    fn is_passed(&self) -> Result<()> {
        ensure!(self.left().is_empty(), "more is replied");
        Ok(())
    }
}

// That a count is this number.
fn is_count(count: u64, word: &str) -> Result<()> {
    ensure!(count == number(word)?, "another number");
    Ok(())
}

/// A command that was run.
#[derive(Drop)]
pub(crate) struct Ran {
    pub(crate) alloc: Global,
    /// Its exit status, and that which is expected of it.
    pub(crate) code: u8,
    pub(crate) expected: u8,
    pub(crate) printed: Output,
    /// How many writes of the output there were.
    pub(crate) writes: u64,
    pub(crate) replied: Output,
    /// How often the link was asked for a line.
    pub(crate) asked: u64,
    /// The calls of the media, and how many bytes of each were read.
    pub(crate) made: CallCounts,
    pub(crate) read: [u64; 2],
}

// The number in a line of a status at the end of a text, 0 where there is none.
fn code_of(text: &[u8]) -> u8 {
    let Ok(text) = str::from_utf8(text) else {
        return 0;
    };
    let Some(last) = text.lines().next_back() else {
        return 0;
    };
    let Some(words) = last.strip_prefix("status ") else {
        return 0;
    };
    match words.split_once(' ') {
        Some((code, _)) => code.parse::<u8>().unwrap_or(0),
        None => 0,
    }
}

impl Ran {
    /// No command.
    pub(crate) fn none(alloc: Global) -> Ran {
        Ran {
            alloc,
            code: 0,
            expected: 0,
            printed: Output::new(Vec::new(alloc)),
            writes: 0,
            replied: Output::new(Vec::new(alloc)),
            asked: 0,
            made: CallCounts {
                reads: 0,
                writes: 0,
                syncs: 0,
            },
            read: [0; 2],
        }
    }

    /// Expects the status that is printed at the end, 0 where none is.
    pub(crate) fn expect_printed(&mut self) {
        self.expected = code_of(self.printed.left());
    }

    /// That all it printed was gone over, and its exit status is the expected one.
    pub(crate) fn end(&self) -> Result<()> {
        ensure!(
            self.printed.left().is_empty(),
            "the command before printed more"
        );
        ensure!(
            self.code == self.expected,
            "the command before has another status"
        );
        Ok(())
    }

    // Whether so many lines have this word.
    fn count(&self, rest: &str) -> Result<()> {
        let (count, word) = first_word(rest)?;
        let word = unescaped(self.alloc, word)?;
        let word = str::from_utf8(word.as_slice())?;
        let lines = self.printed.text()?.lines();
        let found = lines.filter(|line| line.contains(word)).count();
        ensure!(found as u64 == number(count)?, "another number of lines");
        Ok(())
    }

    // Whether there are so many lines.
    fn lines(&self, rest: &str) -> Result<()> {
        let found = self.printed.text()?.lines().count();
        ensure!(found as u64 == number(rest)?, "another number of lines");
        Ok(())
    }

    // Goes over these bytes.
    fn pass_bytes(&mut self, rest: &str) -> Result<()> {
        let bytes = unescaped(self.alloc, rest)?;
        self.printed.pass(bytes.as_slice())
    }

    // Whether so many lines begin a record: a line with two spaces before it belongs to the record above.
    fn records(&self, rest: &str) -> Result<()> {
        let lines = self.printed.text()?.lines();
        let found = lines.filter(|line| !line.starts_with("  ")).count();
        ensure!(found as u64 == number(rest)?, "another number of records");
        Ok(())
    }

    // Whether at most so many bytes of a medium were read.
    fn most_read(&self, rest: &str) -> Result<()> {
        let (medium, most) = first_word(rest)?;
        let read = self.read.get(small_number(medium)? as usize);
        let read = *read.context("no such medium")?;
        ensure!(read <= number(most)?, "more bytes are read");
        Ok(())
    }

    // Expects this status.
    fn expect(&mut self, rest: &str) -> Result<()> {
        self.expected = small_number(rest)?;
        Ok(())
    }

    // Follows a line that goes over what is printed or replied.
    fn pass(&mut self, verb: &str, rest: &str) -> Option<Result<()>> {
        let done = match verb {
            ">" => self.printed.pass_line(rest),
            "=" => self.pass_bytes(rest),
            "ends" => self.printed.end(rest),
            "skip" => self.printed.skip(rest),
            "<" => self.replied.pass_line(rest),
            "status" => self.expect(rest),
            _ => return None,
        };
        Some(done)
    }

    // Follows a line on what was printed and done.
    fn tell(&self, verb: &str, rest: &str) -> Option<Result<()>> {
        let done = match verb {
            "count" => self.count(rest),
            "lines" => self.lines(rest),
            "records" => self.records(rest),
            "writes" => is_count(self.writes, rest),
            "replied" => self.replied.is_passed(),
            "asked" => is_count(self.asked, rest),
            "changes" => is_count(self.made.changes(), rest),
            "read" => self.most_read(rest),
            _ => return None,
        };
        Some(done)
    }

    /// Follows a line on what a command printed and did. None where it is none.
    pub(crate) fn follow(&mut self, verb: &str, rest: &str) -> Option<Result<()>> {
        if verb == "rest" {
            self.printed.pass_all();
            return Some(Ok(()));
        }
        match self.pass(verb, rest) {
            Some(done) => Some(done),
            None => self.tell(verb, rest),
        }
    }
}
