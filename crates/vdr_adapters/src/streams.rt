// The standard input as a source of bytes, and the standard output as a sink.
use crate::Trouble;
use std::io;
use std::io::{ErrorKind, Read, Write};
use vdr_outside::{Failed, Sink, Source};

/// Bytes from a reader, such as the standard input. A read that fails is counted.
#[derive(Drop)]
pub struct StdIn<R: Read + Drop> {
    reader: R,
    faults: u64,
    trouble: Option<Trouble>,
}

impl<R: Read + Drop> StdIn<R> {
    /// A source over a reader, of which nothing has failed.
    pub fn new(reader: R) -> StdIn<R> {
        StdIn {
            reader,
            faults: 0,
            trouble: None,
        }
    }

    /// Why the last read that failed did so.
    pub fn trouble(&self) -> Option<&Trouble> {
        self.trouble.as_ref()
    }
}

impl<R: Read + Drop> Source for StdIn<R> {
    ghost left = { λ s. R.remaining s.reader };

    ghost faults = { λ s. s.faults };

    fn read(&mut self, into: &mut [u8]) -> Result<usize, Failed> {
        match self.reader.read(into) {
            Ok(count) => Ok(count),
            Err(error) => {
                self.faults = self.faults.saturating_add(1);
                self.trouble = Some(Trouble::System(error));
                Err(Failed)
            }
        }
    }
}

/// Bytes to a writer, such as the standard output. A write that fails, or that takes nothing of some bytes, is counted.
#[derive(Drop)]
pub struct StdOut<W: Write + Drop> {
    writer: W,
    faults: u64,
    trouble: Option<Trouble>,
}

impl<W: Write + Drop> StdOut<W> {
    /// A sink over a writer, of which nothing has failed.
    pub fn new(writer: W) -> StdOut<W> {
        StdOut {
            writer,
            faults: 0,
            trouble: None,
        }
    }

    /// Why the last write that failed did so.
    pub fn trouble(&self) -> Option<&Trouble> {
        self.trouble.as_ref()
    }
}

impl<W: Write + Drop> Sink for StdOut<W> {
    ghost taken = { λ s. W.contents s.writer };

    ghost faults = { λ s. s.faults };

    fn write(&mut self, bytes: &[u8]) -> Result<usize, Failed> {
        let error = match self.writer.write(bytes) {
            Ok(count) if count > 0 => return Ok(count),
            Ok(_) if bytes.is_empty() => return Ok(0),
            Ok(_) => io::Error::from(ErrorKind::WriteZero),
            Err(error) => error,
        };
        self.faults = self.faults.saturating_add(1);
        self.trouble = Some(Trouble::System(error));
        Err(Failed)
    }
}
