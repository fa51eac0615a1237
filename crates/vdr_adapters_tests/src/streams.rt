// Standard streams.
use crate::words::expect;
use anyhow::{Result, bail, ensure};
use std::alloc::Global;
use std::fs::{File, OpenOptions};
use std::io::Cursor;
use std::{fs, io};
use vdr_adapters::{StandardStreams, StdIn, StdOut, Trouble};
use vdr_outside::{Sink, Source};

// That a source gives so many bytes.
fn gives<S: Source>(source: &mut S, into: &mut [u8], count: usize) -> Result<()> {
    let Ok(given) = source.read(into) else {
        bail!("it fails");
    };
    ensure!(given == count, "it gives {given}");
    Ok(())
}

// That a sink takes all of these bytes.
fn takes<S: Sink>(sink: &mut S, bytes: &[u8]) -> Result<()> {
    let Ok(taken) = sink.write(bytes) else {
        bail!("it fails");
    };
    ensure!(taken == bytes.len(), "it takes {taken}");
    Ok(())
}

// That what stood in the way begins with these words.
fn is_told(alloc: Global, trouble: Option<&Trouble>, words: &str) -> Result<()> {
    let text = match trouble {
        Some(trouble) => format!(in alloc; "{trouble}")?,
        None => String::new(alloc),
    };
    expect(text.as_str().starts_with(words), "it tells otherwise")
}

// That a source gives `feed`, three bytes first, and then nothing.
fn is_read<S: Source>(source: &mut S) -> Result<()> {
    let mut piece = [0; 3];
    gives(source, &mut piece, 3)?;
    expect(piece == *b"fee", "other bytes")?;
    gives(source, &mut piece, 1)?;
    gives(source, &mut piece, 0)
}

/// Bytes of a reader are handed on.
pub(crate) fn are_read() -> Result<()> {
    let mut input = StdIn::new(Cursor::new(b"feed"));
    is_read(&mut input)?;
    expect(input.trouble().is_none(), "a trouble")
}

/// Bytes are handed on to a writer.
pub(crate) fn are_written(alloc: Global) -> Result<()> {
    let mut output = StdOut::new(Vec::new(alloc));
    takes(&mut output, b"gap")?;
    takes(&mut output, b"")?;
    expect(output.trouble().is_none(), "a trouble")
}

/// A folder can't be read.
pub(crate) fn read_no_folder(rt: &HostRuntime) -> Result<()> {
    let mut input = StdIn::new(File::open(rt, ".")?);
    expect(input.read(&mut [0; 3]).is_err(), "a folder that is read")?;
    is_told(rt.alloc(), input.trouble(), "Is a directory")
}

/// A full device takes nothing.
pub(crate) fn fill_no_device(rt: &HostRuntime) -> Result<()> {
    let mut output = StdOut::new(OpenOptions::new().write(true).open(rt, "/dev/full")?);
    expect(output.write(b"gap").is_err(), "a full device")?;
    is_told(rt.alloc(), output.trouble(), "No space left on device")
}

// A file and what stands in it.
fn is_kept(rt: &HostRuntime) -> io::Result<bool> {
    fs::write(rt, "beside", b"medium")?;
    let bytes = fs::read(rt, "beside")?;
    Ok(bytes.as_slice() == b"medium".as_slice())
}

/// A file that is opened beside filled streams is none of them.
pub(crate) fn are_filled(rt: &HostRuntime) -> Result<()> {
    let filled = StandardStreams::fill(rt)?;
    let is_kept = is_kept(rt);
    drop(filled);
    expect(is_kept?, "other bytes")
}
