// The contents of media in memory, each of them bytes.
ghost use Rattle.std.specs.Prelude.{◌≡◌, ◌+◌, ◌<◌, ◌≤◌, length, map, replicate, slice_range, IfOk};
ghost use Rattle.vdr_outside.specs.Disk.{InRange, content, over, written};
ghost use Rattle.vdr_memory.specs.Contents.{contents};

use std::alloc::{AllocError, Global};

// The bytes of a medium, none where there is no such medium.
pub(crate) fn bytes_of(media: &[Vec<u8>], m: u8) -> &[u8]
    ensures { result.now ≡ content (contents media.now) m }
{
    match media.get(m as usize) {
        Some(medium) => medium.as_slice(),
        None => &[],
    }
}

// Reads a range of a medium.
pub(crate) fn read_range(media: &[Vec<u8>], m: u8, at: u64, into: &mut [u8])
    requires { InRange (map length (contents media.now)) m at (length into.old) }
    ensures { into.new ≡ slice_range (content (contents media.now) m) at (at + length into.old) }
{
    let from = at as usize;
    into.copy_from_slice(&bytes_of(media, m)[from..from + into.len()]);
}

// Puts bytes in place of others. What would stand past the end is lost.
fn overwrite(medium: &mut [u8], at: u64, bytes: &[u8])
    ensures { medium.new ≡ over medium.old at bytes.now }
{
    let from = medium.len().min(at as usize);
    let room = medium.len() - from;
    let count = room.min(bytes.len());
    medium[from..from + count].copy_from_slice(&bytes[..count]);
}

// Puts one byte in place of so many others. What would stand past the end is lost.
fn fill(medium: &mut [u8], at: u64, count: usize, byte: u8)
    ensures { medium.new ≡ over medium.old at (replicate count byte) }
{
    let from = medium.len().min(at as usize);
    let count = count.min(medium.len() - from);
    medium[from..from + count].fill(byte);
}

// Puts bytes in place of others on one medium.
pub(crate) fn overwrite_at(media: &mut [Vec<u8>], m: u8, at: u64, bytes: &[u8])
    ensures { contents media.new ≡ written (contents media.old) m at bytes.now }
{
    let m = m as usize;
    if m < media.len() {
        let medium = &mut media[m];
        overwrite(medium, at, bytes);
    }
}

// Puts one byte in place of so many others on one medium.
pub(crate) fn fill_at(media: &mut [Vec<u8>], m: u8, at: u64, count: usize, byte: u8)
    ensures { contents media.new ≡ written (contents media.old) m at (replicate count byte) }
{
    let m = m as usize;
    if m < media.len() {
        let medium = &mut media[m];
        fill(medium, at, count, byte);
    }
}

// A copy of the contents of all media.
pub(crate) fn copies(alloc: Global, media: &[Vec<u8>]) -> Result<Vec<Vec<u8>>, AllocError>
    ensures { IfOk result (λ all. contents all.items ≡ contents media.now) }
{
    let mut all = Vec::new(alloc);
    for medium in media {
        all.push(medium.to_vec(alloc)?)?;
    }
    Ok(all)
}
