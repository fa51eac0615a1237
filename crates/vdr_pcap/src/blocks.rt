// Reading a block of pcapng.
ghost use Rattle.std.specs.Prelude.{◌≡◌, ◌≤◌, ◌+◌, ℕ, true, IfOk, length};
ghost use Rattle.vdr_outside.specs.Causes.{HasCause};
ghost use Rattle.vdr_pcap.specs.Blocks.{block_with, fixed_size, has_options, least};
ghost use Rattle.vdr_pcap.specs.Seen.{Fits, IsBody, IsRest, Takes, Tells, standing_of};

use crate::buffers::Buffers;
use crate::filling::{pass, read_all, read_front};
use crate::form::Said;
use crate::numbers::u32_in;
use crate::options::{Noted, read_options};
use crate::saying::{INTERFACE, PACKET, SECTION, STATISTICS, fixed_size, is_bad_length, say};
use crate::unit::Unit;
use vdr_outside::{Failed, Source};

/// What was read of a block behind its bytes at fixed places: what its options note, and how many bytes of a packet were kept.
#[derive(Clone, Copy, Drop)]
pub(crate) struct Rest {
    pub(crate) noted: Option<Noted>,
    pub(crate) kept: usize,
}

// Whether a block of this type has options that are noted.
fn has_options(kind: u32) -> bool
    ensures { result ≡ has_options kind }
{
    kind == INTERFACE || kind == STATISTICS
}

// Reads so many bytes of options.
fn read_noted<I: Source>(
    input: &mut I,
    big: bool,
    kind: u32,
    size: usize,
    buffers: &mut Buffers,
) -> Result<Option<Rest>, Failed>
    requires { has_options kind ≡ true }
    ensures read { IfOk result (λ rest. Takes (I.left input.old) (I.left input.new) size (λ bytes r. IsRest big kind bytes r.noted r.kept buffers.new.front) rest) }
    ensures cause { HasCause (I.faults input.old) (I.faults input.new) result }
{
    let Some(noted) = read_options(input, big, kind, size, &mut buffers.scratch)? else {
        return Ok(None);
    };
    Ok(Some(Rest { noted, kept: 0 }))
}

// Reads so many bytes of a packet.
fn read_kept<I: Source>(
    input: &mut I,
    big: bool,
    size: usize,
    buffers: &mut Buffers,
) -> Result<Option<Rest>, Failed>
    ensures read { IfOk result (λ rest. Takes (I.left input.old) (I.left input.new) size (λ bytes r. IsRest big 6 bytes r.noted r.kept buffers.new.front) rest) }
    ensures cause { HasCause (I.faults input.old) (I.faults input.new) result }
{
    let Some(kept) = read_front(input, size, &mut buffers.front, &mut buffers.scratch)? else {
        return Ok(None);
    };
    Ok(Some(Rest { noted: None, kept }))
}

// Reads so many bytes of a block behind its bytes at fixed places.
fn read_rest<I: Source>(
    input: &mut I,
    big: bool,
    kind: u32,
    size: usize,
    buffers: &mut Buffers,
) -> Result<Option<Rest>, Failed>
    ensures read { IfOk result (λ rest. Takes (I.left input.old) (I.left input.new) size (λ bytes r. IsRest big kind bytes r.noted r.kept buffers.new.front) rest) }
    ensures cause { HasCause (I.faults input.old) (I.faults input.new) result }
{
    if has_options(kind) {
        return read_noted(input, big, kind, size, buffers);
    }
    if kind == PACKET {
        return read_kept(input, big, size, buffers);
    }
    if !pass(input, size, &mut buffers.scratch)? {
        return Ok(None);
    }
    Ok(Some(Rest {
        noted: None,
        kept: 0,
    }))
}

// Reads a block's body of so many bytes, and the length behind it.
fn read_body<I: Source>(
    input: &mut I,
    big: bool,
    kind: u32,
    size: usize,
    fixed: &mut [u8],
    buffers: &mut Buffers,
) -> Result<Option<(Rest, u32)>, Failed>
    requires fixed { length fixed.old ≡ fixed_size kind }
    requires size { fixed_size kind ≤ size }
    ensures read { IfOk result (λ body. Takes (I.left input.old) (I.left input.new) (size + 4)
        (λ bytes b. IsBody big kind size bytes fixed.new b.0.noted b.0.kept buffers.new.front b.1) body) }
    ensures cause { HasCause (I.faults input.old) (I.faults input.new) result }
{
    if !read_all(input, fixed)? {
        return Ok(None);
    }
    let Some(rest) = read_rest(input, big, kind, size - fixed.len(), buffers)? else {
        return Ok(None);
    };
    let mut tail = [0; 4];
    if !read_all(input, &mut tail)? {
        return Ok(None);
    }
    Ok(Some((rest, u32_in(big, 0, &tail))))
}

/// Reads a block with a body of so many bytes, behind which its length stands again.
pub(crate) fn read_block_with<I: Source>(
    input: &mut I,
    big: bool,
    kind: u32,
    len: u32,
    size: usize,
    said: &mut Said,
    buffers: &mut Buffers,
) -> Result<Unit, Failed>
    requires size { fixed_size kind ≤ size }
    requires len { least kind ≤ len }
    ensures read { IfOk result (λ unit. (before : ℕ) → before + size + 4 ≡ len → Tells (I.left input.old) (I.left input.new)
        (block_with big kind len size (standing_of said.old)) before unit (standing_of said.new) buffers.new.front) }
    ensures fits { IfOk result (λ unit. Fits kind 2048 unit) }
    ensures cause { HasCause (I.faults input.old) (I.faults input.new) result }
{
    let mut places = [0; 20];
    let fixed = &mut places[..fixed_size(kind)];
    let Some((rest, again)) = read_body(input, big, kind, size, fixed, buffers)? else {
        return Ok(Unit::Refuses(2));
    };
    if again != len {
        return Ok(Unit::Refuses(4));
    }
    Ok(say(
        said,
        big,
        kind,
        len,
        fixed,
        rest.noted,
        &buffers.front[..rest.kept],
    ))
}
