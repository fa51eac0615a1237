// Reads of so many bytes, which say where the input ends before.
ghost use Rattle.std.specs.Prelude.{◌≡◌, ◌≤◌, ◌<◌, IfOk, List, ℕ, take, length};
ghost use Rattle.std.specs.Io.KnownBytes.{Consumes, IsAtEnd};
ghost use Rattle.vdr_outside.specs.Causes.{HasCause};
ghost use Rattle.vdr_pcap.specs.Packets.{longest_front};
ghost use Rattle.vdr_pcap.specs.Seen.{Fills, Passes, Takes};

use vdr_outside::{Failed, Source, fill};

/// The longest front of a packet that is looked at.
pub(crate) const LONGEST_FRONT: usize = 2048;

/// Fills the buffer; false where the input ends before.
pub(crate) fn read_all<I: Source>(input: &mut I, into: &mut [u8]) -> Result<bool, Failed>
    ensures read { IfOk result (λ whole. Fills (I.left input.old) (I.left input.new) into.new whole) }
    ensures cause { HasCause (I.faults input.old) (I.faults input.new) result }
{
    let got = fill(input, into)?;
    if got < into.len() {
        return Ok(false);
    }
    Ok(true)
}

/// Passes over so many bytes; false where the input ends before. What stands in the scratch is of no matter.
pub(crate) fn pass<I: Source>(
    input: &mut I,
    size: usize,
    scratch: &mut [u8; LONGEST_FRONT],
) -> Result<bool, Failed>
    ensures read { IfOk result (λ whole. Passes (I.left input.old) (I.left input.new) size whole) }
    ensures cause { HasCause (I.faults input.old) (I.faults input.new) result }
{
    let mut left = size;
    while left > 0 {
        let piece = left.min(LONGEST_FRONT);
        if !read_all(input, &mut scratch[..piece])? {
            return Ok(false);
        }
        left -= piece;
    }
    Ok(true)
}

/// Reads so many bytes, of which the first 2,048 are kept, and says how many these are; None where the input ends before.
pub(crate) fn read_front<I: Source>(
    input: &mut I,
    size: usize,
    front: &mut [u8; LONGEST_FRONT],
    scratch: &mut [u8; LONGEST_FRONT],
) -> Result<Option<usize>, Failed>
    ensures read { IfOk result (λ kept. Takes (I.left input.old) (I.left input.new) size
        (λ bytes n. (n ≤ 2048) × (take n front.new ≡ take longest_front bytes)) kept) }
    ensures cause { HasCause (I.faults input.old) (I.faults input.new) result }
{
    let kept = size.min(LONGEST_FRONT);
    if !read_all(input, &mut front[..kept])? {
        return Ok(None);
    }
    if !pass(input, size - kept, scratch)? {
        return Ok(None);
    }
    Ok(Some(kept))
}
