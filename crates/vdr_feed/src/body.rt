// Reading a body: its first bytes are kept, and the others are passed over.
ghost use Rattle.std.specs.Prelude.{◌≡◌, ◌≤◌, ◌<◌, ℕ, List, [], length, take, IfOk, OnErr};
ghost use Rattle.std.specs.Io.KnownBytes.{Consumes, IsAtEnd};
ghost use Rattle.vdr_outside.specs.Causes.{HasCause};
ghost use Rattle.vdr_feed.specs.Body.{ReadsBody};
ghost use Rattle.vdr_outside.specs.Filling.{ReadsFewer};

use arrayvec::ArrayVec;
use vdr_outside::{Failed, LONGEST_TAKEN, Source, fill};

// Passes over so many bytes, or fewer where the input ends. It says how many.
fn skip<I: Source>(
    input: &mut I,
    count: usize,
    scratch: &mut [u8; LONGEST_TAKEN],
) -> Result<usize, Failed>
    ensures bytes { IfOk result (λ n. (bytes : List ℕ) × (length bytes ≡ n) × Consumes (I.left input.old) (I.left input.new) bytes) }
    ensures bound { IfOk result (λ n. n ≤ count) }
    ensures end { IfOk result (λ n. n < count → IsAtEnd (I.left input.new)) }
    ensures part { OnErr result (ReadsFewer count (I.left input.old) (I.left input.new)) }
    ensures cause { HasCause (I.faults input.old) (I.faults input.new) result }
{
    let mut left = count;
    while left > 0 {
        let piece = left.min(LONGEST_TAKEN);
        let got = fill(input, &mut scratch[..piece])?;
        left -= got;
        if got < piece {
            return Ok(count - left);
        }
    }
    Ok(count)
}

// Puts these bytes in the place of those that are held.
fn refill(into: &mut ArrayVec<u8, LONGEST_TAKEN>, bytes: &[u8])
    requires { length bytes.now ≤ 1473 }
    ensures { into.new.items ≡ bytes.now }
{
    into.clear();
    let _ = into.try_extend_from_slice(bytes);
}

/// Reads a body of so many bytes, of which the first 1,473 are kept. It answers false where the input ends before. What stands
/// in the scratch is of no matter.
pub(crate) fn read_body<I: Source>(
    input: &mut I,
    len: usize,
    scratch: &mut [u8; LONGEST_TAKEN],
    into: &mut ArrayVec<u8, LONGEST_TAKEN>,
) -> Result<bool, Failed>
    ensures body { IfOk result (λ whole. ReadsBody (I.left input.old) (I.left input.new) len whole into.new.items) }
    ensures part { OnErr result (ReadsFewer len (I.left input.old) (I.left input.new)) }
    ensures cause { HasCause (I.faults input.old) (I.faults input.new) result }
{
    let kept = len.min(LONGEST_TAKEN);
    let part = &mut scratch[..kept];
    let got = fill(input, part)?;
    if got < kept {
        return Ok(false);
    }
    refill(into, part);
    let passed = skip(input, len - kept, scratch)?;
    if passed < len - kept {
        return Ok(false);
    }
    Ok(true)
}
