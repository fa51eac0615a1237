// Reading so many bytes, in whatever pieces they come.
ghost use Rattle.std.specs.Prelude.{◌≡◌, ◌≤◌, ◌<◌, ℕ, List, length, take, IfOk, OnErr};
ghost use Rattle.std.specs.Io.KnownBytes.{Consumes, IsAtEnd};
ghost use Rattle.vdr_outside.specs.Causes.{HasCause};
ghost use Rattle.vdr_outside.specs.Filling.{ReadsFewer};

use crate::{Failed, Source};

/// Fills the buffer, or a front of it where the input ends, and says how many bytes were read. The fault of a source is
/// handed on.
pub fn fill<I: Source>(input: &mut I, into: &mut [u8]) -> Result<usize, Failed>
    ensures bound { IfOk result (λ n. n ≤ length into.new) }
    ensures bytes { IfOk result (λ n. Consumes (I.left input.old) (I.left input.new) (take n into.new)) }
    ensures end { IfOk result (λ n. n < length into.new → IsAtEnd (I.left input.new)) }
    ensures part { OnErr result (ReadsFewer (length into.new) (I.left input.old) (I.left input.new)) }
    ensures cause { HasCause (I.faults input.old) (I.faults input.new) result }
{
    let mut done = 0;
    while done < into.len() {
        let count = input.read(&mut into[done..])?;
        if count == 0 {
            return Ok(done);
        }
        done += count;
    }
    Ok(done)
}
