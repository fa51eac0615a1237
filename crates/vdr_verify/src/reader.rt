// Reading a file piece by piece.
ghost use Rattle.std.specs.Prelude.{◌≡◌, ◌≤◌, ◌<◌, ◌^◌, ◌++◌, [], ℕ, List, length, IfOk, IfSome};
ghost use Rattle.sha2.specs.Sha256.{sha256};
ghost use Rattle.vdr_bytes.specs.Numbers.{le_u32};
ghost use Rattle.vdr_outside.specs.Causes.{HasCause};

use sha2::{Digest, Sha256};
use vdr_bytes::u32_at;
use vdr_outside::{Failed, Source, fill};

/// What was read of a file so far: its hash, and how many bytes it has. The number stands still at the greatest u64.
#[derive(Drop)]
pub(crate) struct Reader {
    pub(crate) hasher: Sha256,
    pub(crate) offset: u64,
}

/// The number that four bytes spell.
pub(crate) fn number_in(bytes: &[u8]) -> u32
    requires { length bytes.now ≡ 4 }
    ensures { bytes.now ≡ le_u32 result }
{
    u32_at(bytes, 0)
}

impl Reader {
    ghost use Rattle.vdr_verify.specs.Reading.{Expects, HasRead, Takes, TakesPart};

    /// Nothing was read.
    pub(crate) fn new() -> Reader
        ensures { HasRead result [] }
    {
        Reader {
            hasher: Sha256::new(),
            offset: 0,
        }
    }

    /// The SHA-256 of what was read.
    pub(crate) fn digest(&self) -> [u8; 32]
        ensures { (front : List ℕ) → HasRead self.now front → result ≡ sha256 front }
    {
        self.hasher.clone().unwrap().finalize()
    }

    // One piece more.
    fn add(&mut self, piece: &[u8])
        ensures { (front : List ℕ) → HasRead self.old front → HasRead self.new (front ++ piece.now) }
    {
        self.hasher.update(piece);
        self.offset = self.offset.saturating_add(piece.len() as u64);
    }

    /// Fills the buffer. False where the input has fewer bytes.
    pub(crate) fn take<I: Source>(&mut self, input: &mut I, into: &mut [u8]) -> Result<bool, Failed>
        ensures takes { Takes (I.left input.old) (I.left input.new) self.old self.new into.new result }
        ensures cause { HasCause (I.faults input.old) (I.faults input.new) result }
    {
        let count = fill(input, into)?;
        if count < into.len() {
            return Ok(false);
        }
        self.add(into);
        Ok(true)
    }

    /// Reads as many bytes, which have to be these. False where others stand there.
    pub(crate) fn expect<I: Source>(
        &mut self,
        input: &mut I,
        wanted: &[u8],
        into: &mut [u8],
    ) -> Result<bool, Failed>
        requires { length into.old ≡ length wanted.now }
        ensures expects { Expects (I.left input.old) (I.left input.new) self.old self.new wanted.now result }
        ensures cause { HasCause (I.faults input.old) (I.faults input.new) result }
    {
        if !self.take(input, into)? {
            return Ok(false);
        }
        Ok(&*into == wanted)
    }

    /// Reads a part, and says how many bytes it has. None where no part stands there for which there is room.
    pub(crate) fn part<I: Source>(
        &mut self,
        input: &mut I,
        into: &mut [u8],
    ) -> Result<Option<usize>, Failed>
        requires { length into.old < 2 ^ 32 }
        ensures within { IfOk result (λ found. IfSome found (λ size. size ≤ length into.new)) }
        ensures takes { TakesPart (I.left input.old) (I.left input.new) self.old self.new into.new result }
        ensures cause { HasCause (I.faults input.old) (I.faults input.new) result }
    {
        let mut length = [0; 4];
        if !self.take(input, &mut length)? {
            return Ok(None);
        }
        let size = number_in(&length) as usize;
        if size > into.len() {
            return Ok(None);
        }
        if !self.take(input, &mut into[..size])? {
            return Ok(None);
        }
        Ok(Some(size))
    }
}
