// Whether a file is evidence, and what it holds.
ghost use Rattle.std.specs.Prelude.{◌≡◌, ◌⊎◌, ℕ, IfOk};
ghost use Rattle.arrayvec.specs.ArrayVec.{ArrayVec};
ghost use Rattle.vdr_verify.specs.Accounts.{HasStamps};
ghost use Rattle.vdr_verify.specs.Evidences.{ReadsWhole};
ghost use Rattle.vdr_verify.specs.Standing.{HasInputCause};
ghost use Rattle.vdr_verify.specs.Verifies.{HasCauses, IsVerified, Tells, Verifies};

use crate::account_text::{Lines, text_of};
use crate::closing::{read_behind, read_digest, read_number};
use crate::evidence::Evidence;
use crate::heading::read_heading;
use crate::reader::Reader;
use crate::records::read_records;
use crate::refused::VerifyRefused;
use std::alloc::Global;
use vdr_outside::{Sink, Source, write_all};

/// Reads a file to its end, and keeps what it holds but for its records.
pub(crate) fn read_whole<I: Source>(alloc: Global, input: &mut I) -> Result<Evidence, VerifyRefused>
    ensures reads { ReadsWhole (I.left input.old) (I.left input.new) result }
    ensures stamps { IfOk result (λ evidence. HasStamps evidence.account) }
    ensures cause { HasInputCause (I.faults input.old) (I.faults input.new) result }
{
    let mut reader = Reader::new();
    let head = read_heading(alloc, &mut reader, input)?;
    let begin = reader.offset;
    let listed = read_records(&mut reader, input, &head.asked)?;
    let account = listed.account;
    read_number(&mut reader, input, account.records, listed.end)?;
    read_digest(&mut reader, input)?;
    let digest = reader.digest();
    read_behind(&mut reader, input)?;
    Ok(Evidence {
        head,
        account,
        begin,
        digest,
    })
}

// Reads a file to its end, and tells what it holds.
fn read_file<I: Source>(alloc: Global, input: &mut I) -> Result<Lines, VerifyRefused>
    ensures tells { Tells (λ (text : ArrayVec ℕ). text.items) (I.left input.old) (I.left input.new) result }
    ensures cause { HasInputCause (I.faults input.old) (I.faults input.new) result }
{
    let evidence = read_whole(alloc, input)?;
    Ok(text_of(&evidence.head, &evidence.account, &evidence.digest))
}

/// Reads a file to its end, and prints what it holds where it is evidence. Where it is none, or the source fails, nothing is printed.
///
/// Memory is taken to read the configuration, of at most 16,380 bytes, and for its text.
pub fn verify<I: Source, O: Sink>(
    alloc: Global,
    input: &mut I,
    output: &mut O,
) -> Result<(), VerifyRefused>
    ensures verifies { Verifies (I.left input.old) (I.left input.new) (O.taken output.old) (O.taken output.new) result }
    ensures causes { HasCauses (I.faults input.old) (I.faults input.new) (O.faults output.old) (O.faults output.new) result }
    ensures silent { IsVerified result ⊎ (output.new ≡ output.old) }
{
    let text = match read_file(alloc, input) {
        Ok(text) => text,
        Err(refused) => return Err(refused),
    };
    match write_all(output, text.as_slice()) {
        Ok(()) => Ok(()),
        Err(_) => Err(VerifyRefused::Output),
    }
}
