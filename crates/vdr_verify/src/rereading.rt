// The steps in which a file is read again that was read to its end before.
//
// Nothing that was kept of it is taken for granted: every byte goes into a SHA-256, which has to be that of the file as it was.
ghost use Rattle.std.specs.Prelude.{◌≡◌, ◌++◌, ℕ, List, Option, IfOk, IfErr, IfSome, true, false, length, min};
ghost use Rattle.sha2.specs.Sha256.{sha256};
ghost use Rattle.vdr_terms.specs.Records.{Record as Entry};
ghost use Rattle.vdr_outside.specs.Causes.{HasCause};
ghost use Rattle.vdr_evidence.specs.Files.{Heading};
ghost use Rattle.vdr_verify.specs.Lists.{IsBehindRecords, IsGiven};
ghost use Rattle.vdr_verify.specs.Reading.{HasRead};
ghost use Rattle.vdr_verify.specs.Visiting.{HasReadCause, HoldsNext, IsReadStop, Meets, Passes, StepsOn, longest_heading, stop_again};

use crate::account::Spot;
use crate::query::Asked;
use crate::reader::Reader;
use crate::records::next_record;
use crate::refused::VerifyRefused;
use sha2::Digest;
use vdr_entry::Record;
use vdr_outside::{Failed, Source};
use vdr_visit::VisitRefused;

/// The number by which a visit tells the file where it tells a medium.
const FILE: u8 = 0;

/// The number of bytes in the longest heading: 8 of its token, and five parts, each behind the 4 bytes of its length.
const LONGEST_HEADING: usize = 16_559;

// How many bytes of a heading are passed over.
fn size_of(begin: u64) -> usize
    ensures { result ≡ min begin longest_heading }
{
    if begin < LONGEST_HEADING as u64 {
        begin as usize
    } else {
        LONGEST_HEADING
    }
}

/// Passes over the bytes before the first record.
pub(crate) fn pass<I: Source, R: Drop>(
    reader: &mut Reader,
    input: &mut I,
    begin: u64,
) -> Result<(), VisitRefused<R>>
    ensures passes { Passes (I.left input.old) (I.left input.new) reader.old reader.new begin result }
    ensures stop { IfErr result IsReadStop }
    ensures cause { HasReadCause (I.faults input.old) (I.faults input.new) result }
{
    let mut bytes = [0; LONGEST_HEADING];
    let size = size_of(begin);
    let Ok(more) = reader.take(input, &mut bytes[..size]) else {
        return Err(VisitRefused::Fault);
    };
    if more {
        return Ok(());
    }
    Err(VisitRefused::Damaged {
        medium: FILE,
        offset: 0,
    })
}

// How what is refused of the file ends a visit.
fn stop_again<R>(refused: VerifyRefused) -> VisitRefused<R>
    ensures { result ≡ stop_again refused }
{
    match refused {
        VerifyRefused::Illegal { offset, .. } => VisitRefused::Damaged {
            medium: FILE,
            offset,
        },
        VerifyRefused::Input | VerifyRefused::Output | VerifyRefused::NoMemory => {
            VisitRefused::Fault
        }
    }
}

/// Reads the next record into this place, behind the one that stands there. False where the end stands there.
pub(crate) fn step<I: Source, R: Drop>(
    reader: &mut Reader,
    input: &mut I,
    asked: &Asked,
    last: Option<Spot>,
    item: &mut Record,
) -> Result<bool, VisitRefused<R>>
    ensures finds { (first : Option (List ℕ)) (h : Heading) (seen : List Entry) → IsBehindRecords first (I.left input.old) reader.old asked.now last h seen
        → StepsOn first (I.left input.new) reader.new asked.now item.new h seen result }
    ensures holds { IfOk result (λ more. (front : List ℕ) → HasRead reader.old front → HoldsNext reader.new item.new front more) }
    ensures given { IfOk result (λ more. more ≡ true → IsGiven asked.now last item.new) }
    ensures stop { IfErr result IsReadStop }
    ensures cause { HasReadCause (I.faults input.old) (I.faults input.new) result }
{
    match next_record(reader, input, asked, last, item) {
        Ok(more) => Ok(more),
        Err(refused) => Err(stop_again(refused)),
    }
}

// Whether what is left are the number of records and the digest of the file, and all of it has this SHA-256.
fn is_met<I: Source>(reader: &mut Reader, input: &mut I, digest: &[u8; 32]) -> Result<bool, Failed>
    ensures met { IfOk result (λ met. met ≡ true → (front : List ℕ) → HasRead reader.old front → (behind : List ℕ) × (sha256 (front ++ behind) ≡ digest.now)) }
    ensures other { IfOk result (λ met. met ≡ false → IfSome (I.left input.old) (λ rest. (front : List ℕ) → HasRead reader.old front → length rest ≡ 40 → sha256 (front ++ rest) ≡ digest.now → ⊥)) }
    ensures cause { HasCause (I.faults input.old) (I.faults input.new) result }
{
    let mut closing = [0; 40];
    if !reader.take(input, &mut closing)? {
        return Ok(false);
    }
    if &reader.digest() != digest {
        return Ok(false);
    }
    let mut byte = [0; 1];
    let more = reader.take(input, &mut byte)?;
    Ok(!more)
}

/// Reads what stands behind the records. The whole file has to have this SHA-256.
pub(crate) fn meet<I: Source, R: Drop>(
    reader: &mut Reader,
    input: &mut I,
    digest: &[u8; 32],
) -> Result<(), VisitRefused<R>>
    ensures meets { Meets (I.left input.old) reader.old digest.now result }
    ensures stop { IfErr result IsReadStop }
    ensures cause { HasReadCause (I.faults input.old) (I.faults input.new) result }
{
    let offset = reader.offset;
    match is_met(reader, input, digest) {
        Ok(true) => Ok(()),
        Ok(false) => Err(VisitRefused::Damaged {
            medium: FILE,
            offset,
        }),
        Err(_) => Err(VisitRefused::Fault),
    }
}
