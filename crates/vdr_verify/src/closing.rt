// What stands behind the records of an evidence file.
ghost use Rattle.std.specs.Prelude.{◌≡◌, ℕ, List, Option};
ghost use Rattle.vdr_terms.specs.Records.{Record as Entry};
ghost use Rattle.vdr_evidence.specs.Files.{Heading};
ghost use Rattle.vdr_verify.specs.Closings.{EndsCovered, EndsAll, IsBehindCovered, IsBehindEvidence, IsBehindMark, IsWhole};
ghost use Rattle.vdr_verify.specs.Standing.{HasInputCause};
ghost use Rattle.vdr_verify.specs.declared.query.Asked.{Asked as AskedFor};

use crate::part::Part;
use crate::reader::Reader;
use crate::refused::VerifyRefused;
use sha2::{Digest, Sha256};
use vdr_bytes::put_u64;
use vdr_outside::Source;

/// Reads the number of records, which has to be this one. The end began at this offset.
pub(crate) fn read_number<I: Source>(
    reader: &mut Reader,
    input: &mut I,
    records: u64,
    offset: u64,
) -> Result<(), VerifyRefused>
    ensures reads { (first : Option (List ℕ)) (h : Heading) (q : AskedFor) (seen : List Entry) → IsBehindMark first (I.left input.old) reader.old q h seen records offset
        → EndsCovered first (I.left input.new) reader.new h seen result }
    ensures cause { HasInputCause (I.faults input.old) (I.faults input.new) result }
{
    let mut wanted = [0; 8];
    put_u64(&mut wanted, 0, records);
    let mut number = [0; 8];
    let Ok(same) = reader.expect(input, &wanted, &mut number) else {
        return Err(VerifyRefused::Input);
    };
    if same {
        return Ok(());
    }
    let part = Part::End;
    Err(VerifyRefused::Illegal { part, offset })
}

/// Reads the digest, which has to be that of all that was read.
pub(crate) fn read_digest<I: Source>(
    reader: &mut Reader,
    input: &mut I,
) -> Result<(), VerifyRefused>
    ensures reads { (first : Option (List ℕ)) (h : Heading) (q : AskedFor) (seen : List Entry) → IsBehindCovered first (I.left input.old) reader.old q h seen
        → EndsAll first (I.left input.new) reader.new h seen result }
    ensures cause { HasInputCause (I.faults input.old) (I.faults input.new) result }
{
    let offset = reader.offset;
    let wanted = reader.digest();
    let mut digest = [0; 32];
    let Ok(same) = reader.expect(input, &wanted, &mut digest) else {
        return Err(VerifyRefused::Input);
    };
    if same {
        return Ok(());
    }
    let part = Part::Digest;
    Err(VerifyRefused::Illegal { part, offset })
}

/// Looks whether a byte stands behind the file.
pub(crate) fn read_behind<I: Source>(
    reader: &mut Reader,
    input: &mut I,
) -> Result<(), VerifyRefused>
    ensures reads { (first : Option (List ℕ)) (h : Heading) (q : AskedFor) (seen : List Entry) → IsBehindEvidence first (I.left input.old) reader.old q h seen
        → IsWhole first (I.left input.new) h seen result }
    ensures cause { HasInputCause (I.faults input.old) (I.faults input.new) result }
{
    let offset = reader.offset;
    let mut byte = [0; 1];
    let Ok(more) = reader.take(input, &mut byte) else {
        return Err(VerifyRefused::Input);
    };
    if !more {
        return Ok(());
    }
    let part = Part::Behind;
    Err(VerifyRefused::Illegal { part, offset })
}
