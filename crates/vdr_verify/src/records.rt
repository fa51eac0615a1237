// The records of an evidence file.
ghost use Rattle.std.specs.Prelude.{◌≡◌, ◌<◌, ◌++◌, ◌∷◌, [], ℕ, List, Option, None, IfErr, IfOk, IfSome, true, false};
ghost use Rattle.vdr_terms.specs.Records.{Record as Entry};
ghost use Rattle.vdr_entry.specs.Spelling.{record_bytes};
ghost use Rattle.vdr_evidence.specs.Files.{Heading, heading_bytes};
ghost use Rattle.vdr_verify.specs.Accounts.{HasStamps};
ghost use Rattle.vdr_verify.specs.Legal.{IsHeading, selects};
ghost use Rattle.vdr_verify.specs.Lists.{FindsNext, IsBehindRecords, IsGiven, ReadsRecords};
ghost use Rattle.vdr_verify.specs.Reading.{HasRead};
ghost use Rattle.vdr_verify.specs.Standing.{HasInputCause};
ghost use Rattle.vdr_verify.specs.Visiting.{HoldsNext, IsRecordRefusal};

use crate::account::{Account, Spot};
use crate::part::Part;
use crate::query::Asked;
use crate::reader::Reader;
use crate::refused::VerifyRefused;
use vdr_entry::Record;
use vdr_outside::Source;

// Whether a record stands behind the last one.
fn is_above(item: &Record, last: Option<Spot>) -> bool
    ensures legal { result ≡ true → IfSome last (λ s. s.place < item.now.place) }
    ensures other { result ≡ false → IfSome last (λ s. s.place < item.now.place) → ⊥ }
{
    match last {
        Some(spot) => spot.place < item.place,
        None => true,
    }
}

// Whether the bytes are a record that may stand behind the last one. It is read into this place.
fn is_next(asked: &Asked, last: Option<Spot>, bytes: &[u8], item: &mut Record) -> bool
    ensures legal { result ≡ true → (bytes.now ≡ record_bytes item.new) × IsGiven asked.now last item.new }
    ensures other { result ≡ false → (r : Entry) → bytes.now ≡ record_bytes r → IsGiven asked.now last r → ⊥ }
{
    let Some(size) = item.read_from(bytes) else {
        return false;
    };
    if size != bytes.len() {
        return false;
    }
    if !is_above(item, last) {
        return false;
    }
    asked.selects(item)
}

/// Reads the next record into this place. False where the end stands there.
pub(crate) fn next_record<I: Source>(
    reader: &mut Reader,
    input: &mut I,
    asked: &Asked,
    last: Option<Spot>,
    item: &mut Record,
) -> Result<bool, VerifyRefused>
    ensures finds { (first : Option (List ℕ)) (h : Heading) (seen : List Entry) → IsBehindRecords first (I.left input.old) reader.old asked.now last h seen
        → FindsNext first (I.left input.new) reader.new asked.now item.new h seen result }
    ensures holds { IfOk result (λ more. (front : List ℕ) → HasRead reader.old front → HoldsNext reader.new item.new front more) }
    ensures given { IfOk result (λ more. more ≡ true → IsGiven asked.now last item.new) }
    ensures refused { IfErr result IsRecordRefusal }
    ensures cause { HasInputCause (I.faults input.old) (I.faults input.new) result }
{
    let offset = reader.offset;
    let mut bytes = [0; 1516];
    let Ok(found) = reader.part(input, &mut bytes) else {
        return Err(VerifyRefused::Input);
    };
    let part = Part::Record;
    let Some(size) = found else {
        return Err(VerifyRefused::Illegal { part, offset });
    };
    if size == 0 {
        return Ok(false);
    }
    if is_next(asked, last, &bytes[..size], item) {
        return Ok(true);
    }
    Err(VerifyRefused::Illegal { part, offset })
}

/// The records of a file, and where the end begins.
#[derive(Drop)]
pub(crate) struct Listed {
    pub(crate) account: Account,
    pub(crate) end: u64,
}

/// Reads the records of a file, which this asks for, and the length 0 behind them.
pub(crate) fn read_records<I: Source>(
    reader: &mut Reader,
    input: &mut I,
    asked: &Asked,
) -> Result<Listed, VerifyRefused>
    ensures reads { (first : Option (List ℕ)) (h : Heading) → IsBehindRecords first (I.left input.old) reader.old asked.now None h []
        → ReadsRecords first (I.left input.new) reader.new asked.now h result }
    ensures stamps { IfOk result (λ listed. HasStamps listed.account) }
    ensures cause { HasInputCause (I.faults input.old) (I.faults input.new) result }
{
    let mut account = Account::new();
    let mut item = Record::start(0, 0, 0, 0);
    let mut end = reader.offset;
    while next_record(reader, input, asked, account.last, &mut item)? {
        account.add(&item);
        end = reader.offset;
    }
    Ok(Listed { account, end })
}
