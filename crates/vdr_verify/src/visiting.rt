// The records of a file that was read to its end before, for whoever makes something of them.
ghost use Rattle.std.specs.Prelude.{◌≡◌, ◌++◌, ◌∷◌, ℕ, List, [], Option, None, Err, Ok, IfErr, OnErr, OnOk, true};
ghost use Rattle.std.specs.Io.KnownBytes.{Appends};
ghost use Rattle.vdr_bytes.specs.Numbers.{le_u32};
ghost use Rattle.vdr_terms.specs.Queries.{matches};
ghost use Rattle.vdr_terms.specs.Records.{Record as Entry};
ghost use Rattle.vdr_entry.specs.Queries.{asked as wanted};
ghost use Rattle.vdr_evidence.specs.Files.{Heading, record_parts};
ghost use Rattle.vdr_visit.specs.Prints.{HasPrinted, lines_behind, text_of, whole_text};
ghost use Rattle.vdr_visit.specs.Refusals.{HasOutputCause, IfOwn};
ghost use Rattle.vdr_visit.specs.Visits.{HasHanded};
ghost use Rattle.vdr_visit.specs.declared.visit_refused.VisitRefused.TheVariants.{Output};
ghost use Rattle.vdr_visit.specs.declared.visit_refused.VisitorRefused.TheVariants.{Output as OwnOutput};
ghost use Rattle.vdr_verify.specs.Legal.{AreNext};
ghost use Rattle.vdr_verify.specs.Lists.{IsBehindRecords, front_behind};
ghost use Rattle.vdr_verify.specs.Reading.{HasRead};
ghost use Rattle.vdr_verify.specs.Standing.{IsBehind};
ghost use Rattle.vdr_verify.specs.Visiting.{AreOfDigest, HasReadCause, IsBeforeRecords, IsLeftWhole, ReadsAllRecords, selected_in};

use crate::account::spot_of;
use crate::evidence::Evidence;
use crate::query::Asked;
use crate::reader::Reader;
use crate::rereading::{meet, pass, step};
use vdr_entry::{Query, Record};
use vdr_index::has_channel;
use vdr_outside::{Sink, Source};
use vdr_visit::{VisitRefused, Visitor, VisitorRefused};

// Whether the query selects a record, whatever its medium.
fn matches(query: &Query, item: &Record) -> bool
    ensures { result ≡ matches (wanted query.now) item.now }
{
    has_channel(query.channel, item.bits) && query.from <= item.utc && item.utc <= query.to
}

// Hands a record to the visitor where the query selects it.
fn hand<V: Visitor, O: Sink>(
    query: &Query,
    item: &Record,
    visitor: &mut V,
    out: &mut O,
) -> Result<(), VisitorRefused<V::Reason>>
    ensures has { (first : V) (seen : List Entry) → V.has first seen visitor.old → OnOk result (V.has first (seen ++ selected_in (wanted query.now) (item.now ∷ [])) visitor.new) }
    ensures printed { (first : V) (seen : List Entry) → V.has first seen visitor.old → OnOk result (Appends (O.taken out.old) (O.taken out.new) (lines_behind (V.line first) seen (selected_in (wanted query.now) (item.now ∷ [])))) }
    ensures taken { OnErr result (matches (wanted query.now) item.now ≡ true) }
    ensures stopped { (first : V) (seen : List Entry) → V.has first seen visitor.old → matches (wanted query.now) item.now ≡ true → HasPrinted (V.line first seen item.now) (O.taken out.old) (O.taken out.new) result }
    ensures stops { (first : V) (seen : List Entry) → V.has first seen visitor.old → IfOwn result (λ reason. V.stops first (seen ++ item.now ∷ []) reason) }
    ensures cause { HasOutputCause (O.faults out.old) (O.faults out.new) (result ≡ Err OwnOutput) }
{
    if matches(query, item) {
        return visitor.visit(item, out);
    }
    Ok(())
}

// Hands the records that the query selects of those of a file to the visitor, until it stops. What stands before them was read.
fn visit_records<I: Source, V: Visitor, O: Sink>(
    reader: &mut Reader,
    input: &mut I,
    asked: &Asked,
    query: &Query,
    visitor: &mut V,
    out: &mut O,
) -> Result<(), VisitRefused<V::Reason>>
    ensures handed { (first : V) → V.has first [] visitor.old
        → HasHanded (IsBeforeRecords (I.left input.old) reader.old asked.now (wanted query.now))
        (λ seen. V.has first seen visitor.new) (V.stops first) (V.line first) (text_of (V.line first)) (O.taken out.old) (O.taken out.new) result }
    ensures all { result ≡ Ok tt → ReadsAllRecords
        (λ all. (first : Option (List ℕ)) (h : Heading) → IsBehindRecords first (I.left input.old) reader.old asked.now None h [] → AreNext asked.now [] all × IsBehind first (I.left input.new) reader.new (front_behind h all ++ le_u32 0))
        (λ all. (first : V) → V.has first [] visitor.old → V.has first (selected_in (wanted query.now) all) visitor.new × Appends (O.taken out.old) (O.taken out.new) (text_of (V.line first) (selected_in (wanted query.now) all)))
        reader.old reader.new }
    ensures cause { HasReadCause (I.faults input.old) (I.faults input.new) result }
    ensures output { HasOutputCause (O.faults out.old) (O.faults out.new) (result ≡ Err Output) }
{
    let mut item = Record::start(0, 0, 0, 0);
    let mut last = None;
    while step(reader, input, asked, last, &mut item)? {
        last = Some(spot_of(&item));
        hand(query, &item, visitor, out)?;
    }
    Ok(())
}

/// Reads the file of which this was kept once more, hands the records that the query selects to the visitor, and then, where it is the same
/// file to its end, their end. `Damaged` tells that it is another one by now, and where; what the visitor prints behind the last record is
/// printed of the same file alone.
pub(crate) fn visit_through<I: Source, V: Visitor, O: Sink>(
    input: &mut I,
    kept: &Evidence,
    query: &Query,
    visitor: &mut V,
    out: &mut O,
) -> Result<(), VisitRefused<V::Reason>>
    ensures handed { (first : V) → V.has first [] visitor.old
        → HasHanded (IsLeftWhole (I.left input.old) kept.now (wanted query.now))
        (λ seen. V.has first seen visitor.new) (V.stops first) (V.line first) (whole_text (V.line first) (V.last first)) (O.taken out.old) (O.taken out.new) result }
    ensures known { result ≡ Ok tt → (first : V) → V.has first [] visitor.old
        → AreOfDigest kept.now.digest (λ all. V.has first (selected_in (wanted query.now) all) visitor.new × Appends (O.taken out.old) (O.taken out.new) (whole_text (V.line first) (V.last first) (selected_in (wanted query.now) all))) }
    ensures cause { HasReadCause (I.faults input.old) (I.faults input.new) result }
    ensures output { HasOutputCause (O.faults out.old) (O.faults out.new) (result ≡ Err Output) }
{
    let mut reader = Reader::new();
    pass(&mut reader, input, kept.begin)?;
    visit_records(&mut reader, input, &kept.head.asked, query, visitor, out)?;
    meet(&mut reader, input, &kept.digest)?;
    visitor.finish(out)?;
    Ok(())
}
