// Visiting the records that a query selects of one medium alone.
ghost use Rattle.std.specs.Prelude.{◌≡◌, ◌↔◌, ◌<◌, List, [], true, IfOk, IfErr, Ok, Err};
ghost use Rattle.vdr_terms.specs.Records.{Record as Entry};
ghost use Rattle.vdr_outside.specs.Causes.{HasCauseOn};
ghost use Rattle.vdr_outside.specs.Disk.{Unchanged, content};
ghost use Rattle.vdr_entry.specs.Queries.{asked, asked_medium};
ghost use Rattle.vdr_segment.specs.Areas.{HasRoom};
ghost use Rattle.vdr_visit.specs.Prints.{text_of, whole_text};
ghost use Rattle.vdr_visit.specs.Refusals.{HasOutputCause};
ghost use Rattle.vdr_visit.specs.Visits.{HasHanded};
ghost use Rattle.vdr_visit.specs.declared.visit_refused.VisitRefused.TheVariants.{Fault as AFault, Output};
ghost use Rattle.vdr_rescue.specs.declared.told.Told.{Told as Tale};
ghost use Rattle.vdr_rescue.specs.Costs.{ReadsNoOther, Spends};
ghost use Rattle.vdr_rescue.specs.Cursors.{Ends, StepsTo, at_front, budget, left_of};
ghost use Rattle.vdr_directory.specs.Costs.{ReadsAtMost};
ghost use Rattle.vdr_rescue.specs.Visiting.{HasVisitFault, IsLeft, SelectsNext, is_of, selects};

use crate::Cursor;
use crate::saves::Saves;
use vdr_entry::{Medium, Query, Record};
use vdr_index::has_channel;
use vdr_outside::{Media, Sink};
use vdr_visit::{VisitRefused, Visitor};

// Whether a place is one of what is played: any, or one of a live incident.
fn is_of(saves: &Saves, medium: Medium, place: u64) -> bool
    ensures { result ≡ is_of saves.now.table (asked_medium medium) place }
{
    match medium {
        Medium::Capsule | Medium::LongTerm => true,
        Medium::Incident(id) => match saves.live(id) {
            Some(save) => save.a <= place && place <= save.b,
            None => false,
        },
    }
}

// Whether the query selects a record.
fn selects(saves: &Saves, query: &Query, item: &Record) -> bool
    ensures { result ≡ selects saves.now.table (asked query.now) item.now }
{
    is_of(saves, query.medium, item.place)
        && has_channel(query.channel, item.bits)
        && query.from <= item.utc
        && item.utc <= query.to
}

// Steps to the next record that the medium gives. A fault of a read ends a visit.
fn step_on<M: Media, R: Drop>(
    cursor: &mut Cursor,
    media: &mut M,
    item: &mut Record,
) -> Result<bool, VisitRefused<R>>
    requires room { HasRoom cursor.old.area (M.disk media.old).sizes }
    ensures area { cursor.new.area ≡ cursor.old.area }
    ensures heads { cursor.new.heads ≡ cursor.old.heads }
    ensures onward { result ≡ Ok true → left_of cursor.new < left_of cursor.old }
    ensures spends { Spends cursor.old.area.medium (budget cursor.old) (budget cursor.new) (M.bytes_read media.old) (M.bytes_read media.new) result }
    ensures others { ReadsNoOther cursor.old.area.medium (M.bytes_read media.old) (M.bytes_read media.new) }
    ensures gives { IfOk result (λ more. M.tells → (given : List Entry) (all : List Tale)
        → Ends (content (M.disk media.old).reads cursor.old.area.medium) cursor.old given all
        ↔ StepsTo (content (M.disk media.old).reads cursor.old.area.medium) more item.new cursor.new given all) }
    ensures fault { IfErr result (λ stop. stop ≡ AFault) }
    ensures unchanged { Unchanged (M.disk media.old) (M.disk media.new) }
    ensures cause { HasCauseOn cursor.old.area.medium (M.faults media.old) (M.faults media.new) result }
{
    match cursor.step(media, item) {
        Ok(more) => Ok(more),
        Err(_) => Err(VisitRefused::Fault),
    }
}

// Steps to the next record that the query selects. False where there is none any more.
fn next_selected<M: Media, R: Drop>(
    cursor: &mut Cursor,
    media: &mut M,
    saves: &Saves,
    query: &Query,
    item: &mut Record,
) -> Result<bool, VisitRefused<R>>
    requires room { HasRoom cursor.old.area (M.disk media.old).sizes }
    ensures area { cursor.new.area ≡ cursor.old.area }
    ensures heads { cursor.new.heads ≡ cursor.old.heads }
    ensures onward { result ≡ Ok true → left_of cursor.new < left_of cursor.old }
    ensures spends { Spends cursor.old.area.medium (budget cursor.old) (budget cursor.new) (M.bytes_read media.old) (M.bytes_read media.new) result }
    ensures others { ReadsNoOther cursor.old.area.medium (M.bytes_read media.old) (M.bytes_read media.new) }
    ensures gives { IfOk result (λ found. M.tells → (records : List Entry) (all : List Tale)
        → IsLeft (content (M.disk media.old).reads cursor.old.area.medium) saves.now.table cursor.old (asked query.now) records all
        ↔ SelectsNext (content (M.disk media.old).reads cursor.old.area.medium) saves.now.table found item.new cursor.new (asked query.now) records all) }
    ensures fault { IfErr result (λ stop. stop ≡ AFault) }
    ensures unchanged { Unchanged (M.disk media.old) (M.disk media.new) }
    ensures cause { HasCauseOn cursor.old.area.medium (M.faults media.old) (M.faults media.new) result }
{
    while step_on(cursor, media, item)? {
        if selects(saves, query, item) {
            return Ok(true);
        }
    }
    Ok(false)
}

// Hands the records that the query selects to the visitor, from where the cursor stands, until it stops.
fn visit_each<M: Media, V: Visitor, O: Sink>(
    cursor: &mut Cursor,
    saves: &Saves,
    media: &mut M,
    query: &Query,
    visitor: &mut V,
    out: &mut O,
) -> Result<(), VisitRefused<V::Reason>>
    requires room { HasRoom cursor.old.area (M.disk media.old).sizes }
    ensures area { cursor.new.area ≡ cursor.old.area }
    ensures heads { cursor.new.heads ≡ cursor.old.heads }
    ensures handed { (first : V) → V.has first [] visitor.old
        → HasHanded (λ records. M.tells × ((all : List Tale) × IsLeft (content (M.disk media.old).reads cursor.old.area.medium) saves.now.table cursor.old (asked query.now) records all))
        (λ seen. V.has first seen visitor.new) (V.stops first) (V.line first) (text_of (V.line first)) (O.taken out.old) (O.taken out.new) result }
    ensures ended { result ≡ Ok tt → M.tells
        → (records : List Entry) × IsLeft (content (M.disk media.old).reads cursor.old.area.medium) saves.now.table cursor.old (asked query.now) records cursor.new.told }
    ensures reads { ReadsAtMost cursor.old.area.medium (budget cursor.old) (M.bytes_read media.old) (M.bytes_read media.new) }
    ensures unchanged { Unchanged (M.disk media.old) (M.disk media.new) }
    ensures cause { HasVisitFault cursor.old.area.medium (M.faults media.old) (M.faults media.new) result }
    ensures output { HasOutputCause (O.faults out.old) (O.faults out.new) (result ≡ Err Output) }
{
    let mut item = Record::start(0, 0, 0, 0);
    while next_selected(cursor, media, saves, query, &mut item)? {
        visitor.visit(&item, out)?;
    }
    Ok(())
}

/// Hands the records that the query selects of a medium to the visitor, from its first one on, and then their end, until it
/// stops.
pub(crate) fn visit_all<M: Media, V: Visitor, O: Sink>(
    cursor: &mut Cursor,
    saves: &Saves,
    media: &mut M,
    query: &Query,
    visitor: &mut V,
    out: &mut O,
) -> Result<(), VisitRefused<V::Reason>>
    requires room { HasRoom cursor.old.area (M.disk media.old).sizes }
    ensures area { cursor.new.area ≡ cursor.old.area }
    ensures heads { cursor.new.heads ≡ cursor.old.heads }
    ensures handed { (first : V) → V.has first [] visitor.old
        → HasHanded (λ records. M.tells × ((all : List Tale) × IsLeft (content (M.disk media.old).reads cursor.old.area.medium) saves.now.table (at_front cursor.old) (asked query.now) records all))
        (λ seen. V.has first seen visitor.new) (V.stops first) (V.line first) (whole_text (V.line first) (V.last first)) (O.taken out.old) (O.taken out.new) result }
    ensures ended { result ≡ Ok tt → M.tells
        → (records : List Entry) × IsLeft (content (M.disk media.old).reads cursor.old.area.medium) saves.now.table (at_front cursor.old) (asked query.now) records cursor.new.told }
    ensures reads { ReadsAtMost cursor.old.area.medium (budget (at_front cursor.old)) (M.bytes_read media.old) (M.bytes_read media.new) }
    ensures unchanged { Unchanged (M.disk media.old) (M.disk media.new) }
    ensures cause { HasVisitFault cursor.old.area.medium (M.faults media.old) (M.faults media.new) result }
    ensures output { HasOutputCause (O.faults out.old) (O.faults out.new) (result ≡ Err Output) }
{
    cursor.rewind();
    visit_each(cursor, saves, media, query, visitor, out)?;
    visitor.finish(out)?;
    Ok(())
}
