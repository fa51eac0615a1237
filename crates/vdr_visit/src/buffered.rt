// A visit in few writes.
ghost use Rattle.std.specs.Prelude.{◌≡◌, ◌⊎◌, [], false, true, Err, IsTrue, OnErr, OnOk};
ghost use Rattle.vdr_entry.specs.Queries.{asked};
ghost use Rattle.vdr_visit.specs.Prints.{whole_text};
ghost use Rattle.vdr_visit.specs.Refusals.{HasOutputCause, IsAccepted, after_fault, unanswered};
ghost use Rattle.vdr_visit.specs.Visits.{HasHanded, end_of};
ghost use Rattle.vdr_visit.specs.declared.visit_refused.VisitRefused.TheVariants.{NoChannel, NoIncident, Output};

use crate::{Reader, VisitRefused, Visitor};
use std::marker::Brand;
use vdr_entry::Query;
use vdr_outside::{BufferedSink, Failed, Lent, Media, Opening, Sink};

// Whether a visit ended since the output failed.
fn failed_at_output<R>(ended: &Result<(), VisitRefused<R>>) -> bool
    ensures { IsTrue result → ended.now ≡ Err Output }
{
    matches!(ended, Err(VisitRefused::Output))
}

// How a visit ended, once what it gathered was handed on so.
fn ended_by<R: Drop>(
    ended: Result<(), VisitRefused<R>>,
    closed: Result<(), Failed>,
) -> Result<(), VisitRefused<R>>
    ensures same { OnOk closed (result ≡ ended) }
    ensures blamed { OnErr closed (result ≡ Err Output) }
{
    match closed {
        Ok(()) => ended,
        Err(_) => Err(VisitRefused::Output),
    }
}

// Visits through a buffer, and gives the output back. What is gathered is handed on however the visit ends, unless the
// output failed.
fn visit_lent<'a, R: Reader, M: Media, V: Visitor, O: Sink, B: Opening>(
    reader: &mut R,
    media: &mut M,
    query: &Query,
    visitor: &mut V,
    lent: Lent<'a, O>,
) -> (Lent<'a, O>, Result<(), VisitRefused<V::Reason>>)
    requires may { R.may_read reader.old (M.disk media.old).sizes }
    requires channel { R.lacks_channel reader.old query.now.channel ≡ false }
    requires incident { R.lacks_incident reader.old (asked query.now).medium ≡ false }
    requires name { lent.sink.ghost_name ≡ B.name }
    requires start { O.taken lent.sink.now ≡ B.start }
    ensures same { result.0.sink.ghost_name ≡ B.name }
    ensures asked { (result.1 ≡ Err NoChannel) ⊎ (result.1 ≡ Err NoIncident) → ⊥ }
    ensures handed { (first : V) → V.has first [] visitor.old
        → HasHanded (R.tells _ M.Media reader.old media.old (asked query.now)) (λ seen. V.has first seen visitor.new) (V.stops first) (V.line first) (whole_text (V.line first) (V.last first))
        B.start (O.taken result.0.sink.now) result.1 }
    ensures leaves { R.leaves _ M.Media (asked query.now) reader.old reader.new media.old media.new (end_of result.1) }
    ensures costs { R.costs _ M.Media (asked query.now) reader.old media.old media.new }
    ensures output { HasOutputCause (O.faults lent.entry.sink.now) (O.faults result.0.sink.now) (result.1 ≡ Err Output) }
{
    R::law_of_visits::<M>();
    let mut out: BufferedSink<'a, O, B> = BufferedSink::new(lent);
    let ended = reader.visit(media, query, visitor, &mut out);
    if failed_at_output(&ended) {
        return (out.abandon(), ended);
    }
    let (lent, closed) = out.close();
    (lent, ended_by(ended, closed))
}

/// Visits as the reader does. What the visitor prints goes to the output in few writes, through a buffer of 8,192 bytes.
pub fn visit_buffered<R: Reader, M: Media, V: Visitor, O: Sink>(
    reader: &mut R,
    media: &mut M,
    query: &Query,
    visitor: &mut V,
    out: &mut O,
) -> Result<(), VisitRefused<V::Reason>>
    requires may { R.may_read reader.old (M.disk media.old).sizes }
    ensures accepted { IsAccepted (R.lacks_channel reader.old query.now.channel) (R.lacks_incident reader.old (asked query.now).medium) result }
    ensures handed { (first : V) → V.has first [] visitor.old
        → HasHanded (R.tells _ M.Media reader.old media.old (asked query.now)) (λ seen. V.has first seen visitor.new) (V.stops first) (V.line first) (whole_text (V.line first) (V.last first))
        (O.taken out.old) (O.taken out.new) result }
    ensures unread { (result ≡ Err NoChannel) ⊎ (result ≡ Err NoIncident) → (reader.new ≡ reader.old) × (media.new ≡ media.old) × (visitor.new ≡ visitor.old) × (out.new ≡ out.old) }
    ensures failed { R.failed reader.old ≡ true → (reader.new ≡ reader.old) × (media.new ≡ media.old) × (visitor.new ≡ visitor.old) × (out.new ≡ out.old)
        × (result ≡ after_fault (unanswered (R.lacks_channel reader.old query.now.channel) (R.lacks_incident reader.old (asked query.now).medium))) }
    ensures leaves { R.leaves _ M.Media (asked query.now) reader.old reader.new media.old media.new (end_of result) }
    ensures costs { R.costs _ M.Media (asked query.now) reader.old media.old media.new }
    ensures output { HasOutputCause (O.faults out.old) (O.faults out.new) (result ≡ Err Output) }
{
    R::law_of_visits::<M>();
    reader.accept(query)?;
    if reader.failed() {
        return Err(VisitRefused::Fault);
    }
    let (lent, result) = visit_lent::<R, M, V, O, Brand>(
        reader,
        media,
        query,
        visitor,
        Lent::new(out),
    );
    let Lent { sink } = lent;
    let _ = &*sink;
    result
}
