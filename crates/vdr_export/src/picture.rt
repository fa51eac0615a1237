// The image of a block out of what a query selects.
//
// Parts are kept until the last was met, at most 65,535: to keep only where they are would need a pass for each. Of
// a part that was recorded twice the first counts.
ghost use Rattle.std.specs.Prelude.{◌≡◌, ◌⊎◌, ℕ, List, true, Ok, Err, IfErr, OnErr};
ghost use Rattle.vdr_terms.specs.Records.{Record};
ghost use Rattle.vdr_entry.specs.Queries.{asked};
ghost use Rattle.vdr_visit.specs.Refusals.{HasOutputCause};
ghost use Rattle.vdr_export.specs.Asked.{MayBeAsked};
ghost use Rattle.vdr_export.specs.Answers.{FileEnds, IsPictureRefusal, file_end, picture_of};
ghost use Rattle.vdr_export.specs.Pictures.{shown};
ghost use Rattle.vdr_export.specs.declared.refused.ExportRefused.TheVariants.{Fault as AFault, Output};

use crate::block::Block;
use crate::collecting::Collecting;
use crate::nowhere::Nowhere;
use crate::refused::{ExportRefused, refusal_of};
use std::alloc::Global;
use vdr_entry::Query;
use vdr_outside::{Media, Sink};
use vdr_visit::Reader;

/// Writes the image of a block that a query selects (IEC 61162-450 sends images in blocks; the header of a part is this project's
/// profile): the data of the block's parts, in the order of their sequence numbers, of each the first that was recorded. Takes memory for the
/// parts, and writes only when all are there. The query's channel is configured, and its incident is live, where it asks for one.
///
/// `Nothing`, `Mixed` and `Part` come exactly in their cases, in this order, unless there is no memory. `Damaged` never comes of media that
/// hold what was recorded. Where a write fails, a front of the image is written.
pub fn write_picture<R: Reader, M: Media, O: Sink>(
    alloc: Global,
    reader: &mut R,
    media: &mut M,
    query: &Query,
    block: &Block,
    out: &mut O,
) -> Result<(), ExportRefused>
    requires asked { MayBeAsked R.Reader query.now reader.old (M.disk media.old).sizes }
    ensures picture { (records : List Record) → R.tells _ M.Media reader.old media.old (asked query.now) records
        → FileEnds (picture_of (shown block.now records)) (O.taken out.old) (O.taken out.new) result }
    ensures silent { OnErr result ((result ≡ Err Output) ⊎ (out.new ≡ out.old)) }
    ensures own { IfErr result IsPictureRefusal }
    ensures failed { R.failed reader.old ≡ true → (result ≡ Err AFault) × (reader.new ≡ reader.old) × (media.new ≡ media.old) × (out.new ≡ out.old) }
    ensures leaves { R.leaves _ M.Media (asked query.now) reader.old reader.new media.old media.new (file_end result) }
    ensures output { HasOutputCause (O.faults out.old) (O.faults out.new) (result ≡ Err Output) }
{
    R::law_of_visits::<M>();
    let mut collecting = Collecting::new(alloc, *block);
    if let Err(stop) = reader.visit(media, query, &mut collecting, &mut Nowhere) {
        return Err(refusal_of(stop));
    }
    collecting.parts.complete()?;
    match collecting.parts.write(out) {
        Ok(()) => Ok(()),
        Err(_) => Err(ExportRefused::Output),
    }
}
