// The list of the images out of what a query selects.
//
// Of each image stands in memory which of its parts were met, a byte a part, and not their data.
ghost use Rattle.std.specs.Prelude.{◌≡◌, ◌⊎◌, ℕ, List, true, Ok, Err, IfErr, OnErr};
ghost use Rattle.vdr_terms.specs.Records.{Record};
ghost use Rattle.vdr_entry.specs.Queries.{asked};
ghost use Rattle.vdr_visit.specs.Refusals.{HasOutputCause};
ghost use Rattle.vdr_export.specs.Asked.{MayBeAsked};
ghost use Rattle.vdr_export.specs.Answers.{FileEnds, IsListingRefusal, file_end};
ghost use Rattle.vdr_export.specs.Listings.{listing_of, listing_text};
ghost use Rattle.vdr_export.specs.declared.refused.ExportRefused.TheVariants.{Fault as AFault, Output};

use crate::listing::Listing;
use crate::nowhere::Nowhere;
use crate::refused::{ExportRefused, refusal_of};
use std::alloc::Global;
use vdr_entry::Query;
use vdr_outside::{Media, Sink};
use vdr_visit::Reader;

/// Writes the list of the images that a query selects (IEC 61162-450 sends images in blocks; the header of a part is
/// this project's profile): a line `SOURCE BLOCK UTC PARTS OF COMPLETE` for each block of a source of which a record
/// has a part, in the order of their first parts. UTC is the stamp of its first part, PARTS how many of its parts there
/// are, and OF how many it has, as the first one says. COMPLETE is `complete`, `part` where one is missing, or `mixed`
/// where another says another number of parts. Takes memory for the images, and writes only when all was read. The
/// query's channel is configured, and its incident is live, where it asks for one.
///
/// `Damaged` never comes of media that hold what was recorded. Where a write fails, a front of the list is written.
pub fn write_listing<R: Reader, M: Media, O: Sink>(
    alloc: Global,
    reader: &mut R,
    media: &mut M,
    query: &Query,
    out: &mut O,
) -> Result<(), ExportRefused>
    requires asked { MayBeAsked R.Reader query.now reader.old (M.disk media.old).sizes }
    ensures listing { (records : List Record) → R.tells _ M.Media reader.old media.old (asked query.now) records
        → FileEnds (Ok (listing_text (listing_of records))) (O.taken out.old) (O.taken out.new) result }
    ensures silent { OnErr result ((result ≡ Err Output) ⊎ (out.new ≡ out.old)) }
    ensures own { IfErr result IsListingRefusal }
    ensures failed { R.failed reader.old ≡ true → (result ≡ Err AFault) × (reader.new ≡ reader.old) × (media.new ≡ media.old) × (out.new ≡ out.old) }
    ensures leaves { R.leaves _ M.Media (asked query.now) reader.old reader.new media.old media.new (file_end result) }
    ensures output { HasOutputCause (O.faults out.old) (O.faults out.new) (result ≡ Err Output) }
{
    R::law_of_visits::<M>();
    let mut listing = Listing::new(alloc);
    if let Err(stop) = reader.visit(media, query, &mut listing, &mut Nowhere) {
        return Err(refusal_of(stop));
    }
    match listing.write(out) {
        Ok(()) => Ok(()),
        Err(_) => Err(ExportRefused::Output),
    }
}
