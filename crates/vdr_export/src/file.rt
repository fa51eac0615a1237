// A file out of what a query selects.
//
// A channel or an incident that is not there is no refusal of a file: whoever asks for the file asks for those first
// (`Reader::accept`).
ghost use Rattle.std.specs.Prelude.{◌≡◌, ◌⊎◌, ℕ, List, true, Ok, Err, IfErr};
ghost use Rattle.vdr_terms.specs.Records.{Record};
ghost use Rattle.vdr_entry.specs.Queries.{asked};
ghost use Rattle.vdr_visit.specs.Refusals.{HasOutputCause};
ghost use Rattle.vdr_export.specs.Asked.{MayBeAsked};
ghost use Rattle.vdr_export.specs.Answers.{FileEnds, IsFileRefusal, IsWaveRefusal, IsWriteRefusal, MayBeBegun, file_end, file_of, wave_of};
ghost use Rattle.vdr_export.specs.Sounds.{heard};
ghost use Rattle.vdr_export.specs.declared.refused.ExportRefused.TheVariants.{Fault as AFault, Output};

use crate::block::Block;
use crate::images::write_listing;
use crate::picture::write_picture;
use crate::refused::ExportRefused;
use crate::timing::Timing;
use crate::waves::{wave_size, write_wave};
use std::alloc::Global;
use vdr_entry::Query;
use vdr_outside::{Media, Sink};
use vdr_visit::Reader;

/// What file is to be made.
#[derive(Clone, Copy, Drop)]
pub enum File {
    /// The sound of this microphone, as a WAVE file, with its frames where the timing says.
    Sound { microphone: u8, timing: Timing },
    /// The image of this block.
    Picture(Block),
    /// The list of the images.
    Listing,
}

// Writes a sound in two passes.
fn export_wave<R: Reader, M: Media, O: Sink>(
    reader: &mut R,
    media: &mut M,
    query: &Query,
    microphone: u8,
    timing: Timing,
    out: &mut O,
) -> Result<(), ExportRefused>
    requires asked { MayBeAsked R.Reader query.now reader.old (M.disk media.old).sizes }
    ensures wave { (records : List Record) → R.tells _ M.Media reader.old media.old (asked query.now) records
        → FileEnds (wave_of timing (heard microphone records)) (O.taken out.old) (O.taken out.new) result }
    ensures silent { IfErr result (λ why. IsWriteRefusal why ⊎ (out.new ≡ out.old)) }
    ensures own { IfErr result IsWaveRefusal }
    ensures failed { R.failed reader.old ≡ true → (result ≡ Err AFault) × (reader.new ≡ reader.old) × (media.new ≡ media.old) × (out.new ≡ out.old) }
    ensures leaves { R.leaves _ M.Media (asked query.now) reader.old reader.new media.old media.new (file_end result) }
    ensures output { HasOutputCause (O.faults out.old) (O.faults out.new) (result ≡ Err Output) }
{
    R::law_of_visits::<M>();
    let size = wave_size(reader, media, query, microphone, timing)?;
    write_wave(reader, media, query, microphone, timing, &size, out)
}

/// Writes a file out of what a query selects: a sound by `wave_size` and then `write_wave`, a picture by
/// `write_picture`, a list of images by `write_listing`. Takes no memory for a sound. The query's channel is
/// configured, and its incident is live, where it asks for one.
///
/// Where there is no such file it is refused, and nothing is written. Where a read or a write fails, a front of it may be written.
pub fn export_file<R: Reader, M: Media, O: Sink>(
    alloc: Global,
    reader: &mut R,
    media: &mut M,
    query: &Query,
    file: &File,
    out: &mut O,
) -> Result<(), ExportRefused>
    requires asked { MayBeAsked R.Reader query.now reader.old (M.disk media.old).sizes }
    ensures file { (records : List Record) → R.tells _ M.Media reader.old media.old (asked query.now) records
        → FileEnds (file_of file.now records) (O.taken out.old) (O.taken out.new) result }
    ensures silent { IfErr result (λ why. MayBeBegun file.now why ⊎ (out.new ≡ out.old)) }
    ensures own { IfErr result (IsFileRefusal file.now) }
    ensures failed { R.failed reader.old ≡ true → (result ≡ Err AFault) × (reader.new ≡ reader.old) × (media.new ≡ media.old) × (out.new ≡ out.old) }
    ensures leaves { R.leaves _ M.Media (asked query.now) reader.old reader.new media.old media.new (file_end result) }
    ensures output { HasOutputCause (O.faults out.old) (O.faults out.new) (result ≡ Err Output) }
{
    match file {
        File::Sound { microphone, timing } => {
            export_wave(reader, media, query, *microphone, *timing, out)
        }
        File::Picture(block) => write_picture(alloc, reader, media, query, block, out),
        File::Listing => write_listing(alloc, reader, media, query, out),
    }
}
