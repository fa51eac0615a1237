// A sound out of what a query selects, in two passes: its size, and then its samples.
ghost use Rattle.std.specs.Prelude.{◌≡◌, ℕ, List, true, Ok, Err, IfErr, IfOk, OnOk};
ghost use Rattle.std.specs.Io.KnownBytes.{Appends};
ghost use Rattle.vdr_outside.specs.Writes.{AppendsFront};
ghost use Rattle.vdr_terms.specs.Records.{Record};
ghost use Rattle.vdr_entry.specs.Queries.{asked};
ghost use Rattle.vdr_visit.specs.Refusals.{HasOutputCause};
ghost use Rattle.vdr_export.specs.Asked.{MayBeAsked};
ghost use Rattle.vdr_export.specs.Answers.{AnswersOrFails, IsSizeRefusal, IsWriteRefusal, OkOrFails, file_end, size_of};
ghost use Rattle.vdr_export.specs.Sounds.{heard};
ghost use Rattle.vdr_export.specs.Waves.{IsWaveSize, wave_file};
ghost use Rattle.vdr_export.specs.declared.refused.ExportRefused.TheVariants.{Fault as AFault, Output};

use crate::nowhere::Nowhere;
use crate::refused::{ExportRefused, refusal_of};
use crate::sizing::Hearing;
use crate::timing::Timing;
use crate::wave::{WaveSize, header_of};
use crate::writing::Writing;
use vdr_entry::Query;
use vdr_outside::{Media, Sink, write_all};
use vdr_visit::{Reader, visit_buffered};

/// The rate and the size of the sound that a query selects of a microphone (IEC 61996-1 asks that bridge audio be recorded; its frames are
/// this project's profile). Takes no memory. The query's channel is configured, and its incident is live, where it asks for one.
///
/// The sound is the samples of the microphone's PCM frames in the order of their records, with zero samples between them. By numbers these are,
/// between two frames of which the second's number is m + 1 more than the first's, m times as many as the first frame has. By stamps they are as
/// many as bring a frame to where the stamp of its record says; none where the sound has come there, or is at most 10 ms before it.
///
/// `Nothing`, `Mixed` and `Long` come exactly in their cases, in this order. `Damaged` never comes of media that hold what was recorded.
pub fn wave_size<R: Reader, M: Media>(
    reader: &mut R,
    media: &mut M,
    query: &Query,
    microphone: u8,
    timing: Timing,
) -> Result<WaveSize, ExportRefused>
    requires asked { MayBeAsked R.Reader query.now reader.old (M.disk media.old).sizes }
    ensures size { (records : List Record) → R.tells _ M.Media reader.old media.old (asked query.now) records
        → AnswersOrFails (size_of timing (heard microphone records)) result }
    ensures legal { IfOk result IsWaveSize }
    ensures own { IfErr result IsSizeRefusal }
    ensures failed { R.failed reader.old ≡ true → (result ≡ Err AFault) × (reader.new ≡ reader.old) × (media.new ≡ media.old) }
    ensures leaves { R.leaves _ M.Media (asked query.now) reader.old reader.new media.old media.new (file_end result) }
{
    R::law_of_visits::<M>();
    let mut hearing = Hearing::new(microphone, timing);
    if let Err(stop) = reader.visit(media, query, &mut hearing, &mut Nowhere) {
        return Err(refusal_of(stop));
    }
    hearing.sizing.size()
}

/// Writes the sound that a query selects of a microphone as a WAVE file (RIFF) of this size: a header of 44 bytes, which tells linear PCM of
/// one channel and 16 bits, and then the samples. The size is what `wave_size` answered for the same query, microphone and timing, with
/// nothing recorded, saved or released since. Takes no memory. The query's channel is configured, and its incident is live, where it asks for one.
///
/// Where a read or a write fails, a front of the file is written.
pub fn write_wave<R: Reader, M: Media, O: Sink>(
    reader: &mut R,
    media: &mut M,
    query: &Query,
    microphone: u8,
    timing: Timing,
    size: &WaveSize,
    out: &mut O,
) -> Result<(), ExportRefused>
    requires asked { MayBeAsked R.Reader query.now reader.old (M.disk media.old).sizes }
    requires size { IsWaveSize size.now }
    ensures written { (records : List Record) → R.tells _ M.Media reader.old media.old (asked query.now) records
        → OnOk result (Appends (O.taken out.old) (O.taken out.new) (wave_file size.now timing (heard microphone records))) }
    ensures front { (records : List Record) → R.tells _ M.Media reader.old media.old (asked query.now) records
        → AppendsFront (O.taken out.old) (O.taken out.new) (wave_file size.now timing (heard microphone records)) }
    ensures undamaged { (records : List Record) → R.tells _ M.Media reader.old media.old (asked query.now) records → OkOrFails result }
    ensures own { IfErr result IsWriteRefusal }
    ensures leaves { R.leaves _ M.Media (asked query.now) reader.old reader.new media.old media.new (file_end result) }
    ensures output { HasOutputCause (O.faults out.old) (O.faults out.new) (result ≡ Err Output) }
{
    R::law_of_visits::<M>();
    let Ok(()) = write_all(out, header_of(size).as_slice()) else {
        return Err(ExportRefused::Output);
    };
    let mut writing = Writing::new(microphone, timing);
    if let Err(stop) = visit_buffered(reader, media, query, &mut writing, out) {
        return Err(refusal_of(stop));
    }
    Ok(())
}
