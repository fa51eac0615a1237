// What may be read out of a stored file.
ghost use Rattle.std.specs.Prelude.{◌≡◌, ◌≤◌};
ghost use Rattle.vdr_outside.specs.Causes.{Rose};
ghost use Rattle.vdr_command.specs.Endings.{ending};
ghost use Rattle.vdr_command.specs.declared.status.Status.TheVariants.{InputFault};
ghost use Rattle.vdr_readout.specs.Readings.{plain_reading};
ghost use Rattle.vdr_readout.specs.Readings.Reading.{Targets};
ghost use Rattle.vdr_from.specs.Held.{IsKept};
ghost use Rattle.vdr_from.specs.Readings.{OwesFrom};

use crate::telling::tell_held;
use crate::writing::write_held;
use std::alloc::Global;
use vdr_command::Status;
use vdr_digest::Digester;
use vdr_entry::Medium;
use vdr_export::{Timing, Wish, timed_from};
use vdr_outside::{Media, Sink};
use vdr_readout::{Printer, Reading, up_to};
use vdr_recorder::SourceCounter;
use vdr_rows::Rows;
use vdr_runs::Runs;
use vdr_teller::{Lookout, Watcher};
use vdr_terms::LAST_STAMP;
use vdr_tool::status_of_verify;
use vdr_track::Track;
use vdr_verify::{Evidence, EvidenceReader, StoredFile, read_evidence};

// The table of ships of a file that was read to its end, up to this stamp.
fn tell_targets<F: StoredFile, M: Media, O: Sink>(
    alloc: Global,
    medium: Medium,
    at: i64,
    reader: &mut EvidenceReader<'_, F>,
    media: &mut M,
    out: &mut O,
) -> Result<(), Status>
    ensures owed { IsKept (F.whole reader.old.file.now) reader.old.kept → OwesFrom (Targets medium at) (F.whole reader.old.file.now)
        (record { taken = O.taken out.old; faults = O.faults out.old }) (record { taken = O.taken out.new; faults = O.faults out.new }) (ending result) }
    ensures fault { ending result ≡ InputFault → Rose (F.faults reader.old.file.now) (F.faults reader.new.file.now) }
    ensures falls { F.faults reader.old.file.now ≤ F.faults reader.new.file.now }
    ensures name { reader.new.file.ghost_name ≡ reader.old.file.ghost_name }
    ensures later { O.faults out.old ≤ O.faults out.new }
    ensures untouched { media.new ≡ media.old }
{
    let wanted = up_to(medium, at);
    tell_held(wanted, reader, &mut Lookout::new(alloc), media, out)
}

// What is asked of a file that was read to its end.
fn answer_held<F: StoredFile, M: Media, O: Sink>(
    alloc: Global,
    reading: Reading<'_>,
    reader: &mut EvidenceReader<'_, F>,
    media: &mut M,
    out: &mut O,
) -> Result<(), Status>
    ensures owed { IsKept (F.whole reader.old.file.now) reader.old.kept → OwesFrom (plain_reading reading.entry) (F.whole reader.old.file.now)
        (record { taken = O.taken out.old; faults = O.faults out.old }) (record { taken = O.taken out.new; faults = O.faults out.new }) (ending result) }
    ensures fault { ending result ≡ InputFault → Rose (F.faults reader.old.file.now) (F.faults reader.new.file.now) }
    ensures falls { F.faults reader.old.file.now ≤ F.faults reader.new.file.now }
    ensures name { reader.new.file.ghost_name ≡ reader.old.file.ghost_name }
    ensures later { O.faults out.old ≤ O.faults out.new }
    ensures untouched { media.new ≡ media.old }
{
    match reading {
        Reading::Play(wanted) => tell_held(wanted, reader, &mut Printer::new(), media, out),
        Reading::Values(wanted) => tell_held(wanted, reader, &mut Rows::new(alloc), media, out),
        Reading::Track(wanted, source) => {
            tell_held(wanted, reader, &mut Track::new(source), media, out)
        }
        Reading::Sources { medium } => {
            let wanted = up_to(medium, LAST_STAMP);
            tell_held(wanted, reader, &mut SourceCounter::new(alloc), media, out)
        }
        Reading::Watch { medium } => {
            let wanted = up_to(medium, LAST_STAMP);
            tell_held(wanted, reader, &mut Watcher::new(alloc), media, out)
        }
        Reading::Runs { medium } => {
            let wanted = up_to(medium, LAST_STAMP);
            tell_held(wanted, reader, &mut Runs::new(), media, out)
        }
        Reading::Digest { medium } => {
            let wanted = up_to(medium, LAST_STAMP);
            tell_held(wanted, reader, &mut Digester::new(), media, out)
        }
        Reading::Targets { medium, at } => tell_targets(alloc, medium, at, reader, media, out),
        Reading::Wav(wanted) => {
            let wish = Wish::Sound(Timing::Numbered);
            write_held(alloc, wanted, wish, reader, media, out)
        }
        Reading::TimedWav(wanted) => {
            let wish = Wish::Sound(timed_from(wanted.from));
            write_held(alloc, wanted, wish, reader, media, out)
        }
        Reading::Picture(wanted, block) => {
            write_held(alloc, wanted, Wish::Picture(block), reader, media, out)
        }
        Reading::Pictures(wanted) => {
            write_held(alloc, wanted, Wish::Listing, reader, media, out)
        }
    }
}

// The same of a file that is lent, and given back.
fn answer_lent<'a, F: StoredFile, M: Media, O: Sink>(
    alloc: Global,
    reading: Reading<'_>,
    kept: Evidence,
    file: &'a mut F,
    media: &mut M,
    out: &mut O,
) -> (&'a mut F, Result<(), Status>)
    ensures owed { IsKept (F.whole file.old) kept → OwesFrom (plain_reading reading.entry) (F.whole file.old)
        (record { taken = O.taken out.old; faults = O.faults out.old }) (record { taken = O.taken out.new; faults = O.faults out.new }) (ending result.1) }
    ensures fault { ending result.1 ≡ InputFault → Rose (F.faults file.old) (F.faults result.0.now) }
    ensures falls { F.faults file.old ≤ F.faults result.0.now }
    ensures name { result.0.ghost_name ≡ file.entry.ghost_name }
    ensures later { O.faults out.old ≤ O.faults out.new }
    ensures untouched { media.new ≡ media.old }
{
    let mut reader = EvidenceReader { kept, file };
    let ended = answer_held(alloc, reading, &mut reader, media, out);
    let EvidenceReader { file, .. } = reader;
    (file, ended)
}

/// Reads the file to its end, and then again for what is read out. The media are left alone.
pub(crate) fn answer_from<F: StoredFile, M: Media, O: Sink>(
    alloc: Global,
    reading: Reading<'_>,
    file: &mut F,
    media: &mut M,
    out: &mut O,
) -> Result<(), Status>
    ensures owed { OwesFrom (plain_reading reading.entry) (F.whole file.old)
        (record { taken = O.taken out.old; faults = O.faults out.old }) (record { taken = O.taken out.new; faults = O.faults out.new }) (ending result) }
    ensures fault { ending result ≡ InputFault → Rose (F.faults file.old) (F.faults file.new) }
    ensures falls { F.faults file.old ≤ F.faults file.new }
    ensures later { O.faults out.old ≤ O.faults out.new }
    ensures untouched { media.new ≡ media.old }
{
    let kept = match read_evidence(alloc, file) {
        Ok(kept) => kept,
        Err(refused) => return Err(status_of_verify(refused)),
    };
    let (lent, ended) = answer_lent(alloc, reading, kept, file, media, out);
    let _ = &*lent;
    ended
}
