// `from`, behind its words.
ghost use Rattle.std.specs.Prelude.{◌≡◌, ◌≤◌};
ghost use Rattle.vdr_outside.specs.Causes.{Rose};
ghost use Rattle.vdr_command.specs.declared.status.Status.TheVariants.{InputFault};
ghost use Rattle.vdr_from.specs.Readings.{RunsFrom};

use crate::answering::answer_from;
use crate::words::reading_from;
use std::alloc::Global;
use vdr_command::{Status, report};
use vdr_outside::{Media, Sink};
use vdr_verify::StoredFile;

/// Does what the words ask for of a stored file of evidence, and tells how it ended: `from COMMAND WORDS`, where COMMAND is `play`,
/// `values`, `track`, `sources`, `watch`, `runs`, `digest`, `targets`, `wav`, `picture` or `pictures`, and WORDS are those of the command
/// without its MEDIUM. It prints what the command prints of those records of the file that its words select, whatever the medium on
/// which they stood.
///
/// A file that is not evidence ends with `NoEvidence` at its first part that is not legal, as `verify` tells it, and nothing is printed
/// before. One that is another one by the time that it is read again ends with `NoEvidence` at the digest; a front of what the command
/// prints may stand before, and what stands behind the last record never does. `InputFault`: the file could not be read.
///
/// Any other words end with `Words`, and nothing is touched. For each status but `Done` and `OutputFault` the output ends with a status
/// line. The media are those that an opening would take; they are left alone.
pub fn read_from<F: StoredFile, M: Media, O: Sink>(
    alloc: Global,
    words: &[String],
    file: &mut F,
    media: &mut M,
    out: &mut O,
) -> Status
    ensures runs { RunsFrom words.now (F.whole file.old) (record { taken = O.taken out.old; faults = O.faults out.old }) (record { taken = O.taken out.new; faults = O.faults out.new }) result }
    ensures fault { result ≡ InputFault → Rose (F.faults file.old) (F.faults file.new) }
    ensures untouched { media.new ≡ media.old }
{
    let Some(reading) = reading_from(words) else {
        report(Status::Words, out);
        return Status::Words;
    };
    let Err(status) = answer_from(alloc, reading, file, media, out) else {
        return Status::Done;
    };
    report(status, out);
    status
}
