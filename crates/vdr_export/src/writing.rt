// How a sound is written.
ghost use Rattle.std.specs.Prelude.{◌≡◌, ◌++◌, [], Err, OnOk};
ghost use Rattle.std.specs.Io.KnownBytes.{Appends};
ghost use Rattle.vdr_outside.specs.Causes.{HasCause};
ghost use Rattle.vdr_outside.specs.Writes.{AppendsFront};
ghost use Rattle.vdr_export.specs.Heard.{IsWritten};
ghost use Rattle.vdr_export.specs.Sounds.{silence};

use crate::frames::{heard_in, stamp_of};
use crate::refused::ExportRefused;
use crate::silence::write_silence;
use crate::timing::Timing;
use crate::track::Track;
use vdr_entry::Record;
use vdr_outside::{Failed, Sink, write_all};
use vdr_pcm::PcmFrame;
use vdr_visit::{Visitor, VisitorRefused};

// Writes so many samples of silence, and then a frame's samples.
fn write_frame<O: Sink>(gap: u64, frame: &PcmFrame<'_>, out: &mut O) -> Result<(), Failed>
    ensures all { OnOk result (Appends (O.taken out.old) (O.taken out.new) (silence gap ++ frame.now.samples.now)) }
    ensures front { AppendsFront (O.taken out.old) (O.taken out.new) (silence gap ++ frame.now.samples.now) }
    ensures cause { HasCause (O.faults out.old) (O.faults out.new) result }
{
    write_silence(gap, out)?;
    write_all(out, frame.samples)
}

/// What is known of the frames of a microphone that were written so far.
#[derive(Drop)]
pub(crate) struct Writing {
    microphone: u8,
    track: Track,
}

impl Writing {
    /// No frame was written.
    pub(crate) fn new(microphone: u8, timing: Timing) -> Writing
        ensures { IsWritten microphone timing [] result }
    {
        Writing {
            microphone,
            track: Track::new(timing),
        }
    }
}

impl Visitor for Writing {
    ghost use Rattle.std.specs.Prelude.{[]};
    ghost use Rattle.vdr_export.specs.Heard.{IsWritten, added};
    ghost use Rattle.vdr_export.specs.Sounds.{heard};

    type Reason = ExportRefused;

    ghost has = { λ first seen now. IsWritten first.microphone first.track.timing (heard first.microphone seen) now };

    ghost line = { λ first seen item. added first.microphone first.track.timing seen item };

    ghost last = { λ _ _. [] };

    ghost stops = { λ _ _ _. ⊥ };

    fn visit<O: Sink>(
        &mut self,
        item: &Record,
        out: &mut O,
    ) -> Result<(), VisitorRefused<ExportRefused>> {
        let Some(frame) = heard_in(item, self.microphone) else {
            return Ok(());
        };
        let gap = self.track.follow(stamp_of(item), &frame);
        write_frame(gap, &frame, out)?;
        Ok(())
    }

    fn finish<O: Sink>(&mut self, _out: &mut O) -> Result<(), VisitorRefused<ExportRefused>> {
        Ok(())
    }
}
