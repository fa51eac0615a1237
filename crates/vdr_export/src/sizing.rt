// How large a sound is.
ghost use Rattle.std.specs.Prelude.{◌≡◌, ◌≤◌, ◌∷◌, ◌++◌, ℕ, List, [], Err, IfErr, IfOk, OnOk};
ghost use Rattle.vdr_terms.specs.Stamps.{last_stamp};
ghost use Rattle.vdr_export.specs.Answers.{IsSizeRefusal, size_of};
ghost use Rattle.vdr_export.specs.Heard.{IsMixed, IsSized};
ghost use Rattle.vdr_export.specs.Sounds.{Heard};
ghost use Rattle.vdr_export.specs.Tails.{heard_as};
ghost use Rattle.vdr_export.specs.Waves.{IsWaveSize};
ghost use Rattle.vdr_export.specs.declared.refused.ExportRefused.TheVariants.{Damaged, Fault as AFault};
ghost use Rattle.vdr_export.specs.declared.timing.Timing.{Timing as ATiming};

use crate::frames::{heard_in, stamp_of};
use crate::rate::SampleRate;
use crate::refused::ExportRefused;
use crate::timing::Timing;
use crate::track::Track;
use crate::wave::WaveSize;
use vdr_entry::Record;
use vdr_outside::Sink;
use vdr_pcm::PcmFrame;
use vdr_visit::{Visitor, VisitorRefused};

/// The most bytes of sound that a file has.
const MOST_BYTES: u64 = 4_294_967_258;

/// Stands for any greater number of bytes.
const TOO_MANY: u64 = 4_294_967_296;

/// What is known of the frames of a microphone that were heard so far.
#[derive(Drop)]
pub(crate) struct Sizing {
    // That of the first frame, and so of all.
    rate: Option<SampleRate>,
    track: Track,
    bytes: u64,
}

impl Sizing {
    /// No frame was heard.
    pub(crate) fn new(timing: Timing) -> Sizing
        ensures { IsSized timing [] result }
    {
        Sizing {
            rate: None,
            track: Track::new(timing),
            bytes: 0,
        }
    }

    // Hears one more frame, of the record at this place, with this stamp.
    fn hear(&mut self, place: u64, stamp: u64, frame: &PcmFrame<'_>) -> Result<(), ExportRefused>
        requires { stamp ≤ last_stamp }
        ensures sized { (timing : ATiming) (hs : List Heard) → IsSized timing hs self.old → OnOk result (IsSized timing (hs ++ heard_as place stamp frame.now ∷ []) self.new) }
        ensures mixed { (timing : ATiming) (hs : List Heard) → IsSized timing hs self.old → IfErr result (IsMixed (hs ++ heard_as place stamp frame.now ∷ [])) }
    {
        match self.rate {
            None => self.rate = Some(SampleRate { hertz: frame.rate }),
            Some(rate) if rate.hertz != frame.rate => return Err(ExportRefused::Mixed { place }),
            Some(_) => {}
        }
        let more = 2 * self.track.follow(stamp, frame) + frame.samples.len() as u64;
        self.bytes = self.bytes.saturating_add(more).min(TOO_MANY);
        Ok(())
    }

    /// The size, once all frames were heard.
    pub(crate) fn size(&self) -> Result<WaveSize, ExportRefused>
        ensures size { (timing : ATiming) (hs : List Heard) → IsSized timing hs self.now → result ≡ size_of timing hs }
        ensures legal { IfOk result IsWaveSize }
        ensures own { IfErr result IsSizeRefusal }
        ensures fault { result ≡ Err AFault → ⊥ }
        ensures undamaged { (m offset : ℕ) → result ≡ Err (Damaged m offset) → ⊥ }
    {
        let Some(rate) = self.rate else {
            return Err(ExportRefused::Nothing);
        };
        if self.bytes > MOST_BYTES {
            return Err(ExportRefused::Long);
        }
        Ok(WaveSize {
            rate: rate.hertz,
            bytes: self.bytes as u32,
        })
    }
}

/// Hears the frames of a microphone, for their size. It prints nothing.
#[derive(Drop)]
pub(crate) struct Hearing {
    microphone: u8,
    /// What was heard so far.
    pub(crate) sizing: Sizing,
}

impl Hearing {
    /// No frame was heard.
    pub(crate) fn new(microphone: u8, timing: Timing) -> Hearing
        ensures microphone { result.microphone ≡ microphone }
        ensures nothing { IsSized timing [] result.sizing }
    {
        Hearing {
            microphone,
            sizing: Sizing::new(timing),
        }
    }
}

impl Visitor for Hearing {
    ghost use Rattle.std.specs.Prelude.{◌≡◌, []};
    ghost use Rattle.vdr_export.specs.Heard.{IsMixed, IsSized};
    ghost use Rattle.vdr_export.specs.Sounds.{heard};

    type Reason = ExportRefused;

    ghost has = { λ first seen now. (now.microphone ≡ first.microphone) × IsSized first.sizing.track.timing (heard first.microphone seen) now.sizing };

    ghost line = { λ _ _ _. [] };

    ghost last = { λ _ _. [] };

    ghost stops = { λ first seen reason. IsMixed (heard first.microphone seen) reason };

    fn visit<O: Sink>(
        &mut self,
        item: &Record,
        _out: &mut O,
    ) -> Result<(), VisitorRefused<ExportRefused>> {
        let Some(frame) = heard_in(item, self.microphone) else {
            return Ok(());
        };
        match self.sizing.hear(item.place, stamp_of(item), &frame) {
            Ok(()) => Ok(()),
            Err(refused) => Err(VisitorRefused::Own(refused)),
        }
    }

    fn finish<O: Sink>(&mut self, _out: &mut O) -> Result<(), VisitorRefused<ExportRefused>> {
        Ok(())
    }
}
