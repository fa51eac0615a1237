// Where a sound goes on behind the frames that were met so far.
ghost use Rattle.std.specs.Prelude.{◌≡◌, ◌≤◌, ◌<◌, ◌-◌, ◌^◌};
ghost use Rattle.vdr_terms.specs.Stamps.{last_stamp};
ghost use Rattle.vdr_pcm.specs.Views.{frame_of};
ghost use Rattle.vdr_export.specs.Heard.{IsTrack};
ghost use Rattle.vdr_export.specs.Tracks.{Track as ATrack, gap, jitter, next, no_track, pause, samples_in};
ghost use Rattle.vdr_export.specs.declared.timing.Timing.{Timing as ATiming};

use crate::frames::{Tail, missing, tail_of};
use crate::timing::Timing;
use vdr_pcm::PcmFrame;

/// A frame that lies at most so many milliseconds behind the end of the sound follows right behind it.
const JITTER: u64 = 10;

/// How many samples are counted: by its stamp no frame lies behind so many.
const MOST_SAMPLES: u64 = 72_057_594_037_927_936;

/// How many whole samples a number of milliseconds has.
fn samples_in(rate: u32, milliseconds: u64) -> u64
    requires rate { rate ≤ 192_000 }
    requires milliseconds { milliseconds ≤ last_stamp }
    ensures samples { result ≡ samples_in rate milliseconds }
    ensures few { result ≤ 2 ^ 56 }
{
    let rate = u64::from(rate);
    milliseconds / 1_000 * rate + milliseconds % 1_000 * rate / 1_000
}

/// The silence before a frame of this rate, which lies so many milliseconds behind the start of a sound that has `end`
/// samples so far.
fn pause(rate: u32, behind: u64, end: u64) -> u64
    requires rate { rate ≤ 192_000 }
    requires behind { behind ≤ last_stamp }
    ensures pause { result ≡ pause (samples_in rate jitter) (samples_in rate behind - end) }
    ensures few { result ≤ 2 ^ 56 }
{
    let late = samples_in(rate, behind).saturating_sub(end);
    if late > samples_in(rate, JITTER) {
        late
    } else {
        0
    }
}

/// Where a sound goes on behind the frames that were met so far.
#[derive(Drop)]
pub(crate) struct Track {
    timing: Timing,
    last: Option<Tail>,
    // The stamp of the first frame.
    first: Option<u64>,
    // How many samples they come to, with the silence between them.
    end: u64,
}

impl Track {
    /// No frame was met.
    pub(crate) fn new(timing: Timing) -> Track
        ensures { IsTrack timing no_track result }
    {
        Track {
            timing,
            last: None,
            first: None,
            end: 0,
        }
    }

    // How many samples of silence stand before a frame of a record with this stamp.
    fn gap(&self, stamp: u64, frame: &PcmFrame<'_>) -> u64
        requires { stamp ≤ last_stamp }
        ensures gap { (timing : ATiming) (told : ATrack) → IsTrack timing told self.now → result ≡ gap timing told stamp (frame_of frame.now) }
        ensures few { result ≤ 2 ^ 56 }
    {
        match self.timing {
            Timing::Numbered => missing(self.last, frame),
            Timing::Stamped { from } => {
                let start = from.or(self.first).unwrap_or(stamp);
                pause(frame.rate, stamp.saturating_sub(start), self.end)
            }
        }
    }

    /// Meets a frame of a record with this stamp. Tells how many samples of silence stand before it.
    pub(crate) fn follow(&mut self, stamp: u64, frame: &PcmFrame<'_>) -> u64
        requires { stamp ≤ last_stamp }
        ensures gap { (timing : ATiming) (told : ATrack) → IsTrack timing told self.old → result ≡ gap timing told stamp (frame_of frame.now) }
        ensures next { (timing : ATiming) (told : ATrack) → IsTrack timing told self.old → IsTrack timing (next timing told stamp (frame_of frame.now)) self.new }
        ensures few { result ≤ 2 ^ 56 }
    {
        let gap = self.gap(stamp, frame);
        let tail = tail_of(frame);
        let more = gap + u64::from(tail.samples);
        self.last = Some(tail);
        self.first = Some(self.first.unwrap_or(stamp));
        self.end = self.end.saturating_add(more).min(MOST_SAMPLES);
        gap
    }
}
