// The track of a stream of sound: how each frame follows the one before.
//
// Numbers of frames don't begin again: behind 4,294,967,295 frame 0 is back. One track keeps one frame: where two
// microphones alternate each is first.
ghost use Rattle.std.specs.Prelude.{◌≡◌, Some, None};
ghost use Rattle.vdr_pcm.specs.Tracks.{after};

use crate::frame::PcmFrame;
use crate::frame_number::FrameNumber;
use crate::step::PcmStep;
use std::marker::Model;

/// Follows the PCM frames of a stream: it keeps what it needs of the frame last seen.
#[derive(Drop)]
pub struct PcmTrack {
    last: Option<FrameNumber>,
}

impl Model for PcmTrack {
    ghost use Rattle.std.specs.Prelude.{Option};
    ghost use Rattle.vdr_pcm.specs.declared.frame_number.FrameNumber.{FrameNumber};

    ghost Value = { Option FrameNumber };

    ghost view = { λ track. track.last };
}

// The step between two frames of one microphone. Numbers don't begin again at 0 behind the greatest.
fn step_after(last: u32, now: u32) -> PcmStep
    ensures { result ≡ after last now }
{
    if last < now {
        PcmStep::Missing(now - last - 1)
    } else {
        PcmStep::Back
    }
}

impl PcmTrack {
    ghost use Rattle.vdr_pcm.specs.Tracks.{number_of, pcm_step};
    ghost use Rattle.vdr_pcm.specs.Views.{frame_of};

    /// No frame was seen yet.
    pub fn new() -> PcmTrack
        ensures { result ≡ None }
    {
        PcmTrack { last: None }
    }

    /// How this frame follows the one last seen (this project's profile). From then on this one is the one last seen.
    pub fn step(&mut self, frame: &PcmFrame<'_>) -> PcmStep
        ensures step { result ≡ pcm_step self.old (number_of (frame_of frame.now)) }
        ensures seen { self.new ≡ Some (number_of (frame_of frame.now)) }
    {
        let now = FrameNumber {
            microphone: frame.microphone,
            frame: frame.frame,
        };
        let step = match self.last {
            Some(last) if last.microphone == now.microphone => step_after(last.frame, now.frame),
            _ => PcmStep::First,
        };
        self.last = Some(now);
        step
    }
}
