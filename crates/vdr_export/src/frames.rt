// The frames of a microphone that records have.
ghost use Rattle.std.specs.Prelude.{◌≡◌, ◌<◌, ◌≤◌, ◌*◌, ◌^◌, option_map, unsigned_abs, Option};
ghost use Rattle.vdr_terms.specs.Stamps.{last_stamp};
ghost use Rattle.vdr_pcm.specs.Frames.{Frame};
ghost use Rattle.vdr_pcm.specs.Views.{frame_of};
ghost use Rattle.vdr_export.specs.Sounds.{frame_in, heard_in};
ghost use Rattle.vdr_export.specs.Tails.{heard_as, tail_of};
ghost use Rattle.vdr_export.specs.Tracks.{missing};

use vdr_entry::{Content, Record};
use vdr_pcm::{PcmFrame, read_pcm};

/// What the samples that are missing behind a frame are told by.
#[derive(Clone, Copy, Drop)]
pub(crate) struct Tail {
    /// The number of the frame.
    pub(crate) frame: u32,
    /// How many samples it has.
    pub(crate) samples: u16,
}

fn frame_in(item: &Record) -> Option<PcmFrame<'_>>
    ensures { option_map frame_of result ≡ frame_in item.now.content }
{
    match item.content() {
        Content::Datagram(payload) => read_pcm(payload),
        Content::Start | Content::Gap(_) | Content::Stop => None,
    }
}

/// The frame of a record, if it has one of this microphone.
pub(crate) fn heard_in(item: &Record, microphone: u8) -> Option<PcmFrame<'_>>
    ensures { option_map (heard_as item.now.place (unsigned_abs item.now.utc)) result ≡ heard_in microphone item.now }
{
    match frame_in(item) {
        Some(frame) if frame.microphone == microphone => Some(frame),
        _ => None,
    }
}

/// The stamp of a record, in milliseconds since 1970.
pub(crate) fn stamp_of(item: &Record) -> u64
    ensures stamp { result ≡ unsigned_abs item.now.utc }
    ensures few { result ≤ last_stamp }
{
    item.utc.unsigned_abs()
}

/// How many samples are missing before a frame.
pub(crate) fn missing(before: Option<Tail>, frame: &PcmFrame<'_>) -> u64
    ensures missing { (told : Option Frame) → before ≡ option_map tail_of told → result ≡ missing told (frame_of frame.now) }
    ensures few { result < 2 ^ 48 }
{
    match before {
        Some(tail) if tail.frame < frame.frame => {
            u64::from(frame.frame - tail.frame - 1) * u64::from(tail.samples)
        }
        _ => 0,
    }
}

/// What is kept of a frame.
pub(crate) fn tail_of(frame: &PcmFrame<'_>) -> Tail
    ensures { result ≡ tail_of (frame_of frame.now) }
{
    Tail {
        frame: frame.frame,
        samples: (frame.samples.len() / 2) as u16,
    }
}
