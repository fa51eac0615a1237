// Reading a PCM frame.
ghost use Rattle.std.specs.Prelude.{◌≡◌, ◌==◌, ◌+◌, ◌*◌, option_map, length, IfSome, IfNone};
ghost use Rattle.vdr_bytes.specs.Numbers.{u16_at};
ghost use Rattle.vdr_pcm.specs.Frames.{Frame};
ghost use Rattle.vdr_pcm.specs.Datagrams.{IsPcm, is_pcm, is_rate, pcm_in};
ghost use Rattle.vdr_pcm.specs.Views.{frame_of};

use crate::frame::PcmFrame;
use vdr_bytes::{u16_at, u32_at};

/// The size of a frame without its samples, in bytes: with the token.
const HEADER_SIZE: usize = 17;

/// The greatest rate, in samples a second.
const GREATEST_RATE: u32 = 192_000;

// The bytes behind the header are as many samples of two bytes as the header says.
fn has_its_samples(bytes: &[u8]) -> bool
    ensures { result ≡ (length bytes.now == 17 + 2 * u16_at 15 bytes.now) }
{
    bytes.len() >= HEADER_SIZE && bytes.len() - HEADER_SIZE == 2 * usize::from(u16_at(bytes, 15))
}

fn is_rate(rate: u32) -> bool
    ensures { result ≡ is_rate rate }
{
    1 <= rate && rate <= GREATEST_RATE
}

fn is_pcm(bytes: &[u8]) -> bool
    ensures { result ≡ is_pcm bytes.now }
{
    bytes.starts_with(b"PcmFr\0") && has_its_samples(bytes) && is_rate(u32_at(bytes, 11))
}

/// Reads a PCM frame (this project's profile), which is all of the bytes. None exactly where they aren't one: no token `PcmFr` NUL, not
/// 17 bytes and two for each of the samples that they count, or a rate outside 1 to 192,000.
pub fn read_pcm(bytes: &[u8]) -> Option<PcmFrame<'_>>
    // What is read is what the bytes are, and other bytes are no frame.
    ensures frame { IfSome result (λ frame. IsPcm bytes.now (frame_of frame)) }
    ensures no_frame { IfNone result ((frame : Frame) → IsPcm bytes.now frame → ⊥) }

    // The same as a function of the bytes.
    ensures exact { option_map frame_of result ≡ pcm_in bytes.now }
{
    if !is_pcm(bytes) {
        return None;
    }
    Some(PcmFrame {
        microphone: bytes[6],
        frame: u32_at(bytes, 7),
        rate: u32_at(bytes, 11),
        samples: &bytes[HEADER_SIZE..],
    })
}
