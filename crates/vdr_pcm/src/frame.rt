// A frame of PCM samples (this project's profile).
ghost use Rattle.vdr_pcm.specs.Frames.{IsFrame};

/// A frame of PCM samples (this project's profile). Its type keeps the ranges.
#[derive(Clone, Copy, Drop)]
pub struct PcmFrame<'a> {
    /// The number of the microphone.
    pub microphone: u8,
    /// The number of the frame.
    pub frame: u32,
    /// Samples a second, 1 to 192,000.
    pub rate: u32,
    /// At most 65,535 signed samples of 16 bits, little-endian.
    pub samples: &'a [u8],
    pub ghost legal: { IsFrame (record { microphone = microphone; frame = frame; rate = rate; samples = samples.now }) },
}
