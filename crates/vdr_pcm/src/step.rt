/// How a PCM frame follows the frame last seen.
#[derive(Clone, Copy, Debug, PartialEq, Eq, Drop)]
pub enum PcmStep {
    /// No frame was seen before, or the last one was of another microphone.
    First,
    /// So many frames are missing between the last one and this one, 0 where none is.
    Missing(u32),
    /// The number of the frame is not above that of the last one.
    Back,
}
