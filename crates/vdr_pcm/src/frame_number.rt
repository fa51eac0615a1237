/// Which frame of which microphone: what a track keeps of the frame last seen.
#[derive(Clone, Copy, Drop)]
pub(crate) struct FrameNumber {
    pub(crate) microphone: u8,
    pub(crate) frame: u32,
}
