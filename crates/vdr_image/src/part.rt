/// Which part of which image a header announces: what a track keeps of the header last seen.
#[derive(Clone, Copy, Drop)]
pub(crate) struct Part {
    pub(crate) source: [u8; 6],
    pub(crate) block: u32,
    pub(crate) sequence: u32,
    pub(crate) greatest: u32,
}
