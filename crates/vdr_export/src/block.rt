/// Which image: its block of a source.
#[derive(Clone, Copy, PartialEq, Eq, Hash, Drop)]
pub struct Block {
    /// Six bytes of 0x21 to 0x7E.
    pub source: [u8; 6],
    /// The number by which the source tells its images apart.
    pub number: u32,
}
