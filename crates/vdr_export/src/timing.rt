/// Where the frames of a sound stand.
#[derive(Clone, Copy, Drop)]
pub enum Timing {
    /// One behind another, with silence where numbers of frames are missing.
    Numbered,
    /// Where the stamps of their records say, with silence where nothing is.
    Stamped {
        /// The stamp of the first sample, in milliseconds since 1970; None where it is that of the first frame.
        from: Option<u64>,
    },
}
