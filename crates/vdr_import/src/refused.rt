// Why a capture is read no further.

/// Why a capture is not written out, or not counted, to its end.
#[derive(Clone, Copy, Debug, PartialEq, Eq, Drop)]
pub enum ImportRefused {
    /// The source failed, and its count of faults rose.
    Input,
    /// The sink failed, and its count of faults rose.
    Output,
    /// What stands at this offset of the capture is refused by this number.
    Refused { number: u8, offset: u64 },
}
