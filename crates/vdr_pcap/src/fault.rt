/// Why a capture is read no further.
#[derive(Clone, Copy, Debug, PartialEq, Eq, Drop)]
pub enum CaptureFault {
    /// The source failed.
    Fault,
    /// What stands at the offset is refused.
    Refused { number: u8, offset: u64 },
}
