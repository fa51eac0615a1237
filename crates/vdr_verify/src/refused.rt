// Why a file is not verified.
use crate::part::Part;

/// Why a file is not verified.
#[derive(Clone, Copy, Debug, PartialEq, Eq, Drop)]
pub enum VerifyRefused {
    /// The source failed, and its count of faults rose.
    Input,
    /// The sink failed, and its count of faults rose.
    Output,
    /// There was no memory for the configuration.
    NoMemory,
    /// The file is no evidence: this part, which begins at this offset in bytes, is its first that is not legal. The offset stands
    /// still at the greatest u64.
    Illegal { part: Part, offset: u64 },
}
