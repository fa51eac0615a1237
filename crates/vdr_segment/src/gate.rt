/// The byte of an open gate (this project's profile). Every other byte is a closed one. What stands behind a gate counts
/// exactly while the gate is open.
pub const OPEN_GATE: u8 = 0xA5;

/// The byte that closes a gate.
pub const CLOSED_GATE: u8 = 0;
