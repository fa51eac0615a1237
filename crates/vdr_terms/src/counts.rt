/// How many items of a group were missed, by cause.
#[derive(Clone, Copy, Debug, PartialEq, Eq, Drop)]
pub struct Counts {
    /// The group's queue was full.
    pub full: u64,
    /// Refused by the group's rate.
    pub rate: u64,
    /// No recordable datagram: fewer than six bytes, or no token.
    pub bad: u64,
    /// More than 1,472 bytes.
    pub large: u64,
}
