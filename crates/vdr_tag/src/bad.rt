/// Why the TAG blocks at the front of a line are refused: the first variant, in this order, that holds of the first block that is not
/// legal (this project's profile).
#[derive(Clone, Copy, Debug, PartialEq, Eq, Drop)]
pub enum BadTag {
    /// No further `\` closes the block.
    Unclosed,
    /// No `*` and two hexadecimal digits before the closing `\`.
    Missing,
    /// Another checksum than that of the items.
    Wrong {
        /// What the two digits say.
        written: u8,
        /// The exclusive or of the bytes between the opening `\` and the `*`.
        computed: u8,
    },
    /// An item without a colon, or with nothing before it.
    Field,
    /// A value that is not accepted under its code.
    Value,
}
