/// The first refusal that holds of bytes that are no sentence (this project's profile).
#[derive(Clone, Copy, Debug, PartialEq, Eq, Drop)]
pub enum Bad {
    /// No byte is there, or the first is neither `$` nor `!`.
    Start,
    /// More than 82 bytes, or no CR LF at the end.
    Length,
    /// A byte that may not stand where it does.
    Character,
    /// No talker and formatter, and no proprietary address.
    Address,
    /// No `*` and two hexadecimal digits before the CR LF.
    Missing,
    /// Another checksum than that of the content.
    Wrong {
        /// What the two digits say.
        written: u8,
        /// The exclusive or of the content.
        computed: u8,
    },
}
