/// The place of a sentence in a group of sentences.
#[derive(Clone, Copy, Debug, PartialEq, Eq, Drop)]
pub struct Grouping {
    /// The number of the sentence in its group, from 1 to `total`.
    pub number: u32,
    /// How many sentences the group has.
    pub total: u32,
    /// The group's code.
    pub code: u32,
}
