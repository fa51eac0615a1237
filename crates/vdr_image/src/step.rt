/// How an image header follows the header last seen.
#[derive(Clone, Copy, Drop)]
pub enum ImageStep {
    /// No header was seen before.
    First,
    /// The next part of the same block; or, behind the greatest part of a block, the first part of another block of the same source.
    Next,
    /// Any other header, as where a part is missing or the source is another.
    Break,
}
