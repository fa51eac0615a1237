// What a record says, by its kind.
use vdr_terms::Counts;

/// What a record says.
#[derive(Clone, Copy, Drop)]
pub enum Content<'a> {
    /// A run of the recorder begins.
    Start,
    /// The bytes of a datagram, as they were received.
    Datagram(&'a [u8]),
    /// How many items of a group were missed.
    Gap(Counts),
    /// A run of the recorder ended as it should.
    Stop,
}
