// The sides of a relay.

/// A side of a relay, which failed.
#[derive(Clone, Copy, Drop)]
pub(crate) enum Side {
    /// The source.
    Input,
    /// The sink.
    Output,
}
