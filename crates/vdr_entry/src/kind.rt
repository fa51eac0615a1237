/// What kind of record it is.
#[derive(Clone, Copy, Debug, PartialEq, Eq, Drop)]
pub enum Kind {
    /// A run of the recorder begins.
    Start,
    /// A datagram was received.
    Datagram,
    /// Items of a group were missed.
    Gap,
    /// A run of the recorder ended as it should.
    Stop,
}
