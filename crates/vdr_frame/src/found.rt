// What a captured packet is.

/// Why a packet holds no datagram to the port of a group.
#[derive(Clone, Copy, Debug, PartialEq, Eq, Drop)]
pub enum Cause {
    /// The type of its link is none that is read.
    Link,
    /// Its headers were not captured whole.
    Short,
    /// It is neither IPv4 nor IPv6, or IPv4 of another protocol than UDP.
    Protocol,
    /// It is IPv6.
    Ipv6,
    /// It is a later fragment, which has no ports.
    Fragment,
    /// Its lengths or its version contradict each other.
    Malformed,
    /// It goes to another port, this one.
    Port(u16),
}

/// What a captured packet is. A group is below 16.
#[derive(Clone, Copy, Debug, PartialEq, Eq, Drop)]
pub enum Found<'a> {
    /// No datagram to the port of a group.
    Left(Cause),
    /// A datagram to this group's port of which a part was captured, or its first fragment.
    Cut(u8),
    /// A datagram to the port of a group, captured whole.
    Whole {
        /// The group.
        group: u8,
        /// Its payload; of one of more than 1,472 bytes the first 1,473.
        payload: &'a [u8],
    },
}
