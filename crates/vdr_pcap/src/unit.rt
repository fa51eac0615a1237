/// What was read where a packet or block should stand.
#[derive(Clone, Copy, Drop)]
pub(crate) enum Unit {
    /// What is refused, by its number.
    Refuses(u8),
    /// So many bytes that tell of no packet.
    Says(u64),
    /// So many bytes of a packet that is not read.
    Unread(u64),
    /// So many bytes of a packet: the type of its link, its stamp, and how many bytes of the front are it.
    Packet(u64, u16, Option<u64>, usize),
}
