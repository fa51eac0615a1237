// An item of a feed whose body is lent.

/// An item of a feed, whose body stands in the bytes that were looked at: of at most 1,473 bytes.
#[derive(Clone, Copy, Drop)]
pub struct LentItem<'a> {
    /// Its group, below 16.
    pub group: u8,
    /// When it was received, in milliseconds from the first item.
    pub received: u64,
    /// Its stamp, in milliseconds since 1970.
    pub utc: i64,
    /// Its body.
    pub body: &'a [u8],
}
