// The header of an image datagram (this project's profile).
ghost use Rattle.vdr_image.specs.Headers.{IsHeader};

/// The header of a datagram that holds a part of an image (this project's profile). Its type keeps the ranges.
#[derive(Clone, Copy, Drop)]
pub struct ImageHeader<'a> {
    /// Who sends the image: 6 bytes of 0x21 to 0x7E, as the system function identifier `EI0001`.
    pub source: &'a [u8],
    /// For whom it is: 6 bytes of 0x21 to 0x7E.
    pub destination: &'a [u8],
    /// The number of the block, by which the source tells its images apart.
    pub block: u32,
    /// The sequence number of this part in its block, 1 to `greatest`.
    pub sequence: u32,
    /// The greatest sequence number of the block, at most 65,535.
    pub greatest: u32,
    /// The data of this part: all bytes behind the header.
    pub body: &'a [u8],
    pub ghost legal: { IsHeader (record { source = source.now; destination = destination.now; block = block; sequence = sequence; greatest = greatest; body = body.now }) },
}
