// What the first bytes of a slot show, whether or not they are legal.
ghost use Rattle.vdr_rescue.specs.Fronts.{ShowsFront};

use vdr_segment::{CLOSED_GATE, HEADER_SIZE, OPEN_GATE, read_header};

/// What the front of a slot shows.
#[derive(Clone, Copy, Drop)]
pub enum Front {
    /// The gate is 0.
    Closed,
    /// The gate is neither open nor 0: a stop in the middle of its write may leave that.
    Torn,
    /// The gate is open, and what stands behind it is no header.
    Headless,
    /// The gate is open, before a segment with this sequence number and this first place.
    Segment { seq: u64, first: u64 },
}

/// What these first bytes of a slot show.
pub(crate) fn front_of(bytes: &[u8; HEADER_SIZE]) -> Front
    ensures { ShowsFront bytes.now result }
{
    match bytes[0] {
        CLOSED_GATE => Front::Closed,
        OPEN_GATE => match read_header(bytes) {
            Some(header) => Front::Segment {
                seq: header.seq,
                first: header.first,
            },
            None => Front::Headless,
        },
        _ => Front::Torn,
    }
}
