// Where bytes are read.

use crate::filling::LONGEST_FRONT;

/// The front of a packet, and what is passed over.
#[derive(Drop)]
pub(crate) struct Buffers {
    pub(crate) front: [u8; LONGEST_FRONT],
    pub(crate) scratch: [u8; LONGEST_FRONT],
}

impl Buffers {
    pub(crate) fn new() -> Buffers {
        Buffers {
            front: [0; LONGEST_FRONT],
            scratch: [0; LONGEST_FRONT],
        }
    }
}
