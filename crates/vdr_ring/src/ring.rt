// A ring without its medium: the directory, one buffer for a segment, and the window.
use std::marker::Model;
use vdr_directory::Directory;
use vdr_segment::Area;

/// One medium as a ring of segments. Its type keeps that its directory has a place for each slot, of which there are at least four, that the buffer has room for a
/// segment, and that the window is 1 to 31,536,000 seconds.
#[derive(Drop)]
pub struct Ring {
    pub(crate) area: Area,
    // The window, in seconds.
    pub(crate) seconds: u64,
    pub(crate) directory: Directory,
    // The bytes of one segment: of the batch that is written, or of the slot that is read.
    pub(crate) buffer: Vec<u8>,
    // The slot whose bytes the buffer holds.
    pub(crate) loaded: Option<u32>,
    // The slots of the segments that opening found to lack a summary, until they are brought up.
    pub(crate) bare: Vec<u32>,
}

impl Model for Ring {
    ghost use Rattle.std.specs.Prelude.{◌≡◌, ◌≤◌, length};
    ghost use Rattle.vdr_ring.specs.Rings.{RingState};
    ghost use Rattle.vdr_directory.specs.Directories.{count_of};

    ghost Value = { RingState };

    ghost view = { λ r. record { medium = r.area.medium; segment = r.area.segment; slots = r.area.slots; seconds = r.seconds; directory = r.directory; buffer = r.buffer.items; loaded = r.loaded; bare = r.bare.items } };

    ghost invariant = { λ r. (count_of r.directory ≡ r.area.slots) × (length r.buffer.items ≡ r.area.segment) × (4 ≤ r.area.slots) × (1 ≤ r.seconds) × (r.seconds ≤ 31_536_000) };
}
