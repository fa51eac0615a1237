// Where the slots of a medium stand.
ghost use Rattle.std.specs.Prelude.{◌≡◌, ◌≤◌};
ghost use Rattle.vdr_segment.specs.Slots.{place_of};

use vdr_terms::SLOTS_FROM;

/// The slots of one medium: where they stand (this project's profile). Its type keeps the ranges.
#[derive(Clone, Copy, Drop)]
pub struct Area {
    /// The number of the medium.
    pub medium: u8,
    /// The size of a slot, and so of a segment, in bytes: 8,192 to 16,777,216.
    pub segment: u32,
    /// How many slots there are, at most 1,000,000.
    pub slots: u32,
    pub ghost segment_low: { 8_192 ≤ segment },
    pub ghost segment_high: { segment ≤ 16_777_216 },
    pub ghost slots_high: { slots ≤ 1_000_000 },
}

impl Area {
    /// Where a slot begins on its medium, in bytes.
    pub fn place_of(self, slot: u32) -> u64
        ensures { result ≡ place_of self.segment slot }
    {
        SLOTS_FROM + slot as u64 * self.segment as u64
    }
}
