// Where the slots of a medium stand (this project's profile).
ghost use Rattle.std.specs.Prelude.{◌≡◌, ◌+◌, ◌*◌, ◌<◌, ◌≤◌};
ghost use Rattle.vdr_terms.specs.Slots.{slot_count};

/// Where the first slot of a medium begins, in bytes: the superblock and the table of incident saves stand before it (this
/// project's profile).
pub const SLOTS_FROM: u64 = 32_768;

/// Where the first slot of the table of incident saves begins, in bytes (this project's profile).
pub const INCIDENTS_FROM: u64 = 4_096;

/// The size of a slot of that table, in bytes (this project's profile).
pub const INCIDENT_SIZE: u64 = 256;

/// How many slots that table has, so that ids are 1 to 32 (this project's profile).
pub const MOST_INCIDENTS: u32 = 32;

// No more slots than these are used.
const MOST_SLOTS: u64 = 1_000_000;

/// The slots of a medium of so many bytes, with segments of this size in bytes: at most 1,000,000 (this project's profile).
pub fn slot_count(segment: u32, size: u64) -> u32
    requires { 0 < segment }
    ensures count { result ≡ slot_count segment size }
    ensures room { 32768 ≤ size → 32768 + result * segment ≤ size }
{
    (size.saturating_sub(SLOTS_FROM) / segment as u64).min(MOST_SLOTS) as u32
}
