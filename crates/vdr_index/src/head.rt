// The fields of a record that a query tests, read without its payload.
ghost use Rattle.std.specs.Prelude.{◌≡◌, ℕ, List};
ghost use Rattle.vdr_terms.specs.Records.{Record as Entry};
ghost use Rattle.vdr_entry.specs.Reading.{Begins};
ghost use Rattle.vdr_index.specs.Selections.{head_of};

use vdr_bytes::{u16_at, u64_at};

/// What is asked of a record before its payload is read, and how many bytes it takes.
#[derive(Clone, Copy, Drop)]
pub(crate) struct Head {
    /// Bit k is set where channel k selects the record.
    pub(crate) bits: u64,
    pub(crate) place: u64,
    /// Recording time in milliseconds.
    pub(crate) tick: u64,
    /// UTC in milliseconds since 1970.
    pub(crate) utc: i64,
    /// How many bytes it takes, 44 to 1,516.
    pub(crate) size: usize,
}

/// The head of the record at the front of the bytes. That there is one is not asked again, and its payload is not read.
pub(crate) fn head_at(bytes: &[u8]) -> Head
    requires { (r : Entry) × (rest : List ℕ) × Begins bytes.now r rest }
    ensures { (r : Entry) × (rest : List ℕ) × Begins bytes.now r rest × (result ≡ head_of r) }
{
    Head {
        bits: u64_at(bytes, 4),
        place: u64_at(bytes, 12),
        tick: u64_at(bytes, 28),
        utc: u64_at(bytes, 36) as i64,
        size: 44 + u16_at(bytes, 2) as usize,
    }
}
