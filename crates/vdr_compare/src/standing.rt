// What stands at a place of two media.
ghost use Rattle.std.specs.Prelude.{◌≡◌, ◌↔◌, IsTrue};
ghost use Rattle.vdr_terms.specs.Legality.{IsRecord};
ghost use Rattle.vdr_compare.specs.Standings.{capsule_alone, is_same, longterm_alone};

use vdr_entry::{Record, one_spelling};

/// What stands at a place of two media.
#[derive(Clone, Copy, Drop)]
pub enum Standing {
    /// A record stands on both. `same`: with the same bytes.
    Both { place: u64, same: bool },
    /// The capsule alone has a record, of this second of recording time.
    Capsule { place: u64, second: u64 },
    /// The long-term medium alone has one.
    LongTerm { place: u64, second: u64 },
}

/// How far back each medium has to hold records: its window in seconds, which ends with the second of the last record that either
/// medium gives.
#[derive(Clone, Copy, Drop)]
pub struct Windows {
    pub capsule: u64,
    pub longterm: u64,
    pub last_second: u64,
}

// Whether two records are the same, field by field.
fn are_equal(a: &Record, b: &Record) -> bool
    ensures same { IsTrue result ↔ (a.now ≡ b.now) }
    ensures legal { IsRecord a.now × IsRecord b.now }
{
    let _first = &a.payload;
    let _second = &b.payload;
    a.place == b.place
        && a.kind == b.kind
        && a.group == b.group
        && a.bits == b.bits
        && a.number == b.number
        && a.tick == b.tick
        && a.utc == b.utc
        && a.payload.as_slice() == b.payload.as_slice()
}

/// Whether the bytes of two records are the same.
pub(crate) fn is_same(a: &Record, b: &Record) -> bool
    ensures { result ≡ is_same a.now b.now }
{
    one_spelling();
    are_equal(a, b)
}

impl Standing {
    /// Of a record that the capsule alone has.
    pub(crate) fn of_capsule(item: &Record) -> Standing
        ensures { result ≡ capsule_alone item.now }
    {
        Standing::Capsule {
            place: item.place,
            second: item.tick / 1000,
        }
    }

    /// Of one that the long-term medium alone has.
    pub(crate) fn of_longterm(item: &Record) -> Standing
        ensures { result ≡ longterm_alone item.now }
    {
        Standing::LongTerm {
            place: item.place,
            second: item.tick / 1000,
        }
    }
}
