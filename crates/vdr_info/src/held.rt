// What stands on a medium.
ghost use Rattle.std.specs.Prelude.{◌≡◌};
ghost use Rattle.vdr_info.specs.Helds.{begin_of, held_with, none_held, stand_of};

use vdr_entry::{Record, Summary};
use vdr_segment::Area;

// How many milliseconds a second has.
const SECOND: u64 = 1000;

/// Where the records of a medium begin, or where they end.
#[derive(Clone, Copy, Drop)]
pub struct Stand {
    /// The place of a record.
    pub place: u64,
    /// A UTC stamp, in milliseconds since 1970.
    pub utc: i64,
    /// The second of recording time.
    pub second: u64,
}

impl Stand {
    /// That of a record.
    pub(crate) fn of(item: &Record) -> Stand
        ensures { result ≡ stand_of item.now }
    {
        Stand {
            place: item.place,
            utc: item.utc,
            second: item.tick / SECOND,
        }
    }

    /// Where a segment begins, by its first place and by what its records have in common.
    pub(crate) fn of_segment(first: u64, summary: Summary) -> Stand
        ensures { result ≡ begin_of first summary }
    {
        Stand {
            place: first,
            utc: summary.least_utc,
            second: summary.first_second,
        }
    }
}

/// What stands on a medium.
#[derive(Clone, Copy, Drop)]
pub struct Held {
    /// Its number: 0 is the capsule, 1 the long-term medium.
    pub medium: u8,
    /// How many slots it has.
    pub slots: u32,
    /// The size of a segment, in bytes.
    pub segment: u32,
    /// How many of its slots hold a segment.
    pub used: u64,
    /// Where its records begin. None where there is none.
    pub first: Option<Stand>,
    /// Where they end.
    pub last: Option<Stand>,
}

impl Held {
    /// No record, in these slots, of which so many are used.
    pub fn empty(area: Area, used: u64) -> Held
        ensures { result ≡ none_held area.medium area.segment area.slots used }
    {
        Held {
            medium: area.medium,
            slots: area.slots,
            segment: area.segment,
            used,
            first: None,
            last: None,
        }
    }

    /// With one record more behind the others.
    pub(crate) fn with(self, item: &Record) -> Held
        ensures { result ≡ held_with self item.now }
    {
        let stand = Stand::of(item);
        let first = match self.first {
            Some(first) => first,
            None => stand,
        };
        Held {
            first: Some(first),
            last: Some(stand),
            ..self
        }
    }
}
