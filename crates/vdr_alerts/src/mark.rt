// Where a line of supervision is told.
ghost use Rattle.std.specs.Prelude.{◌≡◌};
ghost use Rattle.vdr_alerts.specs.Lines.{mark_of};

use std::marker::Model;
use vdr_entry::Record;

/// The place of a record, its stamp in milliseconds since 1970, and its recording time in milliseconds.
#[derive(Drop)]
pub struct Mark {
    pub place: u64,
    pub utc: i64,
    pub tick: u64,
}

impl Model for Mark {
    ghost use Rattle.vdr_terms.specs.Stamps.{IsStamp};
    ghost use Rattle.vdr_alerts.specs.Lines.{Mark as AMark};

    ghost Value = { AMark };

    ghost view = { λ m. record { place = m.place; utc = m.utc; tick = m.tick } };

    ghost invariant = { λ m. IsStamp m.utc };
}

impl Mark {
    pub fn of(item: &Record) -> Mark
        ensures { result ≡ mark_of item.now }
    {
        Mark {
            place: item.place,
            utc: item.utc,
            tick: item.tick,
        }
    }
}
