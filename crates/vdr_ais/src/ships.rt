// Ships in order of their MMSI.
ghost use Rattle.std.specs.Prelude.{◌≡◌, ◌≤◌, ◌+◌, IfErr, IfOk, vec_capacity, vec_len};
ghost use Rattle.std.specs.Ordering.{nat_cmp};
ghost use Rattle.vdr_terms.specs.Stamps.{IsStamp};
ghost use Rattle.vdr_ais.specs.Places.{IsAt, IsGap};
ghost use Rattle.vdr_ais.specs.Tables.{AreShips};
ghost use Rattle.vdr_ais.specs.Targets.{with_report};
ghost use Rattle.vdr_ais.specs.Views.{report_said};

use crate::report::Report;
use crate::ship::Ship;

fn mmsi_of(report: &Report) -> u32
    ensures { result ≡ (report_said report.now).mmsi }
{
    report.mmsi
}

// Where the ship stands, or where it is to be put.
fn place_of(ships: &[Ship], mmsi: u32) -> Result<usize, usize>
    requires { AreShips ships.now }
    ensures found { IfOk result (IsAt (nat_cmp mmsi) ships.now) }
    ensures absent { IfErr result (IsGap (nat_cmp mmsi) ships.now) }
{
    ships.binary_search_by_key(&mmsi, |ship| ship.mmsi)
}

/// One more report, for whose ship there is room.
pub(crate) fn put_report(ships: &mut Vec<Ship>, utc: i64, report: &Report)
    requires ships { AreShips ships.old.items }
    requires room { vec_len ships.old + 1 ≤ vec_capacity ships.old }
    requires stamp { IsStamp utc }
    ensures with { ships.new.items ≡ with_report utc ships.old.items (report_said report.now) }
    ensures ships { AreShips ships.new.items }
    ensures more { vec_len ships.new ≤ vec_len ships.old + 1 }
    ensures capacity { vec_capacity ships.old ≤ vec_capacity ships.new }
{
    let mmsi = mmsi_of(report);
    match place_of(ships.as_slice(), mmsi) {
        Ok(at) => ships[at].tell(utc, report),
        Err(at) => {
            let mut ship = Ship::unknown(mmsi);
            ship.tell(utc, report);
            let _ = ships.insert(at, ship);
        }
    }
}
