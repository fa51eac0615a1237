// Where a row stands in a table that is in order.
ghost use Rattle.std.specs.Prelude.{◌≡◌};
ghost use Rattle.vdr_durability.specs.Sources.{source_cmp};
ghost use Rattle.vdr_alerts.specs.Rows.{AreOrdered, IsPlaced};
ghost use Rattle.vdr_watch.specs.Supervision.{alarm_cmp, beat_cmp};

use crate::alarm::Alarm;
use crate::heartbeat::Heartbeat;

/// Where the last heartbeat of the source stands, or where it is to be put.
pub(crate) fn place_of_heartbeat(rows: &[Heartbeat], group: u8, name: &[u8]) -> Result<usize, usize>
    requires { AreOrdered beat_cmp rows.now }
    ensures { IsPlaced (λ b. source_cmp b.source (record { group = group; name = name.now })) rows.now result }
{
    rows.binary_search_by(|row| row.order(group, name))
}

/// Where the last state of the alarm stands, or where it is to be put.
pub(crate) fn place_of_alarm(rows: &[Alarm], alarm: &Alarm) -> Result<usize, usize>
    requires { AreOrdered alarm_cmp rows.now }
    ensures { IsPlaced (λ a. alarm_cmp a alarm.now) rows.now result }
{
    rows.binary_search_by(|row| row.order(alarm))
}
