// The table of sentences, in the parts of its definition.
ghost use Rattle.std.specs.Prelude.{◌≡◌, map};
ghost use Rattle.vdr_values.specs.Alerts.{alerts};
ghost use Rattle.vdr_values.specs.Machinery.{machinery};
ghost use Rattle.vdr_values.specs.Navigation.{navigation};
ghost use Rattle.vdr_values.specs.Traffic.{traffic};
ghost use Rattle.vdr_values.specs.Views.{row_of};

mod alarming;
mod forms;
mod measuring;
mod navigating;
mod reporting;

use crate::row::Row;
use alarming::ALERTS;
use measuring::MACHINERY;
use navigating::NAVIGATION;
use reporting::TRAFFIC;

/// Position, course, heading, speed, time and route.
pub(crate) fn navigation() -> &'static [Row]
    ensures { map row_of result.now ≡ navigation }
{
    NAVIGATION
}

/// Rudder, engines, thrusters, steering, and what sensors measure.
pub(crate) fn machinery() -> &'static [Row]
    ensures { map row_of result.now ≡ machinery }
{
    MACHINERY
}

/// Heartbeats, alarms, alerts and events.
pub(crate) fn alerts() -> &'static [Row]
    ensures { map row_of result.now ≡ alerts }
{
    ALERTS
}

/// AIS, and what a radar shows.
pub(crate) fn traffic() -> &'static [Row]
    ensures { map row_of result.now ≡ traffic }
{
    TRAFFIC
}
