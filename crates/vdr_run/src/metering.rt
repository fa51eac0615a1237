// Whether a run records an item, by its meter if it has one.
ghost use Rattle.std.specs.Prelude.{◌≡◌, ◌≤◌, ◌<◌, length};
ghost use Rattle.vdr_terms.specs.Records.{second};
ghost use Rattle.vdr_core.specs.Runs.{RunStart};
ghost use Rattle.vdr_core.specs.Taken.{Captured};
ghost use Rattle.vdr_core.specs.Recorder.{Recorder, took, tick_with, admits};
ghost use Rattle.vdr_run.specs.Meters.{IsMetered, rates_of, second_of};

use vdr_meter::Meter;

/// Whether an item of so many bytes is admitted at this tick. Without a meter each is.
pub(crate) fn admit(meter: &mut Option<Meter>, group: u8, tick: u64, len: u16) -> bool
    requires group { group < 16 }
    requires forward { second_of meter.old ≤ second tick }
    ensures decides { (start : RunStart) (r : Recorder) (c : Captured) → IsMetered start.limits meter.old r.made
        → c.group ≡ group → tick_with start r c ≡ tick → length c.bytes ≡ len → result ≡ admits start r c }
    ensures measures { (start : RunStart) (r : Recorder) (c : Captured) → IsMetered start.limits meter.old r.made
        → c.group ≡ group → tick_with start r c ≡ tick → length c.bytes ≡ len → IsMetered start.limits meter.new (took start r c).made }
    ensures rates { rates_of meter.new ≡ rates_of meter.old }
    ensures forward { second_of meter.new ≤ second tick }
{
    match meter {
        Some(meter) => meter.admit(group, tick, len),
        None => true,
    }
}
