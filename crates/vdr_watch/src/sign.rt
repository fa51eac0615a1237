// What a line says that is watched.
ghost use Rattle.std.specs.Prelude.{◌≡◌, ◌≤◌, length, option_copied, option_map};
ghost use Rattle.vdr_datagram.specs.Views.{verdict_of};
ghost use Rattle.vdr_sources.specs.Tables.{named, reading_of};
ghost use Rattle.vdr_values.specs.Views.{sign_and_size};
ghost use Rattle.vdr_watch.specs.SignViews.{sign_value};
ghost use Rattle.vdr_watch.specs.Signs.{alarm_of, code_in, heartbeat_of, sign_in, sign_read, sign_told};

use crate::alarm::Alarm;
use crate::heartbeat::Heartbeat;
use arrayvec::ArrayVec;
use vdr_alerts::{Saying, saying_of};
use vdr_datagram::LineVerdict;
use vdr_tag::Grouping;
use vdr_values::{Num, Reading, read_value};

// The formatters that are watched.
const HEARTBEAT: &[u8] = b"HBT";

const ALARM: &[u8] = b"ALR";

// The name of a source that names none.
const NO_SOURCE: &[u8] = b"-";

/// A heartbeat, the state of an alarm with its text, or what is said of bridge alerts.
#[derive(Drop)]
pub(crate) enum Sign<'a> {
    Heartbeat(Heartbeat),
    Alarm(Alarm, Option<&'a [u8]>),
    Alert(Saying<'a>),
}

// The bytes of a name.
fn name_of(bytes: &[u8]) -> ArrayVec<u8, 15>
    requires { length bytes.now ≤ 15 }
    ensures { result.items ≡ bytes.now }
{
    let mut name = ArrayVec::new();
    let _ = name.try_extend_from_slice(bytes);
    name
}

// A heartbeat has an interval above 0.
fn heartbeat_of<'a>(
    group: u8,
    name: &[u8],
    tick: u64,
    interval: Option<Num>,
    sequence: Option<u32>,
) -> Option<Sign<'a>>
    requires group { group ≤ 15 }
    requires short { length name.now ≤ 15 }
    ensures { option_map sign_value result ≡ heartbeat_of (record { group = group; name = name.now }) tick (option_map sign_and_size interval) sequence }
{
    let interval = interval?;
    if interval.negative || interval.millionths == 0 {
        return None;
    }
    Some(Sign::Heartbeat(Heartbeat {
        group,
        name: name_of(name),
        tick,
        interval: interval.millionths,
        sequence,
    }))
}

// The state of an alarm has its number.
fn alarm_of<'a>(
    group: u8,
    name: &[u8],
    number: Option<u32>,
    condition: Option<u8>,
    acknowledged: Option<u8>,
    text: Option<&'a [u8]>,
) -> Option<Sign<'a>>
    requires group { group ≤ 15 }
    requires short { length name.now ≤ 15 }
    ensures { option_map sign_value result
        ≡ alarm_of (record { group = group; name = name.now }) number condition acknowledged (option_copied text.entry) }
{
    let number = number?;
    let alarm = Alarm {
        group,
        name: name_of(name),
        number,
        condition,
        acknowledged,
    };
    Some(Sign::Alarm(alarm, text))
}

// The code of the TAG group that a sentence stands in.
fn code_in(group: Option<Grouping>) -> Option<u32>
    ensures { result ≡ code_in group }
{
    match group {
        Some(group) => Some(group.code),
        None => None,
    }
}

fn sign_told<'a>(
    group: u8,
    name: &[u8],
    code: Option<u32>,
    tick: u64,
    reading: Reading<'a>,
) -> Option<Sign<'a>>
    requires group { group ≤ 15 }
    requires short { length name.now ≤ 15 }
    ensures { option_map sign_value result ≡ sign_told reading.entry.row.formatter (record { group = group; name = name.now }) code tick reading.entry.values }
{
    let formatter = reading.formatter();
    if formatter == HEARTBEAT {
        return heartbeat_of(group, name, tick, reading.number(0), reading.digits(2));
    }
    if formatter == ALARM {
        let (number, text) = (reading.digits(1), reading.raw(4));
        return alarm_of(
            group,
            name,
            number,
            reading.letter(2),
            reading.letter(3),
            text,
        );
    }
    Some(Sign::Alert(saying_of((group, name), code, reading)?))
}

/// The sign that a line is, recorded at this tick. None where it says nothing that is watched.
pub(crate) fn sign_in<'a>(group: u8, tick: u64, verdict: &LineVerdict<'a>) -> Option<Sign<'a>>
    requires group { group ≤ 15 }
    requires short { length (reading_of (verdict_of verdict.now)).name ≤ 15 }
    ensures { option_map sign_value result ≡ sign_in group tick (verdict_of verdict.now) }
{
    let LineVerdict::Good { tags, sentence } = verdict else {
        return None;
    };
    let Ok(Some(reading)) = read_value(sentence) else {
        return None;
    };
    let (name, code) = (tags.source.unwrap_or(NO_SOURCE), code_in(tags.group));
    sign_told(group, name, code, tick, reading)
}
