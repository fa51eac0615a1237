// The lines of supervision.
ghost use Rattle.std.specs.Prelude.{◌≡◌, ◌≤◌, ◌++◌, ◌∷◌, [], ◌+◌, ◌%◌, ◌==◌, codes, OnOk, option_copied};
ghost use Rattle.std.specs.Io.KnownBytes.{Appends};
ghost use Rattle.std.specs.List.{concat, flat_map};
ghost use Rattle.vdr_entry.specs.Utc.{utc_text};
ghost use Rattle.vdr_outside.specs.Causes.{HasCause};
ghost use Rattle.vdr_outside.specs.Writes.{AppendsFront};
ghost use Rattle.vdr_alerts.specs.Lines.{front_text, letter_text, raw_text};
ghost use Rattle.vdr_watch.specs.Texts.{alarm_line, alarm_text, beat_text, jump_text, silent_text, state_text};

use crate::alarm::Alarm;
use crate::heartbeat::Heartbeat;
use itoa::Buffer;
use vdr_alerts::{Mark, letter_text, print_line, print_text};
use vdr_outside::{Failed, Sink, write_all};

// Tells a source that was silent for more than twice the interval of its last heartbeat.
fn print_silent<O: Sink>(mark: &Mark, before: &Heartbeat, out: &mut O) -> Result<(), Failed>
    ensures all { OnOk result (Appends (O.taken out.old) (O.taken out.new) (silent_text mark.now before.now)) }
    ensures front { AppendsFront (O.taken out.old) (O.taken out.new) (silent_text mark.now before.now) }
    ensures cause { HasCause (O.faults out.old) (O.faults out.new) result }
{
    if !before.is_silent(mark.tick) {
        return Ok(());
    }
    let mut age = Buffer::new();
    let age = age.format(before.age(mark.tick)).as_bytes();
    print_line(
        mark,
        b" silent ",
        before.group,
        before.name.as_slice(),
        &[age, b"\n"],
        out,
    )
}

/// Tells each source that was silent, one after the other.
pub(crate) fn print_all_silent<O: Sink>(
    mark: &Mark,
    beats: &[Heartbeat],
    out: &mut O,
) -> Result<(), Failed>
    ensures all { OnOk result (Appends (O.taken out.old) (O.taken out.new) (flat_map (silent_text mark.now) beats.now)) }
    ensures front { AppendsFront (O.taken out.old) (O.taken out.new) (flat_map (silent_text mark.now) beats.now) }
    ensures cause { HasCause (O.faults out.old) (O.faults out.new) result }
{
    for beat in beats {
        print_silent(mark, beat, out)?;
    }
    Ok(())
}

// Whether a sequence number comes next: one more, and 0 after 9.
fn is_next(last: u32, next: u32) -> bool
    ensures { result ≡ (next == (last + 1) % 10) }
{
    u64::from(next) == (u64::from(last) + 1) % 10
}

// Tells a sequence number that does not come next.
fn print_jump<O: Sink>(
    mark: &Mark,
    before: &Heartbeat,
    sequence: Option<u32>,
    out: &mut O,
) -> Result<(), Failed>
    ensures all { OnOk result (Appends (O.taken out.old) (O.taken out.new) (jump_text mark.now before.now.source before.now.sequence sequence)) }
    ensures front { AppendsFront (O.taken out.old) (O.taken out.new) (jump_text mark.now before.now.source before.now.sequence sequence) }
    ensures cause { HasCause (O.faults out.old) (O.faults out.new) result }
{
    let (Some(last), Some(next)) = (before.sequence, sequence) else {
        return Ok(());
    };
    if is_next(last, next) {
        return Ok(());
    }
    let (mut old, mut new) = (Buffer::new(), Buffer::new());
    let (old, new) = (old.format(last).as_bytes(), new.format(next).as_bytes());
    print_line(
        mark,
        b" jump ",
        before.group,
        before.name.as_slice(),
        &[old, b" ", new, b"\n"],
        out,
    )
}

/// Tells what a heartbeat of this sequence number shows behind its predecessor.
pub(crate) fn print_heartbeat<O: Sink>(
    mark: &Mark,
    before: Option<&Heartbeat>,
    sequence: Option<u32>,
    out: &mut O,
) -> Result<(), Failed>
    ensures all { OnOk result (Appends (O.taken out.old) (O.taken out.new) (beat_text mark.now (option_copied before.entry) sequence)) }
    ensures front { AppendsFront (O.taken out.old) (O.taken out.new) (beat_text mark.now (option_copied before.entry) sequence) }
    ensures cause { HasCause (O.faults out.old) (O.faults out.new) result }
{
    let Some(before) = before else {
        return Ok(());
    };
    print_silent(mark, before, out)?;
    print_jump(mark, before, sequence, out)
}

fn print_state<O: Sink>(mark: &Mark, alarm: &Alarm, out: &mut O) -> Result<(), Failed>
    ensures all { OnOk result (Appends (O.taken out.old) (O.taken out.new) (state_text mark.now alarm.now)) }
    ensures front { AppendsFront (O.taken out.old) (O.taken out.new) (state_text mark.now alarm.now) }
    ensures cause { HasCause (O.faults out.old) (O.faults out.new) result }
{
    let mut number = Buffer::new();
    let number = number.format(alarm.number).as_bytes();
    let (condition, acknowledged) = (
        letter_text(alarm.condition),
        letter_text(alarm.acknowledged),
    );
    let told = [
        number,
        b" ",
        condition.as_slice(),
        b" ",
        acknowledged.as_slice(),
        b" ",
    ];
    print_line(
        mark,
        b" alarm ",
        alarm.group,
        alarm.name.as_slice(),
        &told,
        out,
    )
}

// Prints the line of an alarm's state.
fn print_alarm_line<O: Sink>(
    mark: &Mark,
    alarm: &Alarm,
    text: Option<&[u8]>,
    out: &mut O,
) -> Result<(), Failed>
    ensures all { OnOk result (Appends (O.taken out.old) (O.taken out.new) (alarm_line mark.now alarm.now (option_copied text.entry))) }
    ensures front { AppendsFront (O.taken out.old) (O.taken out.new) (alarm_line mark.now alarm.now (option_copied text.entry)) }
    ensures cause { HasCause (O.faults out.old) (O.faults out.new) result }
{
    print_state(mark, alarm, out)?;
    print_text(text, out)?;
    write_all(out, b"\n")
}

/// Tells the state of an alarm, unless it is that of the last one.
pub(crate) fn print_alarm<O: Sink>(
    mark: &Mark,
    before: Option<&Alarm>,
    alarm: &Alarm,
    text: Option<&[u8]>,
    out: &mut O,
) -> Result<(), Failed>
    ensures all { OnOk result (Appends (O.taken out.old) (O.taken out.new) (alarm_text mark.now (option_copied before.entry) alarm.now (option_copied text.entry))) }
    ensures front { AppendsFront (O.taken out.old) (O.taken out.new) (alarm_text mark.now (option_copied before.entry) alarm.now (option_copied text.entry)) }
    ensures cause { HasCause (O.faults out.old) (O.faults out.new) result }
{
    match before {
        Some(before) if before.is_in_state(alarm) => Ok(()),
        _ => print_alarm_line(mark, alarm, text, out),
    }
}
