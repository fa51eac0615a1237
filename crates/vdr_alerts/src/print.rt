// The lines of alerts.
ghost use Rattle.std.specs.Prelude.{◌≡◌, ◌++◌, ◌==◌, codes, length, if◌then◌else◌, OnOk, option_copied};
ghost use Rattle.std.specs.Io.KnownBytes.{Appends};
ghost use Rattle.std.specs.List.{flat_map};
ghost use Rattle.vdr_entry.specs.Escape.{escaped};
ghost use Rattle.vdr_outside.specs.Causes.{HasCause};
ghost use Rattle.vdr_outside.specs.Writes.{AppendsFront};
ghost use Rattle.vdr_alerts.specs.Lines.{letter_text};
ghost use Rattle.vdr_alerts.specs.Boards.{alert_front, alert_line, change_text, gone_text, number_text, texts_text};

use crate::alert::Alert;
use crate::line::{NONE, letter_text, print_line};
use crate::mark::Mark;
use crate::part::Part;
use arrayvec::ArrayVec;
use itoa::Buffer;
use vdr_outside::{Failed, Sink, write_all};
use vdr_play::print_escaped;
use vdr_values::Reading;

fn number_text(number: Option<u64>) -> ArrayVec<u8, 20>
    ensures { result.items ≡ number_text number }
{
    let mut text = ArrayVec::new();
    let mut buffer = Buffer::new();
    let _ = match number {
        Some(number) => text.try_extend_from_slice(buffer.format(number).as_bytes()),
        None => text.try_extend_from_slice(NONE),
    };
    text
}

// Prints what stands before the text.
fn print_front<O: Sink>(mark: &Mark, alert: &Alert, state: &[u8], out: &mut O) -> Result<(), Failed>
    ensures all { OnOk result (Appends (O.taken out.old) (O.taken out.new) (alert_front mark.now alert.now state.now)) }
    ensures front { AppendsFront (O.taken out.old) (O.taken out.new) (alert_front mark.now alert.now state.now) }
    ensures cause { HasCause (O.faults out.old) (O.faults out.new) result }
{
    let mut number = Buffer::new();
    let number = number.format(alert.number).as_bytes();
    let (instance, priority) = (number_text(alert.instance), letter_text(alert.priority));
    let told = [
        alert.maker.as_slice(),
        number,
        b" ",
        instance.as_slice(),
        b" ",
        priority.as_slice(),
        b" ",
        state,
        b" ",
    ];
    print_line(
        mark,
        b" alert ",
        alert.group,
        alert.name.as_slice(),
        &told,
        out,
    )
}

fn print_both<O: Sink>(title: &[u8], rest: &[u8], out: &mut O) -> Result<(), Failed>
    ensures all { OnOk result (Appends (O.taken out.old) (O.taken out.new) (escaped title.now ++ (codes " " ++ escaped rest.now))) }
    ensures front { AppendsFront (O.taken out.old) (O.taken out.new) (escaped title.now ++ (codes " " ++ escaped rest.now)) }
    ensures cause { HasCause (O.faults out.old) (O.faults out.new) result }
{
    print_escaped(title, out)?;
    write_all(out, b" ")?;
    print_escaped(rest, out)
}

// Prints a text, or `null`.
fn print_title<O: Sink>(title: &[u8], out: &mut O) -> Result<(), Failed>
    ensures all { OnOk result (Appends (O.taken out.old) (O.taken out.new) (if length title.now == 0 then codes "null" else escaped title.now)) }
    ensures front { AppendsFront (O.taken out.old) (O.taken out.new) (if length title.now == 0 then codes "null" else escaped title.now) }
    ensures cause { HasCause (O.faults out.old) (O.faults out.new) result }
{
    if title.is_empty() {
        return write_all(out, NONE);
    }
    print_escaped(title, out)
}

fn print_texts<O: Sink>(title: &[u8], rest: &[u8], out: &mut O) -> Result<(), Failed>
    ensures all { OnOk result (Appends (O.taken out.old) (O.taken out.new) (texts_text title.now rest.now)) }
    ensures front { AppendsFront (O.taken out.old) (O.taken out.new) (texts_text title.now rest.now) }
    ensures cause { HasCause (O.faults out.old) (O.faults out.new) result }
{
    if rest.is_empty() {
        return print_title(title, out);
    }
    if title.is_empty() {
        return print_escaped(rest, out);
    }
    print_both(title, rest, out)
}

// Prints what stands before the text of an alert that is told.
fn print_state<O: Sink>(mark: &Mark, alert: &Alert, out: &mut O) -> Result<(), Failed>
    ensures all { OnOk result (Appends (O.taken out.old) (O.taken out.new) (alert_front mark.now alert.now (letter_text alert.now.state))) }
    ensures front { AppendsFront (O.taken out.old) (O.taken out.new) (alert_front mark.now alert.now (letter_text alert.now.state)) }
    ensures cause { HasCause (O.faults out.old) (O.faults out.new) result }
{
    let state = letter_text(alert.state);
    print_front(mark, alert, state.as_slice(), out)
}

fn print_alert_line<O: Sink>(
    mark: &Mark,
    alert: &Alert,
    title: &[u8],
    rest: &[u8],
    out: &mut O,
) -> Result<(), Failed>
    ensures all { OnOk result (Appends (O.taken out.old) (O.taken out.new) (alert_line mark.now alert.now title.now rest.now)) }
    ensures front { AppendsFront (O.taken out.old) (O.taken out.new) (alert_line mark.now alert.now title.now rest.now) }
    ensures cause { HasCause (O.faults out.old) (O.faults out.new) result }
{
    print_state(mark, alert, out)?;
    print_texts(title, rest, out)?;
    write_all(out, b"\n")
}

/// Tells the state of an alert, unless its priority and its state are those that were told last.
pub(crate) fn print_change<O: Sink>(
    mark: &Mark,
    before: Option<&Alert>,
    alert: &Alert,
    title: &[u8],
    rest: &[u8],
    out: &mut O,
) -> Result<(), Failed>
    ensures all { OnOk result (Appends (O.taken out.old) (O.taken out.new) (change_text mark.now (option_copied before.entry) alert.now title.now rest.now)) }
    ensures front { AppendsFront (O.taken out.old) (O.taken out.new) (change_text mark.now (option_copied before.entry) alert.now title.now rest.now) }
    ensures cause { HasCause (O.faults out.old) (O.faults out.new) result }
{
    match before {
        Some(before) if before.is_known(alert) => Ok(()),
        _ => print_alert_line(mark, alert, title, rest, out),
    }
}

fn print_gone_line<O: Sink>(mark: &Mark, alert: &Alert, out: &mut O) -> Result<(), Failed>
    ensures all { OnOk result (Appends (O.taken out.old) (O.taken out.new) (alert_front mark.now alert.now (codes "gone") ++ codes "null\n")) }
    ensures front { AppendsFront (O.taken out.old) (O.taken out.new) (alert_front mark.now alert.now (codes "gone") ++ codes "null\n") }
    ensures cause { HasCause (O.faults out.old) (O.faults out.new) result }
{
    print_front(mark, alert, b"gone", out)?;
    write_all(out, b"null\n")
}

fn print_if_gone<O: Sink>(
    mark: &Mark,
    is_ended: bool,
    part: &Part,
    reading: &Reading<'_>,
    alert: &Alert,
    out: &mut O,
) -> Result<(), Failed>
    ensures all { OnOk result (Appends (O.taken out.old) (O.taken out.new) (gone_text mark.now is_ended part.now reading.now.values alert.now)) }
    ensures front { AppendsFront (O.taken out.old) (O.taken out.new) (gone_text mark.now is_ended part.now reading.now.values alert.now) }
    ensures cause { HasCause (O.faults out.old) (O.faults out.new) result }
{
    if !alert.leaves(is_ended, part, reading) {
        return Ok(());
    }
    print_gone_line(mark, alert, out)
}

/// Tells each alert that stood and is in its source's list no more.
pub(crate) fn print_gone<O: Sink>(
    mark: &Mark,
    is_ended: bool,
    part: &Part,
    reading: &Reading<'_>,
    alerts: &[Alert],
    out: &mut O,
) -> Result<(), Failed>
    ensures all { OnOk result (Appends (O.taken out.old) (O.taken out.new) (flat_map (gone_text mark.now is_ended part.now reading.now.values) alerts.now)) }
    ensures front { AppendsFront (O.taken out.old) (O.taken out.new) (flat_map (gone_text mark.now is_ended part.now reading.now.values) alerts.now) }
    ensures cause { HasCause (O.faults out.old) (O.faults out.new) result }
{
    for alert in alerts {
        print_if_gone(mark, is_ended, part, reading, alert, out)?;
    }
    Ok(())
}
