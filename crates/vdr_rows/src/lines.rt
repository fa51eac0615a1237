// The rows of a record.
ghost use Rattle.std.specs.Prelude.{◌≡◌, true, All, List, None, OnOk, Some, codes, option_map, unwrap_or};
ghost use Rattle.std.specs.Io.KnownBytes.{Appends};
ghost use Rattle.vdr_tag.specs.Views.{values_of};
ghost use Rattle.vdr_datagram.specs.Verdicts.{line_spans};
ghost use Rattle.vdr_datagram.specs.Views.{verdict_of};
ghost use Rattle.vdr_ais.specs.Lines.{Key, Line as Part, line_in, lines_in, lines_of};
ghost use Rattle.vdr_ais.specs.Pending.{HasPlace, HasRead};
ghost use Rattle.vdr_ais.specs.Views.{message_of};
ghost use Rattle.vdr_outside.specs.Causes.{HasCause};
ghost use Rattle.vdr_outside.specs.Writes.{AppendsFront};
ghost use Rattle.vdr_rows.specs.Tables.{back_after, back_by, back_with, ended_at, line_rows, lines_rows, record_rows};
ghost use Rattle.vdr_rows.specs.Texts.{rows_text};
ghost use Rattle.vdr_rows.specs.Seeking.{carried_rows, is_carrier};

use crate::heading::Heading;
use crate::marks::{print_mark, print_missed};
use crate::reported::print_message;
use crate::seeking::is_carrier;
use crate::sentence::print_sentence;
use vdr_ais::{Message, Unfinished};
use vdr_datagram::{LineVerdict, lines};
use vdr_entry::{Content, Record};
use vdr_outside::{Failed, Sink};
use vdr_tag::Tags;

/// The source of a line that names none.
const NO_SOURCE: &[u8] = b"-";

fn source_of<'a>(tags: &Tags<'a>) -> &'a [u8]
    ensures { result.now ≡ unwrap_or (values_of tags.now).source (codes "-") }
{
    tags.source.unwrap_or(NO_SOURCE)
}

// Prints the rows of what a line says, where it carries no part of an AIS message.
fn print_said<O: Sink>(item: &Record, verdict: &LineVerdict<'_>, out: &mut O) -> Result<(), Failed>
    ensures all { OnOk result (Appends (O.taken out.old) (O.taken out.new) (rows_text (line_rows item.now (verdict_of verdict.now) None))) }
    ensures front { AppendsFront (O.taken out.old) (O.taken out.new) (rows_text (line_rows item.now (verdict_of verdict.now) None)) }
    ensures cause { HasCause (O.faults out.old) (O.faults out.new) result }
{
    let LineVerdict::Good { tags, sentence } = verdict else {
        return Ok(());
    };
    let heading = Heading::new(item, source_of(tags), sentence.address);
    print_sentence(&heading, sentence, out)
}

// Prints the rows of a message that ends at a line.
fn print_ended<O: Sink>(
    item: &Record,
    verdict: &LineVerdict<'_>,
    message: &Message,
    out: &mut O,
) -> Result<(), Failed>
    ensures all { OnOk result (Appends (O.taken out.old) (O.taken out.new) (rows_text (carried_rows item.now (verdict_of verdict.now) (message_of message.now)))) }
    ensures front { AppendsFront (O.taken out.old) (O.taken out.new) (rows_text (carried_rows item.now (verdict_of verdict.now) (message_of message.now))) }
    ensures cause { HasCause (O.faults out.old) (O.faults out.new) result }
{
    let LineVerdict::Good { tags, sentence } = verdict else {
        return Ok(());
    };
    let heading = Heading::new(item, source_of(tags), sentence.address);
    print_message(&heading, message, out)
}

/// Prints the rows of a line that may carry a part of an AIS message, and was taken: those of the message that ended at it.
pub(crate) fn print_carrier<O: Sink>(
    item: &Record,
    verdict: &LineVerdict<'_>,
    ended: &Option<Message>,
    out: &mut O,
) -> Result<(), Failed>
    requires { is_carrier (verdict_of verdict.now) ≡ true }
    ensures all { OnOk result (Appends (O.taken out.old) (O.taken out.new) (rows_text (line_rows item.now (verdict_of verdict.now) (option_map message_of ended.now)))) }
    ensures front { AppendsFront (O.taken out.old) (O.taken out.new) (rows_text (line_rows item.now (verdict_of verdict.now) (option_map message_of ended.now))) }
    ensures cause { HasCause (O.faults out.old) (O.faults out.new) result }
{
    match ended {
        Some(message) => print_ended(item, verdict, message, out),
        None => Ok(()),
    }
}

// Prints the rows of a line, for whose message there is room, and of the message that ends at it.
fn print_line<O: Sink>(
    item: &Record,
    verdict: &LineVerdict<'_>,
    unfinished: &mut Unfinished,
    out: &mut O,
) -> Result<(), Failed>
    requires { (part : Part) → line_in item.now.group (verdict_of verdict.now) ≡ Some part → HasPlace unfinished.old part.key }
    ensures read { (back : List Part) → HasRead back unfinished.old → HasRead (back_with back item.now.group (verdict_of verdict.now)) unfinished.new }
    ensures all { (back : List Part) → HasRead back unfinished.old
        → OnOk result (Appends (O.taken out.old) (O.taken out.new) (rows_text (line_rows item.now (verdict_of verdict.now) (ended_at back item.now.group (verdict_of verdict.now))))) }
    ensures front { (back : List Part) → HasRead back unfinished.old
        → AppendsFront (O.taken out.old) (O.taken out.new) (rows_text (line_rows item.now (verdict_of verdict.now) (ended_at back item.now.group (verdict_of verdict.now)))) }
    ensures places { (key : Key) → HasPlace unfinished.old key → HasPlace unfinished.new key }
    ensures cause { HasCause (O.faults out.old) (O.faults out.new) result }
{
    if !is_carrier(verdict) {
        return print_said(item, verdict, out);
    }
    let ended = unfinished.take_line(item.group, verdict);
    print_carrier(item, verdict, &ended, out)
}

// Prints the rows of a datagram, for whose messages there is room.
fn print_lines<O: Sink>(
    item: &Record,
    payload: &[u8],
    unfinished: &mut Unfinished,
    out: &mut O,
) -> Result<(), Failed>
    requires { All (λ line. HasPlace unfinished.old line.key) (lines_in item.now.group payload.now) }
    ensures read { (back : List Part) → HasRead back unfinished.old → OnOk result (HasRead (back_by back item.now.group (line_spans payload.now)) unfinished.new) }
    ensures all { (back : List Part) → HasRead back unfinished.old → OnOk result (Appends (O.taken out.old) (O.taken out.new) (rows_text (lines_rows back item.now (line_spans payload.now)))) }
    ensures front { (back : List Part) → HasRead back unfinished.old → AppendsFront (O.taken out.old) (O.taken out.new) (rows_text (lines_rows back item.now (line_spans payload.now))) }
    ensures cause { HasCause (O.faults out.old) (O.faults out.new) result }
{
    for line in lines(payload) {
        print_line(item, &line.verdict, unfinished, out)?;
    }
    Ok(())
}

/// Prints the rows of a record, for whose messages there is room.
pub(crate) fn print_record<O: Sink>(
    item: &Record,
    unfinished: &mut Unfinished,
    out: &mut O,
) -> Result<(), Failed>
    requires { All (λ line. HasPlace unfinished.old line.key) (lines_of item.now.group item.now.content) }
    ensures read { (back : List Part) → HasRead back unfinished.old → OnOk result (HasRead (back_after back item.now) unfinished.new) }
    ensures all { (back : List Part) → HasRead back unfinished.old → OnOk result (Appends (O.taken out.old) (O.taken out.new) (rows_text (record_rows back item.now))) }
    ensures front { (back : List Part) → HasRead back unfinished.old → AppendsFront (O.taken out.old) (O.taken out.new) (rows_text (record_rows back item.now)) }
    ensures cause { HasCause (O.faults out.old) (O.faults out.new) result }
{
    match item.content() {
        Content::Start => print_mark(item, b"start", out),
        Content::Datagram(payload) => print_lines(item, payload, unfinished, out),
        Content::Gap(counts) => print_missed(item, counts, out),
        Content::Stop => print_mark(item, b"stop", out),
    }
}
