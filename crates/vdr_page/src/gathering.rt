// Gathering what the lines of a record tell.
ghost use Rattle.std.specs.Prelude.{◌≡◌, ◌≤◌, ◌++◌, All, List, OnOk, Some, map, option_map, option_to_list};
ghost use Rattle.std.specs.List.{flat_map};
ghost use Rattle.vdr_ais.specs.Lines.{Key, Line as Part, line_in, lines_in};
ghost use Rattle.vdr_ais.specs.Pending.{HasPlace, HasRead};
ghost use Rattle.vdr_ais.specs.Views.{message_of, position_said, report_said};
ghost use Rattle.vdr_datagram.specs.Verdicts.{line_spans};
ghost use Rattle.vdr_datagram.specs.Views.{verdict_of};
ghost use Rattle.vdr_rows.specs.Numbers.{number_by, numbers_of, position_of};
ghost use Rattle.vdr_rows.specs.Tables.{back_after, back_by, back_with, ended_at};
ghost use Rattle.vdr_page.specs.Tellings.{line_tellings, lines_tellings, message_tellings, names_told, number_told, position_told, reading_tellings, report_tellings, ship_told, tellings_of};
ghost use Rattle.vdr_page.specs.TellingViews.{speaker_of, telling_of};

use crate::tellings::{Name, Speaker, Telling, number_told, position_told, ship_told};
use arrayvec::ArrayVec;
use std::alloc::{AllocError, Global};
use vdr_ais::{Message, Position, Report, Unfinished, read_message};
use vdr_datagram::{LineVerdict, lines};
use vdr_entry::{Content, Record};
use vdr_rows::{may_carry_part, may_carry_parts, number_of_column, position_said};
use vdr_terms::group_name;
use vdr_values::{Column, Reading, read_value};

/// The source of a line that names none.
const NO_SOURCE: &[u8] = b"-";

fn add_number(
    alloc: Global,
    who: &Speaker<'_>,
    reading: &Reading<'_>,
    column: &Column,
    into: &mut Vec<Telling>,
) -> Result<(), AllocError>
    ensures { OnOk result (map telling_of into.new.items ≡ map telling_of into.old.items ++ option_to_list (option_map (number_told (speaker_of who.now)) (number_by reading.now.values column.now))) }
{
    if let Some(number) = number_of_column(reading, column) {
        into.push(number_told(alloc, who, &number)?)?;
    }
    Ok(())
}

fn add_columns(
    alloc: Global,
    who: &Speaker<'_>,
    reading: &Reading<'_>,
    columns: &[Column],
    into: &mut Vec<Telling>,
) -> Result<(), AllocError>
    ensures { OnOk result (map telling_of into.new.items ≡ map telling_of into.old.items ++ flat_map (λ c. option_to_list (option_map (number_told (speaker_of who.now)) (number_by reading.now.values c))) columns.now) }
{
    for column in columns {
        add_number(alloc, who, reading, column, into)?;
    }
    Ok(())
}

fn add_numbers(
    alloc: Global,
    who: &Speaker<'_>,
    reading: &Reading<'_>,
    into: &mut Vec<Telling>,
) -> Result<(), AllocError>
    ensures { OnOk result (map telling_of into.new.items ≡ map telling_of into.old.items ++ map (number_told (speaker_of who.now)) (numbers_of reading.now)) }
{
    add_columns(alloc, who, reading, reading.columns(), into)
}

fn add_position(
    alloc: Global,
    who: &Speaker<'_>,
    reading: &Reading<'_>,
    into: &mut Vec<Telling>,
) -> Result<(), AllocError>
    ensures { OnOk result (map telling_of into.new.items ≡ map telling_of into.old.items ++ option_to_list (option_map (position_told (speaker_of who.now)) (position_of reading.now))) }
{
    if let Some(position) = position_said(reading) {
        into.push(position_told(alloc, who, &position)?)?;
    }
    Ok(())
}

fn add_ship(
    alloc: Global,
    who: &Speaker<'_>,
    formatter: &'static [u8],
    report: &Report,
    into: &mut Vec<Telling>,
) -> Result<(), AllocError>
    ensures { OnOk result (map telling_of into.new.items ≡ map telling_of into.old.items ++ option_to_list (option_map (ship_told (speaker_of who.now) formatter.now report.now.mmsi) (option_map position_said report.now.position))) }
{
    if let Some(position) = &report.position {
        into.push(ship_told(alloc, who, formatter, report.mmsi, position)?)?;
    }
    Ok(())
}

// A name of its own.
fn name_of(name: &ArrayVec<u8, 20>) -> ArrayVec<u8, 20>
    ensures { result.items ≡ name.now.items }
{
    let mut copy = ArrayVec::new();
    let _ = copy.try_extend_from_slice(name.as_slice());
    copy
}

fn add_name(
    formatter: &'static [u8],
    report: &Report,
    into: &mut Vec<Telling>,
) -> Result<(), AllocError>
    ensures { OnOk result (map telling_of into.new.items ≡ map telling_of into.old.items ++ names_told formatter.now report.now.mmsi (option_map (λ name. name.items) report.now.name)) }
{
    let Some(name) = &report.name else {
        return Ok(());
    };
    if name.is_empty() {
        return Ok(());
    }
    into.push(Telling::Names(Name {
        formatter,
        mmsi: report.mmsi,
        name: name_of(name),
    }))?;
    Ok(())
}

fn add_report(
    alloc: Global,
    who: &Speaker<'_>,
    formatter: &'static [u8],
    report: &Report,
    into: &mut Vec<Telling>,
) -> Result<(), AllocError>
    ensures { OnOk result (map telling_of into.new.items ≡ map telling_of into.old.items ++ report_tellings (speaker_of who.now) formatter.now (report_said report.now)) }
{
    add_ship(alloc, who, formatter, report, into)?;
    add_name(formatter, report, into)
}

fn add_message(
    alloc: Global,
    who: &Speaker<'_>,
    formatter: &'static [u8],
    ended: &Option<Message>,
    into: &mut Vec<Telling>,
) -> Result<(), AllocError>
    ensures { OnOk result (map telling_of into.new.items ≡ map telling_of into.old.items ++ message_tellings (speaker_of who.now) formatter.now (option_map message_of ended.now)) }
{
    let Some(message) = ended else {
        return Ok(());
    };
    match read_message(message) {
        Some(report) => add_report(alloc, who, formatter, &report, into),
        None => Ok(()),
    }
}

fn add_reading(
    alloc: Global,
    who: &Speaker<'_>,
    reading: &Reading<'_>,
    ended: &Option<Message>,
    into: &mut Vec<Telling>,
) -> Result<(), AllocError>
    ensures { OnOk result (map telling_of into.new.items ≡ map telling_of into.old.items ++ reading_tellings (speaker_of who.now) reading.now (option_map message_of ended.now)) }
{
    add_position(alloc, who, reading, into)?;
    add_numbers(alloc, who, reading, into)?;
    add_message(alloc, who, reading.formatter(), ended, into)
}

// What a line tells, and the message that ends at it.
fn add_line(
    alloc: Global,
    group: u8,
    verdict: &LineVerdict<'_>,
    ended: &Option<Message>,
    into: &mut Vec<Telling>,
) -> Result<(), AllocError>
    requires { group ≤ 15 }
    ensures { OnOk result (map telling_of into.new.items ≡ map telling_of into.old.items ++ line_tellings group (verdict_of verdict.now) (option_map message_of ended.now)) }
{
    let LineVerdict::Good { tags, sentence } = verdict else {
        return Ok(());
    };
    let who = Speaker {
        group: group_name(group).as_bytes(),
        source: tags.source.unwrap_or(NO_SOURCE),
        sentence: sentence.address,
    };
    match read_value(sentence) {
        Ok(Some(reading)) => add_reading(alloc, &who, &reading, ended, into),
        Ok(None) | Err(_) => Ok(()),
    }
}

// The message that ends at a line, for which there is room. Most lines carry none, as their address shows.
fn message_at(unfinished: &mut Unfinished, group: u8, verdict: &LineVerdict<'_>) -> Option<Message>
    requires { (part : Part) → line_in group (verdict_of verdict.now) ≡ Some part → HasPlace unfinished.old part.key }
    ensures read { (back : List Part) → HasRead back unfinished.old → HasRead (back_with back group (verdict_of verdict.now)) unfinished.new }
    ensures ended { (back : List Part) → HasRead back unfinished.old → option_map message_of result ≡ ended_at back group (verdict_of verdict.now) }
    ensures places { (key : Key) → HasPlace unfinished.old key → HasPlace unfinished.new key }
{
    if !may_carry_part(verdict) {
        return None;
    }
    unfinished.take_line(group, verdict)
}

// What the lines of a datagram tell, for whose messages there is room.
fn add_lines(
    alloc: Global,
    group: u8,
    payload: &[u8],
    unfinished: &mut Unfinished,
    into: &mut Vec<Telling>,
) -> Result<(), AllocError>
    requires group { group ≤ 15 }
    requires room { All (λ line. HasPlace unfinished.old line.key) (lines_in group payload.now) }
    ensures read { (back : List Part) → HasRead back unfinished.old → OnOk result (HasRead (back_by back group (line_spans payload.now)) unfinished.new) }
    ensures told { (back : List Part) → HasRead back unfinished.old → OnOk result (map telling_of into.new.items ≡ map telling_of into.old.items ++ lines_tellings back group (line_spans payload.now)) }
{
    for line in lines(payload) {
        let ended = message_at(unfinished, group, &line.verdict);
        add_line(alloc, group, &line.verdict, &ended, into)?;
    }
    Ok(())
}

// Makes room for the messages of a datagram's lines, where it may carry any.
fn make_rooms(unfinished: &mut Unfinished, group: u8, payload: &[u8]) -> Result<(), AllocError>
    ensures read { (back : List Part) → HasRead back unfinished.old → HasRead back unfinished.new }
    ensures rooms { OnOk result (All (λ line. HasPlace unfinished.new line.key) (lines_in group payload.now)) }
{
    if !may_carry_parts(payload) {
        return Ok(());
    }
    unfinished.make_rooms(group, payload)
}

/// Gathers what a record tells.
///
/// `AllocError`: there was no memory for it, or for what the parts of its messages have in common.
pub(crate) fn gather(
    alloc: Global,
    item: &Record,
    unfinished: &mut Unfinished,
    into: &mut Vec<Telling>,
) -> Result<(), AllocError>
    ensures read { (back : List Part) → HasRead back unfinished.old → OnOk result (HasRead (back_after back item.now) unfinished.new) }
    ensures told { (back : List Part) → HasRead back unfinished.old → OnOk result (map telling_of into.new.items ≡ tellings_of back item.now) }
{
    into.clear();
    match item.content() {
        Content::Datagram(payload) => {
            make_rooms(unfinished, item.group, payload)?;
            add_lines(alloc, item.group, payload, unfinished, into)
        }
        Content::Start | Content::Gap(_) | Content::Stop => Ok(()),
    }
}
