// The segment that is open, and what is printed at each step.
ghost use Rattle.std.specs.Prelude.{◌≡◌, ◌≤◌, OnOk};
ghost use Rattle.std.specs.Io.KnownBytes.{Appends};
ghost use Rattle.vdr_terms.specs.Stamps.{IsStamp, last_stamp};
ghost use Rattle.vdr_outside.specs.Causes.{HasCause};
ghost use Rattle.vdr_outside.specs.Writes.{AppendsFront};
ghost use Rattle.vdr_track.specs.Segments.{goes_on, joins, open_after, open_with, unless_of};
ghost use Rattle.vdr_track.specs.Steps.{HasStamp, lines_steps, steps_in};
ghost use Rattle.vdr_track.specs.Texts.{said_text, step_text, steps_text};

use crate::lines::line_step;
use crate::point::{Point, Step};
use crate::text::{Part, first_text, left_text, missed_text, point_text};
use arrayvec::ArrayVec;
use vdr_datagram::lines;
use vdr_entry::{Content, Record};
use vdr_outside::{Failed, Sink, write_all};
use vdr_rows::may_fix;

/// The greatest time from one point of a segment to the next, in milliseconds.
const LONGEST: u64 = 10_000;

// Whether a point goes on from the one before it.
fn joins(before: &Point, point: &Point) -> bool
    ensures { result ≡ joins before.now point.now }
{
    before.group == point.group && before.utc <= point.utc && point.utc - before.utc <= LONGEST
}

// Whether it goes on from the last point of the open segment.
fn goes_on(last: &Option<Point>, point: &Point) -> bool
    ensures { result ≡ goes_on last.now point.now }
{
    match last {
        Some(before) => joins(before, point),
        None => false,
    }
}

// What stays open where items of a group were missed.
fn unless_of(group: u8, last: Option<Point>) -> Option<Point>
    ensures { result ≡ unless_of group last }
{
    match last {
        Some(point) if point.group != group => Some(point),
        _ => None,
    }
}

// The last point of the segment that is open behind a step.
fn open_with(last: Option<Point>, step: Step) -> Option<Point>
    ensures { result ≡ open_with last step }
{
    match step {
        Step::Begun | Step::Lost => None,
        Step::Missed(group) => unless_of(group, last),
        Step::Said(point) => Some(point),
        Step::Silent => last,
    }
}

fn said_text(last: &Option<Point>, point: &Point) -> Part
    requires { point.now.utc ≤ last_stamp }
    ensures { result.items ≡ said_text (goes_on last.now point.now) last.now point.now }
{
    if goes_on(last, point) {
        point_text(point)
    } else {
        first_text(last, point)
    }
}

fn step_text(last: &Option<Point>, step: &Step) -> Part
    requires { HasStamp step.now }
    ensures { result.items ≡ step_text last.now step.now }
{
    match step {
        Step::Begun | Step::Lost => left_text(last),
        Step::Missed(group) => missed_text(*group, last),
        Step::Said(point) => said_text(last, point),
        Step::Silent => ArrayVec::new(),
    }
}

// Prints a step, and keeps what is open behind it.
fn follow<O: Sink>(last: &mut Option<Point>, step: Step, out: &mut O) -> Result<(), Failed>
    requires { HasStamp step }
    ensures opened { OnOk result (last.new ≡ open_with last.old step) }
    ensures all { OnOk result (Appends (O.taken out.old) (O.taken out.new) (step_text last.old step)) }
    ensures front { AppendsFront (O.taken out.old) (O.taken out.new) (step_text last.old step) }
    ensures cause { HasCause (O.faults out.old) (O.faults out.new) result }
{
    write_all(out, step_text(last, &step).as_slice())?;
    *last = open_with(*last, step);
    Ok(())
}

// Prints what the lines of a datagram say, and keeps what is open behind them.
fn follow_lines<O: Sink>(
    source: &[u8],
    item: &Record,
    payload: &[u8],
    last: &mut Option<Point>,
    out: &mut O,
) -> Result<(), Failed>
    requires { IsStamp item.now.utc }
    ensures opened { OnOk result (last.new ≡ open_after last.old (lines_steps source.now item.now payload.now)) }
    ensures all { OnOk result (Appends (O.taken out.old) (O.taken out.new) (steps_text last.old (lines_steps source.now item.now payload.now))) }
    ensures front { AppendsFront (O.taken out.old) (O.taken out.new) (steps_text last.old (lines_steps source.now item.now payload.now)) }
    ensures cause { HasCause (O.faults out.old) (O.faults out.new) result }
{
    for line in lines(payload) {
        follow(last, line_step(source, item, &line.verdict), out)?;
    }
    Ok(())
}

// The same. A datagram whose bytes name no formatter with a position is passed over before it is cut into its lines.
fn follow_datagram<O: Sink>(
    source: &[u8],
    item: &Record,
    payload: &[u8],
    last: &mut Option<Point>,
    out: &mut O,
) -> Result<(), Failed>
    requires { IsStamp item.now.utc }
    ensures opened { OnOk result (last.new ≡ open_after last.old (lines_steps source.now item.now payload.now)) }
    ensures all { OnOk result (Appends (O.taken out.old) (O.taken out.new) (steps_text last.old (lines_steps source.now item.now payload.now))) }
    ensures front { AppendsFront (O.taken out.old) (O.taken out.new) (steps_text last.old (lines_steps source.now item.now payload.now)) }
    ensures cause { HasCause (O.faults out.old) (O.faults out.new) result }
{
    if !may_fix(payload) {
        return Ok(());
    }
    follow_lines(source, item, payload, last, out)
}

/// Prints what a record says of the track of a source, and keeps what is open behind it.
pub(crate) fn follow_record<O: Sink>(
    source: &[u8],
    item: &Record,
    last: &mut Option<Point>,
    out: &mut O,
) -> Result<(), Failed>
    ensures opened { OnOk result (last.new ≡ open_after last.old (steps_in source.now item.now)) }
    ensures all { OnOk result (Appends (O.taken out.old) (O.taken out.new) (steps_text last.old (steps_in source.now item.now))) }
    ensures front { AppendsFront (O.taken out.old) (O.taken out.new) (steps_text last.old (steps_in source.now item.now)) }
    ensures cause { HasCause (O.faults out.old) (O.faults out.new) result }
{
    match item.content() {
        Content::Start => follow(last, Step::Begun, out),
        Content::Datagram(payload) => follow_datagram(source, item, payload, last, out),
        Content::Gap(_) => follow(last, Step::Missed(item.group), out),
        Content::Stop => Ok(()),
    }
}
