// The rows of what an AIS message reports.
ghost use Rattle.std.specs.Prelude.{◌≡◌, ◌≤◌, ◌+◌, ◌++◌, ◌∷◌, [], OnOk, Some, length, option_map};
ghost use Rattle.arrayvec.specs.ArrayVec.{array_vec_len};
ghost use Rattle.std.specs.Io.KnownBytes.{Appends};
ghost use Rattle.vdr_ais.specs.Targets.{mmsi_text};
ghost use Rattle.vdr_ais.specs.Views.{message_of, position_said, report_said};
ghost use Rattle.vdr_outside.specs.Causes.{HasCause};
ghost use Rattle.vdr_outside.specs.Writes.{AppendsFront};
ghost use Rattle.vdr_rows.specs.Reported.{angle_said, both_values, heading_said as bearing_said, given, kind_of, message_values, name_said, no_course, no_speed, position_values, report_values, tenths_said};
ghost use Rattle.vdr_rows.specs.Tables.{rows_of};
ghost use Rattle.vdr_rows.specs.Texts.{rows_text};
ghost use Rattle.vdr_rows.specs.Views.{heading_said, said_of};

use crate::decimal::{of_count, of_minutes, of_tenths};
use crate::heading::Heading;
use crate::row::print_values;
use crate::said::Said;
use arrayvec::ArrayVec;
use itoa::Buffer;
use vdr_ais::{Message, Position, Report, read_message};
use vdr_outside::{Failed, Sink};

/// A latitude that is not available, in ten-thousandths of a minute.
const NO_LATITUDE: i32 = 54_600_000;

/// A longitude that is not available.
const NO_LONGITUDE: i32 = 108_600_000;

/// A heading that is not available, in degrees.
const NO_HEADING: u16 = 511;

/// How many digits an MMSI has, with the zeros before it.
const MMSI_DIGITS: usize = 9;

fn push(text: &mut ArrayVec<u8, 20>, piece: &[u8])
    requires { array_vec_len text.old + length piece.now ≤ 20 }
    ensures { text.new.items ≡ text.old.items ++ piece.now }
{
    let _ = text.try_extend_from_slice(piece);
}

// The digits of an MMSI, with zeros before them.
fn mmsi_of(mmsi: u32) -> ArrayVec<u8, 20>
    ensures { result.items ≡ mmsi_text mmsi }
{
    let mut text = ArrayVec::new();
    let mut buffer = Buffer::new();
    let digits = buffer.format(mmsi).as_bytes();
    for _ in 0..MMSI_DIGITS.saturating_sub(digits.len()) {
        text.push(b'0');
    }
    push(&mut text, digits);
    text
}

// The number of a message.
fn kind_of(message: &Message) -> u8
    ensures { result ≡ kind_of (message_of message.now) }
{
    match message.sixes.as_slice() {
        [first, ..] => *first,
        [] => 0,
    }
}

fn no_speed(kind: u8) -> u16
    ensures { result ≡ no_speed kind }
{
    match kind {
        9 => 10_230,
        27 => 630,
        _ => 1_023,
    }
}

fn no_course(kind: u8) -> u16
    ensures { result ≡ no_course kind }
{
    if kind == 27 { 5_110 } else { 3_600 }
}

// A latitude or a longitude.
fn angle<'a>(mmsi: &'a [u8], name: &'a [u8], none: i32, n: i32) -> Option<Said<'a>>
    ensures { option_map said_of result ≡ angle_said mmsi.now name.now none n }
{
    if n == none {
        return None;
    }
    Some(Said {
        item: mmsi,
        name,
        number: Some(of_minutes(n)),
        measure: b"deg",
        valid: None,
        words: b"",
    })
}

fn tenths<'a>(
    mmsi: &'a [u8],
    name: &'a [u8],
    none: u16,
    measure: &'static [u8],
    n: Option<u16>,
) -> Option<Said<'a>>
    ensures { option_map said_of result ≡ tenths_said mmsi.now name.now none measure.now n }
{
    let n = n?;
    if n == none {
        return None;
    }
    Some(Said {
        item: mmsi,
        name,
        number: Some(of_tenths(n)),
        measure,
        valid: None,
        words: b"",
    })
}

fn bearing(mmsi: &[u8], n: Option<u16>) -> Option<Said<'_>>
    ensures { option_map said_of result ≡ bearing_said mmsi.now n }
{
    let n = n?;
    if n == NO_HEADING {
        return None;
    }
    Some(Said {
        item: mmsi,
        name: b"ais_heading",
        number: Some(of_count(u64::from(n))),
        measure: b"deg",
        valid: None,
        words: b"",
    })
}

fn named<'a>(mmsi: &'a [u8], name: &'a [u8]) -> Option<Said<'a>>
    ensures { option_map said_of result ≡ name_said mmsi.now (Some name.now) }
{
    if name.is_empty() {
        return None;
    }
    Some(Said {
        item: mmsi,
        name: b"ais_name",
        number: None,
        measure: b"",
        valid: None,
        words: name,
    })
}

fn print_position<O: Sink>(
    heading: &Heading<'_>,
    kind: u8,
    mmsi: &[u8],
    position: &Option<Position>,
    out: &mut O,
) -> Result<(), Failed>
    ensures all { OnOk result (Appends (O.taken out.old) (O.taken out.new) (rows_text (rows_of (heading_said heading.now) (given (position_values kind mmsi.now (option_map position_said position.now)))))) }
    ensures front { AppendsFront (O.taken out.old) (O.taken out.new) (rows_text (rows_of (heading_said heading.now) (given (position_values kind mmsi.now (option_map position_said position.now))))) }
    ensures cause { HasCause (O.faults out.old) (O.faults out.new) result }
{
    let Some(p) = position else {
        return Ok(());
    };
    let values = [
        angle(mmsi, b"ais_latitude", NO_LATITUDE, p.latitude),
        angle(mmsi, b"ais_longitude", NO_LONGITUDE, p.longitude),
        tenths(mmsi, b"ais_speed", no_speed(kind), b"kn", p.speed),
        tenths(mmsi, b"ais_course", no_course(kind), b"deg", p.course),
        bearing(mmsi, p.heading),
    ];
    print_values(heading, &values, out)
}

fn print_name<O: Sink>(
    heading: &Heading<'_>,
    mmsi: &[u8],
    name: &Option<ArrayVec<u8, 20>>,
    out: &mut O,
) -> Result<(), Failed>
    ensures all { OnOk result (Appends (O.taken out.old) (O.taken out.new) (rows_text (rows_of (heading_said heading.now) (given (name_said mmsi.now (option_map (λ n. n.items) name.now) ∷ []))))) }
    ensures front { AppendsFront (O.taken out.old) (O.taken out.new) (rows_text (rows_of (heading_said heading.now) (given (name_said mmsi.now (option_map (λ n. n.items) name.now) ∷ [])))) }
    ensures cause { HasCause (O.faults out.old) (O.faults out.new) result }
{
    match name {
        Some(name) => print_values(heading, &[named(mmsi, name.as_slice())], out),
        None => Ok(()),
    }
}

// Of the ship with this MMSI.
fn print_both<O: Sink>(
    heading: &Heading<'_>,
    kind: u8,
    mmsi: &[u8],
    report: &Report,
    out: &mut O,
) -> Result<(), Failed>
    ensures all { OnOk result (Appends (O.taken out.old) (O.taken out.new) (rows_text (rows_of (heading_said heading.now) (given (both_values kind mmsi.now (report_said report.now)))))) }
    ensures front { AppendsFront (O.taken out.old) (O.taken out.new) (rows_text (rows_of (heading_said heading.now) (given (both_values kind mmsi.now (report_said report.now))))) }
    ensures cause { HasCause (O.faults out.old) (O.faults out.new) result }
{
    print_position(heading, kind, mmsi, &report.position, out)?;
    print_name(heading, mmsi, &report.name, out)
}

fn print_report<O: Sink>(
    heading: &Heading<'_>,
    kind: u8,
    report: &Report,
    out: &mut O,
) -> Result<(), Failed>
    ensures all { OnOk result (Appends (O.taken out.old) (O.taken out.new) (rows_text (rows_of (heading_said heading.now) (report_values kind (Some (report_said report.now)))))) }
    ensures front { AppendsFront (O.taken out.old) (O.taken out.new) (rows_text (rows_of (heading_said heading.now) (report_values kind (Some (report_said report.now))))) }
    ensures cause { HasCause (O.faults out.old) (O.faults out.new) result }
{
    let mmsi = mmsi_of(report.mmsi);
    print_both(heading, kind, mmsi.as_slice(), report, out)
}

/// Prints the rows of what a message reports.
pub(crate) fn print_message<O: Sink>(
    heading: &Heading<'_>,
    message: &Message,
    out: &mut O,
) -> Result<(), Failed>
    ensures all { OnOk result (Appends (O.taken out.old) (O.taken out.new) (rows_text (rows_of (heading_said heading.now) (message_values (Some (message_of message.now)))))) }
    ensures front { AppendsFront (O.taken out.old) (O.taken out.new) (rows_text (rows_of (heading_said heading.now) (message_values (Some (message_of message.now))))) }
    ensures cause { HasCause (O.faults out.old) (O.faults out.new) result }
{
    match read_message(message) {
        Some(report) => print_report(heading, kind_of(message), &report, out),
        None => Ok(()),
    }
}
