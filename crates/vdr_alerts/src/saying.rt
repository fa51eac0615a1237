// What a sentence says of alerts.
ghost use Rattle.std.specs.Prelude.{◌≡◌, ◌≤◌, [], IfSome, length, option_copied, option_map, unwrap_or};
ghost use Rattle.vdr_values.specs.Views.{sign_and_size};
ghost use Rattle.vdr_alerts.specs.Alerts.{alert_of, alert_part, if_short, list_part, names, names_at, part_of, saying_of, whole_number};
ghost use Rattle.vdr_alerts.specs.Views.{saying_value};

use crate::alert::{Alert, name_of, text_of};
use crate::part::Part;
use arrayvec::ArrayVec;
use vdr_values::{Num, Reading};

// The formatters that tell of alerts.
const ALERT: &[u8] = b"ALF";

const LIST: &[u8] = b"ALC";

const MILLION: u64 = 1_000_000;

// How many alerts a sentence ALC lists at most, and where the first one stands in it.
const MOST_LISTED: usize = 30;

const FIRST_LISTED: usize = 4;

/// A sentence of an alert, or of a list of alerts.
#[derive(Drop)]
pub enum Saying<'a> {
    Tells(Part),
    Lists(Part, Reading<'a>),
}

// A whole number that is not below 0.
fn whole_number(number: Option<Num>) -> Option<u64>
    ensures { result ≡ whole_number (option_map sign_and_size number) }
{
    let number = number?;
    if number.negative || number.millionths % MILLION != 0 {
        return None;
    }
    Some(number.millionths / MILLION)
}

// A text of its own, empty where there is none.
fn text_or_none(text: Option<&[u8]>) -> ArrayVec<u8, 76>
    requires { IfSome text (λ b. length b.now ≤ 76) }
    ensures { result.items ≡ unwrap_or (option_copied text.entry) [] }
{
    text_of(text.unwrap_or(b""))
}

// An alert that is just told, where its number is there.
fn alert_of(
    source: (u8, &[u8]),
    maker: Option<&[u8]>,
    number: Option<u64>,
    instance: Option<u64>,
    priority: Option<u8>,
    state: Option<u8>,
) -> Option<Alert>
    requires group { source.0 ≤ 15 }
    requires short { length source.1.now ≤ 15 }
    requires maker { IfSome maker (λ b. length b.now ≤ 76) }
    ensures { result ≡ alert_of (record { group = source.entry.0; name = source.entry.1.now }) (option_copied maker.entry) number instance priority state }
{
    let number = number?;
    Some(Alert {
        group: source.0,
        name: name_of(source.1),
        maker: text_or_none(maker),
        number,
        instance,
        priority,
        state,
        listed: true,
        gone: false,
    })
}

// One of so many sentences, where both numbers are there.
fn part_of(
    source: (u8, &[u8]),
    code: Option<u32>,
    sequence: Option<u32>,
    total: Option<u32>,
    number: Option<u32>,
    alert: Option<Alert>,
    text: Option<&[u8]>,
) -> Option<Part>
    requires group { source.0 ≤ 15 }
    requires short { length source.1.now ≤ 15 }
    requires text { IfSome text (λ b. length b.now ≤ 76) }
    ensures { result ≡ part_of (record { group = source.entry.0; name = source.entry.1.now }) code sequence total number alert (option_copied text.entry) }
{
    let (Some(total), Some(number)) = (total, number) else {
        return None;
    };
    Some(Part {
        group: source.0,
        name: name_of(source.1),
        sequence,
        code,
        total,
        number,
        alert,
        text: text_or_none(text),
    })
}

// An alert comes in one sentence or in two.
fn if_short(part: Option<Part>) -> Option<Part>
    ensures { result ≡ if_short part }
{
    let part = part?;
    if part.total <= 2 { Some(part) } else { None }
}

// What a sentence ALF tells.
fn alert_part(source: (u8, &[u8]), code: Option<u32>, reading: &Reading<'_>) -> Option<Part>
    requires group { source.0 ≤ 15 }
    requires short { length source.1.now ≤ 15 }
    ensures { result ≡ alert_part (record { group = source.entry.0; name = source.entry.1.now }) code reading.now.values }
{
    let (number, instance) = (
        whole_number(reading.number(8)),
        whole_number(reading.number(9)),
    );
    let (priority, state) = (reading.letter(5), reading.letter(6));
    let alert = alert_of(source, reading.raw(7), number, instance, priority, state);
    let (total, number) = (reading.digits(0), reading.digits(1));
    if_short(part_of(
        source,
        code,
        reading.digits(2),
        total,
        number,
        alert,
        reading.raw(12),
    ))
}

// What a sentence ALC begins or goes on with.
fn list_part(source: (u8, &[u8]), code: Option<u32>, reading: &Reading<'_>) -> Option<Part>
    requires group { source.0 ≤ 15 }
    requires short { length source.1.now ≤ 15 }
    ensures { result ≡ list_part (record { group = source.entry.0; name = source.entry.1.now }) code reading.now.values }
{
    let (total, number) = (reading.digits(0), reading.digits(1));
    part_of(source, code, reading.digits(2), total, number, None, None)
}

/// What the sentence of a source says of alerts, where it stands in a TAG group of this code. None where it is no ALF and no ALC, or lacks how
/// many sentences it comes in and which of them it is; and none of an alert that comes in more than two.
pub fn saying_of<'a>(
    source: (u8, &[u8]),
    code: Option<u32>,
    reading: Reading<'a>,
) -> Option<Saying<'a>>
    requires group { source.0 ≤ 15 }
    requires short { length source.1.now ≤ 15 }
    ensures { option_map saying_value result ≡ saying_of reading.entry.row.formatter (record { group = source.entry.0; name = source.entry.1.now }) code reading.entry.values }
{
    let formatter = reading.formatter();
    if formatter == ALERT {
        return Some(Saying::Tells(alert_part(source, code, &reading)?));
    }
    if formatter == LIST {
        return Some(Saying::Lists(list_part(source, code, &reading)?, reading));
    }
    None
}

// Whether the four fields from this one on identify the alert.
fn names_at(reading: &Reading<'_>, alert: &Alert, at: usize) -> bool
    requires { at ≤ 1000 }
    ensures { result ≡ names_at reading.now.values alert.now at }
{
    reading.raw(at).unwrap_or(b"") == alert.maker.as_slice()
        && whole_number(reading.number(at + 1)) == Some(alert.number)
        && whole_number(reading.number(at + 2)) == alert.instance
}

/// Whether a sentence ALC lists the alert.
pub(crate) fn names(reading: &Reading<'_>, alert: &Alert) -> bool
    ensures { result ≡ names reading.now.values alert.now }
{
    let mut is_listed = false;
    for place in 0..MOST_LISTED {
        is_listed = names_at(reading, alert, FIRST_LISTED + 4 * place) || is_listed;
    }
    is_listed
}
