// The text beside a value.
ghost use Rattle.std.specs.Prelude.{◌≡◌, ◌≤◌, ◌+◌, ◌%◌, ◌++◌, Some, codes, length, option_map};
ghost use Rattle.arrayvec.specs.ArrayVec.{array_vec_len};
ghost use Rattle.vdr_entry.specs.Escape.{escaped};
ghost use Rattle.vdr_entry.specs.Utc.{last_digits};
ghost use Rattle.vdr_values.specs.Values.{digits_in};
ghost use Rattle.vdr_values.specs.Views.{time_value, value_of};
ghost use Rattle.vdr_rows.specs.Values.{clock_of, field_in, shown, words_in};

use crate::decimal::fraction;
use crate::item::field_at;
use arrayvec::ArrayVec;
use vdr_values::{Column, Reading, Time, Value, Words, print_escaped};

/// Room for 76 bytes, each of which may take four.
pub(crate) type Text = ArrayVec<u8, 512>;

fn push(text: &mut Text, piece: &[u8])
    requires { array_vec_len text.old + length piece.now ≤ 512 }
    ensures { text.new.items ≡ text.old.items ++ piece.now }
{
    let _ = text.try_extend_from_slice(piece);
}

// The last digit of a number.
fn digit(n: u32) -> u8
    ensures { result ≡ 48 + n % 10 }
{
    b'0' + (n % 10) as u8
}

// YYYY-MM-DDThh:mm:ss
fn seconds(day: u32, month: u32, year: u32, hour: u32, minute: u32, second: u32) -> [u8; 19]
    ensures { result ≡ last_digits 4 year ++ codes "-" ++ last_digits 2 month ++ codes "-" ++ last_digits 2 day ++ codes "T" ++ last_digits 2 hour ++ codes ":" ++ last_digits 2 minute ++ codes ":" ++ last_digits 2 second }
{
    [
        digit(year / 10 / 10 / 10),
        digit(year / 10 / 10),
        digit(year / 10),
        digit(year),
        b'-',
        digit(month / 10),
        digit(month),
        b'-',
        digit(day / 10),
        digit(day),
        b'T',
        digit(hour / 10),
        digit(hour),
        b':',
        digit(minute / 10),
        digit(minute),
        b':',
        digit(second / 10),
        digit(second),
    ]
}

// The digits of the field of this number, counted from 1.
fn digits_at(reading: &Reading<'_>, number: u8) -> Option<u32>
    ensures { result ≡ digits_in (field_in reading.now.values number) }
{
    reading.digits(usize::from(number).saturating_sub(1))
}

fn clock(day: u32, month: u32, year: u32, time: Time) -> Text
    ensures { result.items ≡ clock_of (Some day) (Some month) (Some year) (Some (time_value time)) }
{
    let mut text = ArrayVec::new();
    let (hour, minute, second) = (
        u32::from(time.hour),
        u32::from(time.minute),
        u32::from(time.second),
    );
    push(&mut text, &seconds(day, month, year, hour, minute, second));
    push(&mut text, fraction(100 * time.millionths).as_slice());
    text.push(b'Z');
    text
}

fn clock_of(
    day: Option<u32>,
    month: Option<u32>,
    year: Option<u32>,
    time: Option<Value<'_>>,
) -> Text
    ensures { result.items ≡ clock_of day month year (option_map value_of time.entry) }
{
    match (day, month, year, time) {
        (Some(day), Some(month), Some(year), Some(Value::Time(time))) => clock(
            day, month, year, time,
        ),
        _ => ArrayVec::new(),
    }
}

fn escaped(bytes: &[u8]) -> Text
    requires { length bytes.now ≤ 76 }
    ensures { result.items ≡ escaped bytes.now }
{
    let mut text = ArrayVec::new();
    print_escaped(bytes, &mut text);
    text
}

// What the field of this number says, counted from 1: bytes or a letter.
fn shown(reading: &Reading<'_>, number: u8) -> Text
    ensures { result.items ≡ shown (field_in reading.now.values number) }
{
    let index = usize::from(number).saturating_sub(1);
    if let Some(bytes) = reading.raw(index) {
        return escaped(bytes);
    }
    let mut text = ArrayVec::new();
    if let Some(letter) = reading.letter(index) {
        text.push(letter);
    }
    text
}

/// The text beside the value of a column.
pub(crate) fn words_in(reading: &Reading<'_>, column: &Column) -> Text
    ensures { result.items ≡ words_in reading.now.values column.now column.now.words }
{
    match column.words {
        Words::Silent => ArrayVec::new(),
        Words::Of(field) => shown(reading, field),
        Words::Clock(day, month, year) => clock_of(
            digits_at(reading, day),
            digits_at(reading, month),
            digits_at(reading, year),
            field_at(reading, column.field),
        ),
    }
}
