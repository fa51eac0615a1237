// The number that a field says.
ghost use Rattle.std.specs.Prelude.{◌≡◌, ◌==◌};
ghost use Rattle.std.specs.List.{list_any};
ghost use Rattle.vdr_values.specs.Views.{value_of};
ghost use Rattle.vdr_rows.specs.Values.{is_opposite, number_in, number_of, sign_by, turned};

use crate::decimal::{Decimal, of_arc, of_count, of_millionths};
use crate::item::field_at;
use crate::measure::letter_at;
use crate::names::asserted_by;
use vdr_values::{Column, Reading, Value};

/// How many billionths of a minute a degree has.
const DEGREE: u64 = 60_000_000_000;

fn is_opposite(letter: u8) -> bool
    ensures { result ≡ is_opposite letter }
{
    letter == b'S' || letter == b'W' || letter == b'L'
}

// Whether the letter of a field turns the sign. None where it is empty.
fn turned(reading: &Reading<'_>, toward: Option<u8>) -> Option<bool>
    ensures { result ≡ turned reading.now.values toward }
{
    let Some(field) = toward else {
        return Some(false);
    };
    let letter = letter_at(reading, field)?;
    Some(is_opposite(letter))
}

fn sign_by(turned: bool, negative: bool) -> bool
    ensures { result ≡ sign_by turned negative }
{
    if turned { !negative } else { negative }
}

fn asserted(letters: &[u8], letter: u8) -> bool
    ensures { result ≡ list_any (λ b. b == letter) letters.now }
{
    letters.contains(&letter)
}

// The number that a value is.
fn number_of(asserts: &[u8], turned: bool, value: Value<'_>) -> Option<Decimal>
    ensures { result ≡ number_of asserts.now turned (value_of value.entry) }
{
    match value {
        Value::Number(n) => Some(of_millionths(sign_by(turned, n.negative), n.millionths)),
        Value::Angle(angle) => {
            let billionths = DEGREE * u64::from(angle.degrees) + angle.billionths;
            Some(of_arc(turned, billionths))
        }
        Value::Digits(n) => Some(of_count(u64::from(n))),
        Value::Letter(letter) => Some(of_count(if asserted(asserts, letter) { 1 } else { 0 })),
        Value::Time(_) | Value::Date(_) | Value::Raw(_) => None,
    }
}

/// The number of a column. None where its field is empty, or the one that says its sign.
pub(crate) fn number_in(reading: &Reading<'_>, column: &Column) -> Option<Decimal>
    ensures { result ≡ number_in reading.now.values column.now }
{
    let turned = turned(reading, column.toward)?;
    let value = field_at(reading, column.field)?;
    number_of(asserted_by(column.asserts), turned, value)
}
