// The unit of a value, and whether it is valid.
ghost use Rattle.std.specs.Prelude.{◌≡◌, ◌==◌, option_map};
ghost use Rattle.std.specs.List.{list_all};
ghost use Rattle.vdr_values.specs.Values.{letter_in};
ghost use Rattle.vdr_values.specs.Views.{value_of};
ghost use Rattle.vdr_rows.specs.Values.{by_letter, demand_unit, distance_unit, field_in, says_only, speed_unit, unit_text, valid_in};

use crate::item::field_at;
use vdr_values::{Measure, Reading, Validity, Value};

/// The letter of the field of this number, counted from 1.
pub(crate) fn letter_at(reading: &Reading<'_>, number: u8) -> Option<u8>
    ensures { result ≡ letter_in (field_in reading.now.values number) }
{
    reading.letter(usize::from(number).saturating_sub(1))
}

fn speed_unit(letter: Option<u8>) -> &'static [u8]
    ensures { result.now ≡ by_letter speed_unit letter }
{
    match letter {
        Some(b'K') => b"km/h",
        Some(b'M') => b"m/s",
        Some(b'N') => b"kn",
        Some(b'S') => b"mph",
        _ => b"",
    }
}

fn distance_unit(letter: Option<u8>) -> &'static [u8]
    ensures { result.now ≡ by_letter distance_unit letter }
{
    match letter {
        Some(b'K') => b"km",
        Some(b'N') => b"nmi",
        Some(b'S') => b"mi",
        _ => b"",
    }
}

fn demand_unit(letter: Option<u8>) -> &'static [u8]
    ensures { result.now ≡ by_letter demand_unit letter }
{
    match letter {
        Some(b'P') => b"%",
        Some(b'R') => b"1/min",
        Some(b'D') => b"deg",
        _ => b"",
    }
}

/// The unit of a value.
pub(crate) fn unit_of(reading: &Reading<'_>, measure: Measure) -> &'static [u8]
    ensures { result.now ≡ unit_text reading.now.values measure }
{
    match measure {
        Measure::Plain => b"",
        Measure::Degrees => b"deg",
        Measure::DegreesAMinute => b"deg/min",
        Measure::ArcMinutes => b"arcmin",
        Measure::Metres => b"m",
        Measure::Feet => b"ft",
        Measure::Fathoms => b"fathom",
        Measure::NauticalMiles => b"nmi",
        Measure::Knots => b"kn",
        Measure::KilometresAnHour => b"km/h",
        Measure::MetresASecond => b"m/s",
        Measure::Revolutions => b"1/min",
        Measure::Percent => b"%",
        Measure::Seconds => b"s",
        Measure::Minutes => b"min",
        Measure::Celsius => b"degC",
        Measure::SpeedBy(field) => speed_unit(letter_at(reading, field)),
        Measure::DistanceBy(field) => distance_unit(letter_at(reading, field)),
        Measure::DemandBy(field) => demand_unit(letter_at(reading, field)),
    }
}

fn is_all(bytes: &[u8], letter: u8) -> bool
    ensures { result ≡ list_all (λ b. b == letter) bytes.now }
{
    bytes.iter().all(|byte| *byte == letter)
}

// Whether a field says this letter or digit alone.
fn says_only(value: Option<Value<'_>>, letter: u8) -> bool
    ensures { result ≡ says_only letter (option_map value_of value.entry) }
{
    match value {
        Some(Value::Letter(said)) => said == letter,
        Some(Value::Digits(n)) => n == u32::from(letter.saturating_sub(48)),
        Some(Value::Raw(bytes)) => !bytes.is_empty() && is_all(bytes, letter),
        _ => false,
    }
}

/// Whether the sentence says that a value is valid.
pub(crate) fn valid_by(reading: &Reading<'_>, valid: Validity) -> Option<bool>
    ensures { result ≡ valid_in reading.now.values valid }
{
    match valid {
        Validity::Untold => None,
        Validity::Status(field) => Some(letter_at(reading, field)? == b'A'),
        Validity::Unless(field, letter) => Some(!says_only(field_at(reading, field), letter)),
    }
}
