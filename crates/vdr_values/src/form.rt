// The forms of fields, and the values that texts of these forms have.
ghost use Rattle.std.specs.Prelude.{◌≡◌, ◌≤◌, true, option_and_then, option_map};
ghost use Rattle.vdr_values.specs.Forms.{form_value, is_sound};
ghost use Rattle.vdr_values.specs.Forms as form;
ghost use Rattle.vdr_values.specs.Views.{form_of, number_value, value_of};
ghost use Rattle.vdr_values.specs.Values as value;

use crate::spelling::{MILLION, angle, date, signed_number, time_of_day};
use crate::value::{Num, Value};
use vdr_bytes::number;

/// The form of a field (IEC 61162-1).
#[derive(Clone, Copy, Drop)]
pub(crate) enum Form {
    /// A number with an optional sign and fraction.
    Number,
    /// A whole number from minus the greatest to the greatest.
    Whole {
        greatest: u32,
    },
    /// `hhmmss` with an optional fraction.
    Time,
    /// `ddmmyy`.
    Date,
    /// So many digits of degrees, up to the greatest, and two of minutes, with an optional fraction of so many places at most.
    Angle {
        digits: usize,
        greatest: u8,
        places: usize,
    },
    /// One to `most` digits, which write a number from the least to the greatest.
    Digits {
        most: usize,
        least: u32,
        greatest: u32,
    },
    /// One of these letters.
    Letter(&'static [u8]),
    /// Any bytes.
    Raw,
}

fn whole(text: &[u8], greatest: u32) -> Option<Num>
    ensures { option_map number_value result ≡ form_value (form.Whole greatest) text.now }
{
    let n = signed_number(text)?;
    if n.millionths % MILLION != 0 || n.millionths > MILLION * u64::from(greatest) {
        return None;
    }
    Some(n)
}

fn digits(text: &[u8], most: usize, least: u32, greatest: u32) -> Option<u32>
    requires { most ≤ 9 }
    ensures { option_map value.Digits result ≡ form_value (form.Digits most least greatest) text.now }
{
    let n = number(text, most)?;
    let n = u32::try_from(n).ok()?;
    if n < least || n > greatest {
        return None;
    }
    Some(n)
}

fn letter(text: &[u8], letters: &[u8]) -> Option<u8>
    ensures { option_map value.Letter result ≡ form_value (form.Letter letters.now) text.now }
{
    match text {
        [letter] if letters.contains(letter) => Some(*letter),
        _ => None,
    }
}

impl Form {
    /// The value that a text of this form spells, None where the text is outside of it.
    pub(crate) fn value<'a>(&self, text: &'a [u8]) -> Option<Value<'a>>
        requires { is_sound (form_of self.now) ≡ true }
        ensures { option_map value_of result ≡ form_value (form_of self.now) text.now }
    {
        match *self {
            Form::Number => Some(Value::Number(signed_number(text)?)),
            Form::Whole { greatest } => Some(Value::Number(whole(text, greatest)?)),
            Form::Time => Some(Value::Time(time_of_day(text)?)),
            Form::Date => Some(Value::Date(date(text)?)),
            Form::Angle {
                digits,
                greatest,
                places,
            } => Some(Value::Angle(angle(text, digits, greatest, places)?)),
            Form::Digits {
                most,
                least,
                greatest,
            } => Some(Value::Digits(digits(text, most, least, greatest)?)),
            Form::Letter(letters) => Some(Value::Letter(letter(text, letters)?)),
            Form::Raw => Some(Value::Raw(text)),
        }
    }
}
