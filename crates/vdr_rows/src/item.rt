// Which of several things a value is of.
ghost use Rattle.std.specs.Prelude.{◌≡◌, ◌≤◌, ◌+◌, ◌++◌, length, option_map};
ghost use Rattle.arrayvec.specs.ArrayVec.{array_vec_len};
ghost use Rattle.vdr_values.specs.Views.{value_of};
ghost use Rattle.vdr_rows.specs.Told.{told_text};
ghost use Rattle.vdr_rows.specs.Values.{Fields, field_in, item_text, part_text};

use crate::decimal::{decimal_text, of_millionths};
use crate::names::which_text;
use arrayvec::ArrayVec;
use itoa::Buffer;
use vdr_values::{Item, Reading, Value};

/// Room for what two fields say, with a point between: 32 bytes each.
pub(crate) type Told = ArrayVec<u8, 65>;

fn push(told: &mut Told, text: &[u8])
    requires { array_vec_len told.old + length text.now ≤ 65 }
    ensures { told.new.items ≡ told.old.items ++ text.now }
{
    let _ = told.try_extend_from_slice(text);
}

/// What the field of this number says, counted from 1.
pub(crate) fn field_at<'a>(reading: &Reading<'a>, number: u8) -> Option<Value<'a>>
    ensures { option_map value_of result ≡ field_in reading.now.values number }
{
    reading.value(usize::from(number).saturating_sub(1))
}

// A number, digits or a letter.
fn push_part(told: &mut Told, value: Option<Value<'_>>)
    requires { array_vec_len told.old + 32 ≤ 65 }
    ensures text { told.new.items ≡ told.old.items ++ part_text (option_map value_of value.entry) }
    ensures short { array_vec_len told.new ≤ array_vec_len told.old + 32 }
{
    match value {
        Some(Value::Number(number)) => {
            let text = decimal_text(of_millionths(number.negative, number.millionths));
            push(told, text.as_slice());
        }
        Some(Value::Digits(n)) => push(told, Buffer::new().format(n).as_bytes()),
        Some(Value::Letter(letter)) => told.push(letter),
        _ => {}
    }
}

/// What fields say of it.
pub(crate) fn told_by(reading: &Reading<'_>, item: Item) -> Told
    ensures { result.items ≡ told_text reading.now.values item }
{
    let mut told = ArrayVec::new();
    match item {
        Item::Single | Item::Named(_) => {}
        Item::Told(field) => push_part(&mut told, field_at(reading, field)),
        Item::Beside(first, second) => {
            push_part(&mut told, field_at(reading, first));
            push_part(&mut told, field_at(reading, second));
        }
        Item::Dotted(first, second) => {
            push_part(&mut told, field_at(reading, first));
            told.push(b'.');
            push_part(&mut told, field_at(reading, second));
        }
    }
    told
}

/// The one that is named, else what fields say of it.
pub(crate) fn item_or<'a>(item: Item, told: &'a [u8]) -> &'a [u8]
    ensures { (values : Fields) → told.now ≡ told_text values item → result.now ≡ item_text values item }
{
    match item {
        Item::Named(which) => which_text(which),
        _ => told,
    }
}
