// A reading as text.
ghost use Rattle.std.specs.Prelude.{◌≡◌, ◌≤◌, ◌<◌, ◌+◌, ◌++◌, drop, length, codes, decimal, option_map};
ghost use Rattle.arrayvec.specs.ArrayVec.{array_vec_len};
ghost use Rattle.vdr_values.specs.Readings.{reading};
ghost use Rattle.vdr_values.specs.Texts.{field_text, group_text, index_in, piece, reading_text, reading_word, text_along, value_text};
ghost use Rattle.vdr_values.specs.Views.{value_of, values_of};

use crate::bad::BadField;
use crate::escape::print_escaped;
use crate::reading::{Reading, read_value};
use crate::text::{append, print_angle, print_date, print_decimal, print_number, print_time};
use crate::value::Value;
use arrayvec::ArrayVec;
use vdr_sentence::Sentence;

fn print_given(value: &Value<'_>, out: &mut ArrayVec<u8, 512>)
    requires { array_vec_len out.old + length (value_text (value_of value.now)) ≤ 512 }
    ensures { out.new.items ≡ out.old.items ++ value_text (value_of value.now) }
{
    match *value {
        Value::Number(number) => print_number(number, out),
        Value::Time(time) => print_time(time, out),
        Value::Date(date) => print_date(date, out),
        Value::Angle(angle) => print_angle(angle, out),
        Value::Digits(number) => print_decimal(u64::from(number), out),
        Value::Letter(letter) => out.push(letter),
        Value::Raw(bytes) => print_escaped(bytes, out),
    }
}

// Appends what a field says.
fn print_field(value: &Option<Value<'_>>, out: &mut ArrayVec<u8, 512>)
    requires { array_vec_len out.old + length (field_text (option_map value_of value.now)) ≤ 512 }
    ensures { out.new.items ≡ out.old.items ++ field_text (option_map value_of value.now) }
{
    match value {
        Some(value) => print_given(value, out),
        None => append(out, b"null"),
    }
}

// The index of the field that a byte of the table's text stands for.
fn index_in(byte: u8) -> Option<usize>
    ensures { result ≡ index_in byte }
{
    match byte {
        b'1'..=b'9' => Some(usize::from(byte - b'1')),
        b'A'..=b'Z' => Some(usize::from(byte - b'A') + 9),
        _ => None,
    }
}

// Appends what a byte of the table's text stands for.
fn print_piece(byte: u8, values: &[Option<Value<'_>>], out: &mut ArrayVec<u8, 512>)
    requires { array_vec_len out.old + length (piece (values_of values.now) byte) ≤ 512 }
    ensures { out.new.items ≡ out.old.items ++ piece (values_of values.now) byte }
{
    let Some(index) = index_in(byte) else {
        out.push(byte);
        return;
    };
    match values.get(index) {
        Some(value) => print_field(value, out),
        None => append(out, b"null"),
    }
}

fn print_bad(bad: BadField, out: &mut ArrayVec<u8, 512>)
    requires { array_vec_len out.old + 400 ≤ 512 }
    ensures { out.new.items ≡ out.old.items ++ codes "field " ++ decimal bad.field }
{
    append(out, b"field ");
    print_decimal(u64::from(bad.field), out);
}

fn print_along(text: &[u8], values: &[Option<Value<'_>>], out: &mut ArrayVec<u8, 512>)
    requires { array_vec_len out.old + length (text_along text.now (values_of values.now)) ≤ 512 }
    ensures { out.new.items ≡ out.old.items ++ text_along text.now (values_of values.now) }
{
    for byte in text {
        print_piece(*byte, values, out);
    }
}

// Appends the fields of groups, each behind a space.
fn print_groups(values: &[Option<Value<'_>>], out: &mut ArrayVec<u8, 512>)
    requires { array_vec_len out.old + length (group_text (values_of values.now)) ≤ 512 }
    ensures { out.new.items ≡ out.old.items ++ group_text (values_of values.now) }
{
    for value in values {
        out.push(b' ');
        print_field(value, out);
    }
}

fn behind<'v, 'a>(values: &'v [Option<Value<'a>>], first: usize) -> &'v [Option<Value<'a>>]
    ensures { result.now ≡ drop first values.now }
{
    &values[first.min(values.len())..]
}

/// Appends the text of a reading, at most 400 bytes (this project's profile), as the table of docs/formats/readings.md has it for the formatter.
///
/// Numbers have no leading zeros, no trailing zeros of their fraction, and no sign before zero. A time is `hh:mm:ss` with its fraction, a date
/// `yyyy-mm-dd`, an angle its degrees, a space and its minutes. In raw bytes a printable ASCII character other than `<` stands for itself, and
/// any other byte is `<hh>`. A field that is empty or left out is `null`.
#[tactic(auto, unfolding(crate::specs::Texts::reading_text))]
pub fn print_value(reading: &Reading<'_>, out: &mut ArrayVec<u8, 512>)
    requires { array_vec_len out.old + 400 ≤ 512 }
    ensures { out.new.items ≡ out.old.items ++ reading_text reading.now }
{
    let values = reading.values.as_slice();
    print_along(reading.row.text, values, out);
    print_groups(behind(values, reading.row.fields.len()), out);
}

/// Appends the word for what a sentence says: the text of its reading, `-` where its formatter is not known, `field N` where its field N
/// is the first that is missing or outside its form.
pub fn print_reading(sentence: &Sentence<'_>, out: &mut ArrayVec<u8, 512>)
    requires { array_vec_len out.old + 400 ≤ 512 }
    ensures { out.new.items ≡ out.old.items ++ reading_word (reading sentence.now.content.now) }
{
    match read_value(sentence) {
        Ok(Some(reading)) => print_value(&reading, out),
        Ok(None) => out.push(b'-'),
        Err(bad) => print_bad(bad, out),
    }
}
