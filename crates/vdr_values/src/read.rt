// Reading the fields of a sentence in the forms of its row.
ghost use Rattle.std.specs.Prelude.{◌≡◌, ◌≤◌, true, length, option_map, Some, None, MatchResult};
ghost use Rattle.vdr_sentence.specs.Fields.{field_count};
ghost use Rattle.vdr_values.specs.Forms.{field_value, is_sound};
ghost use Rattle.vdr_values.specs.Readings.{fields_of, read_by};
ghost use Rattle.vdr_values.specs.Rows.{is_fit};
ghost use Rattle.vdr_values.specs.Views.{Gives, form_of, row_of, value_of, values_of};

use crate::bad::BadField;
use crate::form::Form;
use crate::place::{first_field, place_of};
use crate::row::Row;
use crate::value::Value;
use arrayvec::ArrayVec;

/// As many fields as a content may have.
pub(crate) type Values<'a> = ArrayVec<Option<Value<'a>>, 76>;

fn read_field<'a>(form: &Form, text: &'a [u8], number: u8) -> Result<Option<Value<'a>>, BadField>
    requires { is_sound (form_of form.now) ≡ true }
    ensures { MatchResult result
        (λ value. field_value (form_of form.now) text.now ≡ Some (option_map value_of value))
        (λ bad. (field_value (form_of form.now) text.now ≡ None) × (bad.field ≡ number)) }
{
    if text.is_empty() {
        return Ok(None);
    }
    match form.value(text) {
        Some(value) => Ok(Some(value)),
        None => Err(BadField { field: number }),
    }
}

/// Reads the fields of a content, of which so many stand behind its address, by a row.
pub(crate) fn read_fields<'a>(
    row: &Row,
    count: usize,
    content: &'a [u8],
) -> Result<Values<'a>, BadField>
    requires fit { is_fit (row_of row.now) ≡ true }
    requires short { length content.now ≤ 76 }
    requires count { count ≡ field_count content.now }
    ensures { Gives (λ values. values_of values.items) result (read_by (row_of row.now) (fields_of content.now)) }
{
    let mut values = ArrayVec::new();
    let mut rest = &content[place_of(content, b',')..];
    for index in 0..row.wanted(count) {
        let number = index as u8 + 1;
        let Some((text, behind)) = first_field(rest) else {
            return Err(BadField { field: number });
        };
        values.push(read_field(&row.form_at(index), text, number)?);
        rest = behind;
    }
    Ok(values)
}
