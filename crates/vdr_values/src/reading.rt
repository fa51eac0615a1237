// A reading: a row of the table, and what the fields of a sentence say by it.
ghost use Rattle.std.specs.Prelude.{◌≡◌, ◌↔◌, true, Ok, Some, None};
ghost use Rattle.vdr_values.specs.Readings.{reading};
ghost use Rattle.vdr_values.specs.Table.{row_for};
ghost use Rattle.vdr_values.specs.Views.{Gives};

use crate::bad::BadField;
use crate::column::Column;
use crate::read::{Values, read_fields};
use crate::row::{Row, row_for};
use crate::value::{Num, Value};
use std::marker::Model;
use vdr_sentence::Sentence;

/// What a sentence says: the row of its formatter, and what each of its fields says, in their order. Its type keeps that each value is in the
/// range of its form, and that its raw fields have together at most 76 bytes.
#[derive(Drop)]
pub struct Reading<'a> {
    pub(crate) row: Row,
    pub(crate) values: Values<'a>,
}

impl<'a> Model for Reading<'a> {
    ghost use Rattle.vdr_values.specs.Readings.{Reading as Told, told};
    ghost use Rattle.vdr_values.specs.Legality.{IsLegal};
    ghost use Rattle.vdr_values.specs.Views.{row_of, values_of};

    ghost Value = { Told };

    ghost view = { λ r. told (row_of r.row) (values_of r.values.items) };

    ghost invariant = { λ r. IsLegal (told (row_of r.row) (values_of r.values.items)) };
}

/// Reads the fields of a sentence (IEC 61162-1). None exactly where its formatter is not known. Else the first field that is missing or
/// outside its form is refused. Surplus fields say nothing.
#[tactic(auto, unfolding(crate::specs::Readings::reading))]
pub fn read_value<'a>(sentence: &Sentence<'a>) -> Result<Option<Reading<'a>>, BadField>
    ensures exact { Gives (λ r. r) result (reading sentence.now.content.now) }
    ensures unknown { (result ≡ Ok None) ↔ (row_for sentence.now.address.now ≡ None) }
{
    let Some(row) = row_for(sentence.address) else {
        return Ok(None);
    };
    let values = read_fields(&row, sentence.count(), sentence.content)?;
    Ok(Some(Reading { row, values }))
}

impl<'a> Reading<'a> {
    ghost use Rattle.std.specs.Prelude.{◌≤◌, IfSome, length, option_copied, option_map};
    ghost use Rattle.vdr_values.specs.Forms.{suits};
    ghost use Rattle.vdr_values.specs.Rows.{form_at};
    ghost use Rattle.vdr_values.specs.Values.{value_at, digits_in, letter_in, number_in, raw_in};
    ghost use Rattle.vdr_values.specs.Values as value;
    ghost use Rattle.vdr_values.specs.Table.{row_named};
    ghost use Rattle.vdr_values.specs.Views.{sign_and_size, value_of};

    /// The three characters of its formatter.
    pub fn formatter(&self) -> &'static [u8]
        ensures formatter { result.now ≡ self.now.row.formatter }
        ensures known { row_named result.now ≡ Some self.now.row }
    {
        self.row.formatter
    }

    /// The values that a table has of it, in their order.
    pub fn columns(&self) -> &'static [Column]
        ensures { result.now ≡ self.now.row.columns }
    {
        self.row.columns
    }

    /// What its field at this index says, counted from 0. None where the field is empty.
    pub fn value(&self, index: usize) -> Option<Value<'a>>
        ensures { option_map value_of result ≡ value_at self.now.values index }
    {
        match self.values.as_slice().get(index) {
            Some(value) => *value,
            None => None,
        }
    }

    /// The number that its field at this index says, counted from 0. None where the field is empty, or is no number.
    pub fn number(&self, index: usize) -> Option<Num>
        ensures { option_map sign_and_size result ≡ number_in (value_at self.now.values index) }
    {
        match self.value(index) {
            Some(Value::Number(number)) => Some(number),
            _ => None,
        }
    }

    /// The number that the digits of its field at this index write, counted from 0. None where the field is empty, or has another form.
    pub fn digits(&self, index: usize) -> Option<u32>
        ensures digits { result ≡ digits_in (value_at self.now.values index) }
        ensures within { IfSome result (λ n. suits (form_at self.now.row index) (value.Digits n) ≡ true) }
    {
        let _ = &self.row;
        match self.value(index) {
            Some(Value::Digits(number)) => Some(number),
            _ => None,
        }
    }

    /// The letter of its field at this index, counted from 0. None where the field is empty, or has another form.
    pub fn letter(&self, index: usize) -> Option<u8>
        ensures { result ≡ letter_in (value_at self.now.values index) }
    {
        match self.value(index) {
            Some(Value::Letter(letter)) => Some(letter),
            _ => None,
        }
    }

    /// The bytes of its field at this index, counted from 0. None where the field is empty, or has another form.
    pub fn raw(&self, index: usize) -> Option<&'a [u8]>
        ensures raw { option_copied result ≡ raw_in (value_at self.now.values index) }
        ensures short { IfSome result (λ bytes. length bytes.now ≤ 76) }
    {
        let _ = &self.row;
        match self.value(index) {
            Some(Value::Raw(bytes)) => Some(bytes),
            _ => None,
        }
    }
}
