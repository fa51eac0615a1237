// The rows of what a sentence says.
ghost use Rattle.std.specs.Prelude.{◌≡◌, [], IsTrue, OnOk, flat_map, option_map};
ghost use Rattle.std.specs.Io.KnownBytes.{Appends};
ghost use Rattle.vdr_outside.specs.Causes.{HasCause};
ghost use Rattle.vdr_outside.specs.Writes.{AppendsFront};
ghost use Rattle.vdr_values.specs.Readings.{reading};
ghost use Rattle.vdr_values.specs.declared.column.Column.{Column as AColumn};
ghost use Rattle.vdr_rows.specs.Parts.{given_text};
ghost use Rattle.vdr_rows.specs.Tables.{rows_of};
ghost use Rattle.vdr_rows.specs.Texts.{rows_text};
ghost use Rattle.vdr_rows.specs.Told.{told_text};
ghost use Rattle.vdr_rows.specs.Values.{Fields, is_clock, said_as, said_by, values_of, values_where, words_in};
ghost use Rattle.vdr_rows.specs.Views.{heading_said, said_of};

use crate::decimal::Decimal;
use crate::heading::Heading;
use crate::item::{item_or, told_by};
use crate::measure::{unit_of, valid_by};
use crate::names::quantity_text;
use crate::number::number_in;
use crate::row::print_given;
use crate::said::Said;
use crate::words::words_in;
use vdr_outside::{Failed, Sink};
use vdr_sentence::Sentence;
use vdr_values::{Column, Item, Reading, Words, read_value};

pub(crate) fn is_clock(words: Words) -> bool
    ensures { result ≡ is_clock words }
{
    match words {
        Words::Silent | Words::Of(_) => false,
        Words::Clock(_, _, _) => true,
    }
}

// No text stands beside its values.
fn is_silent(words: Words) -> bool
    ensures { (values : Fields) (c : AColumn) → IsTrue result → words_in values c words ≡ [] }
{
    matches!(words, Words::Silent)
}

// No field says which of several it is.
fn is_untold(item: Item) -> bool
    ensures { (values : Fields) → IsTrue result → told_text values item ≡ [] }
{
    matches!(item, Item::Single | Item::Named(_))
}

// The value of a column with this number, what fields say of which of several it is, and the text beside it.
fn said_as<'a>(
    reading: &Reading<'_>,
    column: &Column,
    number: Option<Decimal>,
    told: &'a [u8],
    words: &'a [u8],
) -> Said<'a>
    requires told { told.now ≡ told_text reading.now.values column.now.item }
    requires words { words.now ≡ words_in reading.now.values column.now column.now.words }
    ensures { said_of result ≡ said_as reading.now.values column.now number }
{
    Said {
        item: item_or(column.item, told),
        name: quantity_text(column.quantity),
        number,
        measure: unit_of(reading, column.measure),
        valid: valid_by(reading, column.valid),
        words,
    }
}

// The value of a column, a clock where it is whole, another where its number is there.
fn said_by<'a>(
    reading: &Reading<'_>,
    column: &Column,
    told: &'a [u8],
    words: &'a [u8],
) -> Option<Said<'a>>
    requires told { told.now ≡ told_text reading.now.values column.now.item }
    requires words { words.now ≡ words_in reading.now.values column.now column.now.words }
    ensures { option_map said_of result ≡ said_by reading.now.values column.now }
{
    if is_clock(column.words) {
        if words.is_empty() {
            return None;
        }
        return Some(said_as(reading, column, None, told, words));
    }
    let number = number_in(reading, column)?;
    Some(said_as(reading, column, Some(number), told, words))
}

// Prints the row of a column's value, where there is one, by what fields say of which of several it is, and by the text beside it.
fn print_told<O: Sink>(
    heading: &Heading<'_>,
    reading: &Reading<'_>,
    column: &Column,
    told: &[u8],
    words: &[u8],
    out: &mut O,
) -> Result<(), Failed>
    requires told { told.now ≡ told_text reading.now.values column.now.item }
    requires words { words.now ≡ words_in reading.now.values column.now column.now.words }
    ensures all { OnOk result (Appends (O.taken out.old) (O.taken out.new) (given_text (heading_said heading.now) (said_by reading.now.values column.now))) }
    ensures front { AppendsFront (O.taken out.old) (O.taken out.new) (given_text (heading_said heading.now) (said_by reading.now.values column.now)) }
    ensures cause { HasCause (O.faults out.old) (O.faults out.new) result }
{
    let said = said_by(reading, column, told, words);
    print_given(heading, &said, out)
}

// The same, by what fields say of which of several it is. Most columns have no text, and take no room for one.
fn print_beside<O: Sink>(
    heading: &Heading<'_>,
    reading: &Reading<'_>,
    column: &Column,
    told: &[u8],
    out: &mut O,
) -> Result<(), Failed>
    requires told { told.now ≡ told_text reading.now.values column.now.item }
    ensures all { OnOk result (Appends (O.taken out.old) (O.taken out.new) (given_text (heading_said heading.now) (said_by reading.now.values column.now))) }
    ensures front { AppendsFront (O.taken out.old) (O.taken out.new) (given_text (heading_said heading.now) (said_by reading.now.values column.now)) }
    ensures cause { HasCause (O.faults out.old) (O.faults out.new) result }
{
    if is_silent(column.words) {
        return print_told(heading, reading, column, told, b"", out);
    }
    let words = words_in(reading, column);
    print_told(heading, reading, column, told, words.as_slice(), out)
}

// Prints the row of a column's value, where there is one.
fn print_column<O: Sink>(
    heading: &Heading<'_>,
    reading: &Reading<'_>,
    column: &Column,
    out: &mut O,
) -> Result<(), Failed>
    ensures all { OnOk result (Appends (O.taken out.old) (O.taken out.new) (given_text (heading_said heading.now) (said_by reading.now.values column.now))) }
    ensures front { AppendsFront (O.taken out.old) (O.taken out.new) (given_text (heading_said heading.now) (said_by reading.now.values column.now)) }
    ensures cause { HasCause (O.faults out.old) (O.faults out.new) result }
{
    if is_untold(column.item) {
        return print_beside(heading, reading, column, b"", out);
    }
    let told = told_by(reading, column.item);
    print_beside(heading, reading, column, told.as_slice(), out)
}

fn print_columns<O: Sink>(
    heading: &Heading<'_>,
    reading: &Reading<'_>,
    columns: &[Column],
    out: &mut O,
) -> Result<(), Failed>
    ensures all { OnOk result (Appends (O.taken out.old) (O.taken out.new) (flat_map (λ c. given_text (heading_said heading.now) (said_by reading.now.values c)) columns.now)) }
    ensures front { AppendsFront (O.taken out.old) (O.taken out.new) (flat_map (λ c. given_text (heading_said heading.now) (said_by reading.now.values c)) columns.now) }
    ensures cause { HasCause (O.faults out.old) (O.faults out.new) result }
{
    for column in columns {
        print_column(heading, reading, column, out)?;
    }
    Ok(())
}

fn print_reading<O: Sink>(
    heading: &Heading<'_>,
    reading: &Reading<'_>,
    out: &mut O,
) -> Result<(), Failed>
    ensures all { OnOk result (Appends (O.taken out.old) (O.taken out.new) (rows_text (rows_of (heading_said heading.now) (values_of reading.now)))) }
    ensures front { AppendsFront (O.taken out.old) (O.taken out.new) (rows_text (rows_of (heading_said heading.now) (values_of reading.now))) }
    ensures cause { HasCause (O.faults out.old) (O.faults out.new) result }
{
    print_columns(heading, reading, reading.columns(), out)
}

/// Prints the rows of the values that a sentence says. One without a reading has none.
pub(crate) fn print_sentence<O: Sink>(
    heading: &Heading<'_>,
    sentence: &Sentence<'_>,
    out: &mut O,
) -> Result<(), Failed>
    ensures all { OnOk result (Appends (O.taken out.old) (O.taken out.new) (rows_text (rows_of (heading_said heading.now) (values_where (reading sentence.now.content.now))))) }
    ensures front { AppendsFront (O.taken out.old) (O.taken out.new) (rows_text (rows_of (heading_said heading.now) (values_where (reading sentence.now.content.now)))) }
    ensures cause { HasCause (O.faults out.old) (O.faults out.new) result }
{
    match &read_value(sentence) {
        Ok(Some(reading)) => print_reading(heading, reading, out),
        Ok(None) | Err(_) => Ok(()),
    }
}
