// A row of the table.
ghost use Rattle.std.specs.Prelude.{◌≡◌, ◌∷◌, ◌++◌, [], OnOk, flat_map, option_map};
ghost use Rattle.std.specs.Io.KnownBytes.{Appends};
ghost use Rattle.vdr_outside.specs.Causes.{HasCause};
ghost use Rattle.vdr_outside.specs.Writes.{AppendsFront};
ghost use Rattle.vdr_rows.specs.Parts.{front_text, given_text, middle_text, rest_text};
ghost use Rattle.vdr_rows.specs.Texts.{number_text, row_text, valid_text};
ghost use Rattle.vdr_rows.specs.Views.{heading_said, said_of};

use crate::decimal::{Decimal, decimal_text};
use crate::heading::Heading;
use crate::pieces::print_pieces;
use crate::quoted::print_quoted;
use crate::said::Said;
use arrayvec::ArrayVec;
use vdr_outside::{Failed, Sink, write_all};

fn number_of(number: Option<Decimal>) -> ArrayVec<u8, 32>
    ensures { result.items ≡ number_text number }
{
    match number {
        Some(number) => decimal_text(number),
        None => ArrayVec::new(),
    }
}

fn valid_of(valid: Option<bool>) -> &'static [u8]
    ensures { result.now ≡ valid_text valid }
{
    match valid {
        Some(true) => b"1",
        Some(false) => b"0",
        None => b"",
    }
}

// Prints the fields before the source.
fn print_front<O: Sink>(heading: &Heading<'_>, out: &mut O) -> Result<(), Failed>
    ensures all { OnOk result (Appends (O.taken out.old) (O.taken out.new) (front_text (heading_said heading.now))) }
    ensures front { AppendsFront (O.taken out.old) (O.taken out.new) (front_text (heading_said heading.now)) }
    ensures cause { HasCause (O.faults out.old) (O.faults out.new) result }
{
    write_all(out, heading.front.as_slice())
}

// Prints the fields between the source and the text.
fn print_six<O: Sink>(
    sentence: &[u8],
    item: &[u8],
    name: &[u8],
    number: &[u8],
    measure: &[u8],
    valid: &[u8],
    out: &mut O,
) -> Result<(), Failed>
    ensures all { OnOk result (Appends (O.taken out.old) (O.taken out.new)
        (44 ∷ (sentence.now ++ 44 ∷ (item.now ++ 44 ∷ (name.now ++ 44 ∷ (number.now ++ 44 ∷ (measure.now ++ 44 ∷ (valid.now ++ 44 ∷ [])))))))) }
    ensures front { AppendsFront (O.taken out.old) (O.taken out.new)
        (44 ∷ (sentence.now ++ 44 ∷ (item.now ++ 44 ∷ (name.now ++ 44 ∷ (number.now ++ 44 ∷ (measure.now ++ 44 ∷ (valid.now ++ 44 ∷ []))))))) }
    ensures cause { HasCause (O.faults out.old) (O.faults out.new) result }
{
    print_pieces(
        &[
            b",", sentence, b",", item, b",", name, b",", number, b",", measure, b",", valid, b",",
        ],
        out,
    )
}

fn print_middle<O: Sink>(heading: &Heading<'_>, said: &Said<'_>, out: &mut O) -> Result<(), Failed>
    ensures all { OnOk result (Appends (O.taken out.old) (O.taken out.new) (middle_text (heading_said heading.now) (said_of said.now))) }
    ensures front { AppendsFront (O.taken out.old) (O.taken out.new) (middle_text (heading_said heading.now) (said_of said.now)) }
    ensures cause { HasCause (O.faults out.old) (O.faults out.new) result }
{
    let number = number_of(said.number);
    print_six(
        heading.sentence,
        said.item,
        said.name,
        number.as_slice(),
        said.measure,
        valid_of(said.valid),
        out,
    )
}

// Prints the fields behind the source, and LF.
fn print_rest<O: Sink>(heading: &Heading<'_>, said: &Said<'_>, out: &mut O) -> Result<(), Failed>
    ensures all { OnOk result (Appends (O.taken out.old) (O.taken out.new) (rest_text (heading_said heading.now) (said_of said.now))) }
    ensures front { AppendsFront (O.taken out.old) (O.taken out.new) (rest_text (heading_said heading.now) (said_of said.now)) }
    ensures cause { HasCause (O.faults out.old) (O.faults out.new) result }
{
    print_middle(heading, said, out)?;
    print_quoted(said.words, out)?;
    write_all(out, b"\n")
}

/// Prints a row, with its LF.
pub(crate) fn print_row<O: Sink>(
    heading: &Heading<'_>,
    said: &Said<'_>,
    out: &mut O,
) -> Result<(), Failed>
    ensures all { OnOk result (Appends (O.taken out.old) (O.taken out.new) (row_text (heading_said heading.now) (said_of said.now))) }
    ensures front { AppendsFront (O.taken out.old) (O.taken out.new) (row_text (heading_said heading.now) (said_of said.now)) }
    ensures cause { HasCause (O.faults out.old) (O.faults out.new) result }
{
    print_front(heading, out)?;
    print_quoted(heading.source, out)?;
    print_rest(heading, said, out)
}

/// Prints the row of a value, where there is one.
pub(crate) fn print_given<O: Sink>(
    heading: &Heading<'_>,
    said: &Option<Said<'_>>,
    out: &mut O,
) -> Result<(), Failed>
    ensures all { OnOk result (Appends (O.taken out.old) (O.taken out.new) (given_text (heading_said heading.now) (option_map said_of said.now))) }
    ensures front { AppendsFront (O.taken out.old) (O.taken out.new) (given_text (heading_said heading.now) (option_map said_of said.now)) }
    ensures cause { HasCause (O.faults out.old) (O.faults out.new) result }
{
    match said {
        Some(said) => print_row(heading, said, out),
        None => Ok(()),
    }
}

/// Prints the rows of the values that are there.
pub(crate) fn print_values<O: Sink>(
    heading: &Heading<'_>,
    values: &[Option<Said<'_>>],
    out: &mut O,
) -> Result<(), Failed>
    ensures all { OnOk result (Appends (O.taken out.old) (O.taken out.new) (flat_map (λ s. given_text (heading_said heading.now) (option_map said_of s)) values.now)) }
    ensures front { AppendsFront (O.taken out.old) (O.taken out.new) (flat_map (λ s. given_text (heading_said heading.now) (option_map said_of s)) values.now) }
    ensures cause { HasCause (O.faults out.old) (O.faults out.new) result }
{
    for said in values {
        print_given(heading, said, out)?;
    }
    Ok(())
}
