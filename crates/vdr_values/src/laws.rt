// The law of reading: values, or a refused field, are read exactly where the table's row says so.
ghost use Rattle.std.specs.Prelude.{◌≡◌, ◌↔◌, ℕ, List, length, Option, Ok, Err, Some, None};
ghost use Rattle.vdr_sentence.specs.Addresses.{address_of};
ghost use Rattle.vdr_values.specs.Meanings.{AreRead, IsFirstBad};
ghost use Rattle.vdr_values.specs.Readings.{fields_of, reading, told};
ghost use Rattle.vdr_values.specs.Rows.{Row, forms_of};
ghost use Rattle.vdr_values.specs.Table.{row_for};
ghost use Rattle.vdr_values.specs.Values.{Value};

/// A content reads as nothing exactly where its formatter is not in the table. Else it reads as values exactly where its fields from the
/// first on say them, in the forms of the table's row, and is refused at a field exactly where this is the first that is missing or outside
/// its form.
pub fn law_of_reading()
    ensures unknown { (content : List ℕ) → (reading content ≡ Ok None) ↔ (row_for (address_of content) ≡ None) }
    ensures read { (content : List ℕ) (row : Row) (values : List (Option Value)) → row_for (address_of content) ≡ Some row
        → (reading content ≡ Ok (Some (told row values))) ↔ AreRead content (forms_of row (length (fields_of content))) values }
    ensures refused { (content : List ℕ) (row : Row) (number : ℕ) → row_for (address_of content) ≡ Some row
        → (reading content ≡ Err number) ↔ IsFirstBad content (forms_of row (length (fields_of content))) number }
{}
