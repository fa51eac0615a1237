// What holds of the table of values.
ghost use Rattle.vdr_rows.specs.Laws.{DegreesAreNear, FieldsAreEleven, RowsAreTold, TableIsPrinted};

/// What is printed of records, one after another and behind the last, is their table, a function of them alone.
pub fn law_of_table()
    ensures { TableIsPrinted }
{}

/// The degrees of a position differ from the minutes of its field by at most half of the last of eight places, and where they differ by that they
/// are the greater ones. A decimal number reads back from its text, so printed degrees give the same ten-thousandth of a minute.
pub fn law_of_decimal_places()
    ensures { DegreesAreNear }
{}

/// Each row is one of a record, by its stamp and its place, in the order of the records; and the rows of a Gap count together what it missed.
pub fn law_of_rows()
    ensures { RowsAreTold }
{}

/// Each row of each record has ten commas outside of quotes, leaves no quote open, and has no control character but the LF at its end, whatever
/// bytes were recorded.
pub fn law_of_fields()
    ensures { FieldsAreEleven }
{}
