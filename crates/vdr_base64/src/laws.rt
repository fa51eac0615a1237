// What holds of lines of base64.
ghost use Rattle.vdr_base64.specs.Laws.{LinesArePrinted, LinesAreRead};

/// The pieces of bytes, joined, are the bytes; the base64 of the pieces, joined, is the base64 of the bytes, and decodes to them.
pub fn law_of_lines()
    ensures { LinesAreRead }
{}

/// What a printer of base64 prints of records is the lines of what its visitor prints of them.
pub fn law_of_printing()
    ensures { LinesArePrinted }
{}
