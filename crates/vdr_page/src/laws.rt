// What holds of pages.
ghost use Rattle.vdr_page.specs.Laws.{BlockIsQuiet, GapRowsAddUp, GapsAreCounted, PageIsPrinted, RowsAreShown, RunRowsAddUp, StepCovers};

/// A page is its front, and then what a printer prints of its records, by what the first pass found of them.
pub fn law_of_pages()
    ensures { PageIsPrinted }
{}

/// Between the two texts of the template each byte is LF or 0x20 to 0x7E, and none is `<`, `>` or `&`, whatever was recorded.
pub fn law_of_quiet_bytes()
    ensures { BlockIsQuiet }
{}

/// 1,500 buckets of time cover the stamps of a page, and 1,500 of one millisecond less do not.
pub fn law_of_steps()
    ensures { StepCovers }
{}

/// The data block is the text of the page's rows, one after the other: rows of gaps, rows of runs, and others.
pub fn law_of_rows()
    ensures { RowsAreShown }
{}

/// Of each transmission group the rows of gaps tell together how many Gaps the records have of it, and what these miss, cause by cause: nothing of a gap
/// mark is lost by thinning, and nothing told twice.
pub fn law_of_gap_rows()
    ensures { GapRowsAddUp }
{}

/// Of each series the rows of runs are those of its readings between a Start or Stop and the next one, and count each reading once. A reading stands
/// behind as many Gaps as its group has before it.
pub fn law_of_run_rows()
    ensures runs { RunRowsAddUp }
    ensures gaps { GapsAreCounted }
{}
