// What holds of the runs of a series.
ghost use Rattle.vdr_thin.specs.Handed.{TableHandsOutRuns};
ghost use Rattle.vdr_thin.specs.Laws.{EachExtremeIsShown, EachReadingCounts, ReadingsAreCut, RunsAreFew};

/// The readings of a series are cut into those of its runs, one run after the other. Within a run each follows the one before it: in one bucket, with a
/// stamp that does not fall and rises by no more than the longest silence, and of one validity. A run begins where that is not so. It says whether a Gap of
/// the group stands before it, or no reading, and shows its first and its last reading, and of each measure one that none is below and one that none is
/// above, in their order and each once.
pub fn law_of_silences()
    ensures { ReadingsAreCut }
{}

/// The runs of a series have together as many readings as the series.
pub fn law_of_counts()
    ensures { EachReadingCounts }
{}

/// What is shown of the runs of a series are readings of it, and of each validity and each measure the least and the greatest among them.
pub fn law_of_extremes()
    ensures { EachExtremeIsShown }
{}

/// Where no stamp falls a series has at most one run for each bucket from its first to its last reading, and one for each silence and each change of
/// validity.
pub fn law_of_bounds()
    ensures { RunsAreFew }
{}

/// Of each series a table hands out the runs of the series' own readings, in their order: as readings come, and behind the last one.
pub fn law_of_tables()
    ensures { TableHandsOutRuns }
{}
