// What holds of runs.
ghost use Rattle.vdr_runs.specs.Laws.{RunsArePrinted};

/// What is printed of records, one after another and behind the last, is the text of their runs, a function of them alone.
pub fn law_of_runs()
    ensures { RunsArePrinted }
{}
