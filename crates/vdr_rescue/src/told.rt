// What is told of a segment that was read.
ghost use Rattle.std.specs.Prelude.{◌≡◌};
ghost use Rattle.vdr_rescue.specs.Runs.{run_with};

use vdr_entry::Record;

/// The records that a segment gives: the place of the first, the place behind the last, and the second of the last.
#[derive(Clone, Copy, Drop)]
pub struct Run {
    pub from: u64,
    pub to: u64,
    pub second: u64,
}

impl Run {
    // The run of records with one more behind them.
    pub(crate) fn with(run: Option<Run>, item: &Record) -> Run
        ensures { result ≡ run_with run item.now }
    {
        let to = item.place + 1;
        let second = item.tick / 1000;
        match run {
            Some(Run { from, .. }) => Run { from, to, second },
            None => Run {
                from: item.place,
                to,
                second,
            },
        }
    }
}

/// What is told of a segment once it was read.
#[derive(Clone, Copy, Drop)]
pub struct Told {
    /// Where it is damaged, in bytes from the beginning of its slot. None where it is not.
    pub fault: Option<u32>,
    /// The records that it gives. None where it gives none.
    pub run: Option<Run>,
}
