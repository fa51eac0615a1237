// How an order ended that was not done.
use crate::Told;

/// Why an order was not done, or its reply not told.
#[derive(Clone, Copy, Drop)]
pub enum Ended {
    /// The words ask for no line: there is none, or one has the end of a line in it.
    NoWords,
    /// No recorder listens on this host, or it hung up before its reply was whole.
    NoLink,
    /// The output failed.
    Output,
    /// There was no memory.
    NoMemory,
    /// What the recorder told.
    Told(Told),
    /// There is no such file. The status line that says why is printed.
    NoFile,
    /// Records of a play were written over before they were sent. The status line that says from which place on is printed.
    Gone,
}

impl Ended {
    /// The exit status.
    pub fn code(self) -> u8 {
        match self {
            Ended::NoWords => 2,
            Ended::NoLink => 6,
            Ended::Output => 8,
            Ended::NoMemory => 9,
            Ended::Told(told) => told.code(),
            Ended::NoFile => 14,
            Ended::Gone => 11,
        }
    }

    /// The status line, which ends the output. It is empty where it can't be printed, or was.
    pub fn line(self) -> &'static str {
        match self {
            Ended::NoWords => "status 2 words\n",
            Ended::NoLink => "status 6 link 0\n",
            Ended::Output | Ended::NoFile | Ended::Gone => "",
            Ended::NoMemory => "status 9 memory\n",
            Ended::Told(told) => told.line(),
        }
    }
}
