// What the first pass over records finds.
ghost use Rattle.std.specs.Prelude.{◌≡◌, ◌<◌};
ghost use Rattle.vdr_page.specs.Surveys.{step_of};

/// What is known of the records of a page before its rows are printed.
#[derive(Clone, Copy, Debug, PartialEq, Eq, Drop)]
pub struct Survey {
    /// The least stamp of a Datagram or a Gap, in milliseconds since 1970. None where there is none.
    pub low: Option<u64>,
    /// The greatest one.
    pub high: Option<u64>,
    /// How many records there are.
    pub records: u64,
    /// The payloads that are neither sound nor parts of images have at most 4 MiB, so the page has them.
    pub raw: bool,
    /// The datagrams of sound have at most 16 MiB, so the page has them.
    pub sound: bool,
    /// The parts of images have at most 8 MiB, so the page has them.
    pub pictures: bool,
}

impl Survey {
    /// The length of a bucket of time, in milliseconds.
    pub(crate) fn step(&self) -> u64
        ensures step { result ≡ step_of self.now }
        ensures some { 0 < result }
    {
        match (self.low, self.high) {
            (Some(low), Some(high)) => high.saturating_sub(low) / 1500 + 1,
            _ => 1,
        }
    }
}
