// Whether a group that was heard is silent, and what of that is to be told.
ghost use Rattle.std.specs.Prelude.{◌≡◌, false, Some, None};
ghost use Rattle.vdr_sockets.specs.Silences.{is_silent};

/// After how many milliseconds without a datagram a group counts as silent.
const SILENCE: u64 = 10_000;

/// What was heard of a port, and whether its silence was told.
#[derive(Drop)]
pub(crate) struct Silence {
    // When its last datagram came, in milliseconds since capture began.
    last: Option<u64>,
    is_told: bool,
}

impl Silence {
    /// Nothing was heard yet, which is no silence.
    pub(crate) fn new() -> Silence
        ensures { (result.last ≡ None) × (result.is_told ≡ false) }
    {
        Silence {
            last: None,
            is_told: false,
        }
    }

    /// A datagram came. Whether it ends a silence that was told.
    pub(crate) fn ends(&mut self, now: u64) -> bool
        ensures told { result ≡ self.old.is_told }
        ensures heard { (self.new.last ≡ Some now) × (self.new.is_told ≡ false) }
    {
        let was_told = self.is_told;
        self.last = Some(now);
        self.is_told = false;
        was_told
    }

    /// None came. Whether a silence of ten seconds is to be told, which it is once.
    pub(crate) fn begins(&mut self, now: u64) -> bool
        ensures due { result ≡ is_silent self.old.last self.old.is_told now }
        ensures last { self.new.last ≡ self.old.last }
    {
        let Some(last) = self.last else {
            return false;
        };
        let due = !self.is_told && now.saturating_sub(last) >= SILENCE;
        self.is_told = self.is_told || due;
        due
    }
}
