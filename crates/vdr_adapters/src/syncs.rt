// How long the syncs of a file took, for whoever asks. Nothing rests on it.
use std::time::Duration;

/// For so many seconds a sync counts.
const SECONDS: u64 = 60;

// The longest sync of a second, in milliseconds.
#[derive(Clone, Copy, Drop)]
struct Longest {
    second: u64,
    took: u64,
}

/// The syncs of the last minute.
#[derive(Drop)]
pub(crate) struct SyncTimes {
    // By the second of the clock in which they ended, modulo 60. None where there was none.
    longest: [Option<Longest>; 60],
}

impl SyncTimes {
    /// There was none.
    pub(crate) fn new() -> SyncTimes {
        SyncTimes {
            longest: [None; 60],
        }
    }

    /// A sync began and ended at these readings of the monotonic clock.
    pub(crate) fn note(&mut self, began: Duration, ended: Duration) {
        let second = ended.as_secs();
        let elapsed = ended.saturating_sub(began).as_millis();
        let took = u64::try_from(elapsed).unwrap_or(u64::MAX);
        let place = (second % SECONDS) as usize;
        let before = match self.longest[place] {
            Some(longest) if longest.second == second => longest.took,
            _ => 0,
        };
        self.longest[place] = Some(Longest {
            second,
            took: took.max(before),
        });
    }

    /// The longest sync, in milliseconds, of those that ended in the last minute before this reading of the clock. None where none did.
    pub(crate) fn longest(&self, now: Duration) -> Option<u64> {
        let now = now.as_secs();
        let mut longest = None;
        for one in self.longest {
            if let Some(Longest { second, took }) = one
                && now.saturating_sub(second) < SECONDS
            {
                longest = Some(took.max(longest.unwrap_or(0)));
            }
        }
        longest
    }
}
