// When each transmission group was last heard, for whoever asks.
//
// The captures write it and the operator's orders read it, from threads of their own. Nothing rests on it.
use std::sync::atomic::{AtomicU64, Ordering};
use std::time::Duration;

/// When the last datagram of each transmission group came.
#[derive(Drop)]
pub struct LastHeard {
    /// The reading of the monotonic clock as capture began.
    pub began: Duration,
    // Milliseconds since capture began, and one; 0 before the first.
    at: [AtomicU64; 16],
}

impl LastHeard {
    /// None was heard yet. `began` is the reading of the monotonic clock as capture began.
    pub fn new(began: Duration) -> LastHeard {
        LastHeard {
            began,
            at: [
                AtomicU64::new(0),
                AtomicU64::new(0),
                AtomicU64::new(0),
                AtomicU64::new(0),
                AtomicU64::new(0),
                AtomicU64::new(0),
                AtomicU64::new(0),
                AtomicU64::new(0),
                AtomicU64::new(0),
                AtomicU64::new(0),
                AtomicU64::new(0),
                AtomicU64::new(0),
                AtomicU64::new(0),
                AtomicU64::new(0),
                AtomicU64::new(0),
                AtomicU64::new(0),
            ],
        }
    }

    /// A datagram of the group came, so many milliseconds after capture began. A number that is none of a group's is passed over.
    pub fn note(&self, group: u16, received: u64) {
        if let Some(word) = self.at.get(usize::from(group)) {
            word.store(received.saturating_add(1), Ordering::SeqCst);
        }
    }

    /// How many milliseconds before this reading of the clock the last one of the group came. None where none came yet.
    pub fn ago(&self, group: u8, now: Duration) -> Option<u64> {
        let word = self.at.get(usize::from(group))?;
        let last = word.load(Ordering::SeqCst).checked_sub(1)?;
        let since = now.saturating_sub(self.began).as_millis();
        let since = u64::try_from(since).unwrap_or(u64::MAX);
        Some(since.saturating_sub(last))
    }
}
