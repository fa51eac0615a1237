// Whether the captures are done.
//
// The loop sleeps on the word that says that captures are done, for a millisecond at most, so that it needs no clock
// and wakes at once where they end.
use std::sync::Wait;
use std::sync::atomic::{AtomicU64, Ordering};
use std::time::Duration;

/// How long the recorder's loop sleeps where it found nothing, in milliseconds.
const NAP: u64 = 1;

/// Whether the captures are done. It never goes back.
#[derive(Drop)]
pub(crate) struct Done {
    // 0 while they run.
    word: AtomicU64,
}

impl Done {
    /// The captures run, or are about to.
    pub fn new() -> Done {
        Done {
            word: AtomicU64::new(0),
        }
    }

    /// The captures are done. Whoever sleeps until then wakes.
    pub fn set(&self) {
        self.word.store(1, Ordering::SeqCst);
        self.word.wake_all();
    }

    pub fn is_set(&self) -> bool {
        self.word.load(Ordering::SeqCst) != 0
    }

    /// Sleeps for a millisecond at most, and not past the end of the captures.
    pub fn sleep<R: Wait>(&self, rt: &R) {
        self.word.park_timeout(rt, 0, Duration::from_millis(NAP));
    }
}
