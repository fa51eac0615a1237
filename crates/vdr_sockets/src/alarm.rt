// The word that a recording is to end.
//
// Once a medium can't be written or synced the ports and the link end, so that the process ends with status 5. A read
// that fails is no reason: it ends one play. So they end where an operator has asked for it, and then the run is closed.
use std::sync::atomic::{AtomicU64, Ordering};

/// Whether a medium could not be written or synced, or an operator has asked that the recording ends. It never goes back. Where a
/// recording has it, its ports and its link end then, and so does the recording.
#[derive(Drop)]
pub struct Alarm {
    // 0 before.
    word: AtomicU64,
}

impl Alarm {
    /// The recording goes on.
    pub fn new() -> Alarm {
        Alarm {
            word: AtomicU64::new(0),
        }
    }

    /// The recording is to end.
    pub fn raise(&self) {
        self.word.store(1, Ordering::SeqCst);
    }

    /// Whether the recording is to end.
    pub fn is_raised(&self) -> bool {
        self.word.load(Ordering::SeqCst) != 0
    }
}
