// A flag that threads share, for tests with several threads.
use std::alloc::{AllocError, Global};
use std::sync::Arc;
use std::sync::atomic::{AtomicBool, Ordering};

/// A flag that threads share. Once it is set it stays set: of what another thread did no contract speaks.
#[derive(Drop)]
pub struct Flag {
    raised: Arc<AtomicBool, Global>,
}

impl Flag {
    /// A flag that is not set.
    pub fn new(alloc: Global) -> Result<Flag, AllocError> {
        let raised = Arc::new(alloc, AtomicBool::new(false))?;
        Ok(Flag { raised })
    }

    /// The same flag, for another thread.
    pub fn share(&self) -> Result<Flag, AllocError> {
        let raised = Arc::try_clone(&self.raised)?;
        Ok(Flag { raised })
    }

    /// Sets it.
    pub fn set(&self) {
        self.raised.store(true, Ordering::SeqCst);
    }

    /// Whether it was set.
    pub fn is_set(&self) -> bool {
        self.raised.load(Ordering::SeqCst)
    }
}
