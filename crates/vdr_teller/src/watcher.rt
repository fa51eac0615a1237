// What heartbeats and alarms of the equipment show.
ghost use Rattle.std.specs.Prelude.{◌≡◌, []};
ghost use Rattle.vdr_watch.specs.Kept.{kept_of};

use std::alloc::{AllocError, Global};
use vdr_entry::Record;
use vdr_outside::Sink;
use vdr_visit::{Visitor, VisitorRefused};
use vdr_watch::{Watch, WatchFault};

/// Prints what records show of the equipment, and behind the last what their end shows.
#[derive(Drop)]
pub struct Watcher {
    watch: Watch,
}

impl Watcher {
    /// A watcher of no record.
    pub fn new(alloc: Global) -> Watcher
        ensures { result.watch ≡ kept_of [] }
    {
        Watcher {
            watch: Watch::new(alloc),
        }
    }
}

impl Visitor for Watcher {
    ghost use Rattle.std.specs.Prelude.{◌≡◌, ⊤};
    ghost use Rattle.vdr_watch.specs.Kept.{kept_of};
    ghost use Rattle.vdr_watch.specs.Supervision.{met_in};
    ghost use Rattle.vdr_watch.specs.Texts.{closing_text, record_text};

    /// There was no memory for one more source or alarm.
    type Reason = AllocError;

    ghost has = { λ _ seen now. now.watch ≡ kept_of seen };

    ghost line = { λ _ seen item. record_text (met_in seen) item };

    ghost last = { λ _ seen. closing_text seen };

    ghost stops = { λ _ _ _. ⊤ };

    fn visit<O: Sink>(
        &mut self,
        item: &Record,
        out: &mut O,
    ) -> Result<(), VisitorRefused<AllocError>> {
        match self.watch.add(item, out) {
            Ok(()) => Ok(()),
            Err(WatchFault::NoMemory) => Err(VisitorRefused::Own(AllocError)),
            Err(WatchFault::Output) => Err(VisitorRefused::Output),
        }
    }

    fn finish<O: Sink>(&mut self, out: &mut O) -> Result<(), VisitorRefused<AllocError>> {
        match self.watch.finish(out) {
            Ok(()) => Ok(()),
            Err(_) => Err(VisitorRefused::Output),
        }
    }
}
