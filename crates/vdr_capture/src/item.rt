// One item that a port gave: it is pushed, or counted.
ghost use Rattle.std.specs.Prelude.{◌≡◌, ◌<◌, ◌≤◌, ◌+◌, ◌^◌, List, [], ◌∷◌, ◌++◌, length};
ghost use Rattle.vdr_terms.specs.declared.datagram.Verdict.TheVariants.{Yes};
ghost use Rattle.vdr_terms.specs.Records.{Item};
ghost use Rattle.vdr_terms.specs.Datagrams.{verdict};
ghost use Rattle.vdr_terms.specs.Stamps.{IsStamp};
ghost use Rattle.vdr_core.specs.Machine.{captured};
ghost use Rattle.vdr_intake.specs.Items.{Follows, most_items};
ghost use Rattle.vdr_capture.specs.Items.{HasCaptured, IsOffered};

use arrayvec::ArrayVec;
use std::sync::Wait;
use vdr_gap::Tally;
use vdr_intake::{Captured, Feeder, Intake};
use vdr_terms::{Verdict, recordable};

// The datagram as it stands in the queue: its number is that of the items pushed or counted before it.
fn as_captured(group: u8, received: u64, utc: i64, bytes: &[u8], tally: &Tally) -> Captured
    requires group { group < 16 }
    requires received { received < 2 ^ 48 }
    requires stamp { IsStamp utc }
    requires recordable { verdict bytes.now ≡ Yes }
    requires rate { tally.now.missed.rate ≡ 0 }
    ensures { result ≡ captured group (record { received = received; utc = utc; bytes = bytes.now }) tally.now }
{
    let mut kept = ArrayVec::new();
    let _ = kept.try_extend_from_slice(bytes);
    Captured {
        group,
        number: tally.taken(),
        received,
        utc,
        missed: tally.counts(),
        bytes: kept,
    }
}

// Offers the item once. Where the queue is full it is dropped and counted.
fn offer<R: Wait>(rt: &R, queue: &Intake, feeder: &mut Feeder, tally: &mut Tally, item: Captured)
    requires queue { feeder.old.queue ≡ queue.now }
    requires follows { Follows queue.now.group feeder.old.pushed item }
    requires few { item.number < most_items }
    requires steps { feeder.old.full < 2 ^ 63 }
    requires count { tally.old.taken + 1 < 2 ^ 63 }
    ensures queue { feeder.new.queue ≡ feeder.old.queue }
    ensures offered { IsOffered item feeder.old feeder.new tally.old tally.new }
{
    match queue.offer(rt, feeder, item) {
        Ok(()) => tally.pushed(),
        Err(_) => tally.full(),
    }
}

/// Pushes the datagram where it is recordable and the queue has room for it, and else counts it.
pub(crate) fn keep<R: Wait>(
    rt: &R,
    queue: &Intake,
    feeder: &mut Feeder,
    tally: &mut Tally,
    received: u64,
    utc: i64,
    bytes: &[u8],
)
    requires queue { feeder.old.queue ≡ queue.now }
    requires so_far { (given : List Item) × HasCaptured queue.now.group given feeder.old.pushed feeder.old.full tally.old × (length given < most_items) }
    requires received { received < 2 ^ 48 }
    requires stamp { IsStamp utc }
    ensures queue { feeder.new.queue ≡ feeder.old.queue }
    ensures kept { (given : List Item) → HasCaptured queue.now.group given feeder.old.pushed feeder.old.full tally.old
        → HasCaptured queue.now.group (given ++ record { received = received; utc = utc; bytes = bytes.now } ∷ []) feeder.new.pushed feeder.new.full tally.new }
{
    match recordable(bytes) {
        Verdict::Yes => {
            let item = as_captured(queue.group(), received, utc, bytes, tally);
            offer(rt, queue, feeder, tally, item);
        }
        Verdict::Bad => tally.bad(),
        Verdict::Large => tally.large(),
    }
}
