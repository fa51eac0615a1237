// The oldest item of each queue, held until a batch takes it.
//
// An item counts to the second of the greatest `received` before it. With one queue emptied after another, items of
// later groups came too late for their second.
ghost use Rattle.std.specs.Prelude.{◌≡◌, ◌≤◌, ◌<◌, ◌/◌, ◌++◌, ℕ, Bool, List, [], true, IfSome, length};
ghost use Rattle.vdr_terms.specs.Rates.{Limit};
ghost use Rattle.vdr_core.specs.Taken.{Captured as CapturedTold};
ghost use Rattle.vdr_recorder.specs.Making.{least_datagram};
ghost use Rattle.vdr_run.specs.Charges.{Foretells};
ghost use Rattle.vdr_run.specs.Sizes.{FitAfter};
ghost use Rattle.vdr_session.specs.Heads.{AreHeld, IsFilled, IsNext, IsOldest, NoneHeld, received_of as received};
ghost use Rattle.vdr_session.specs.Lanes.{AreDrained, AreMet, StayJoined};

use crate::charging::{charge, is_full};
use crate::popping::{hold, take};
use std::sync::Wait;
use vdr_intake::{Captured, CapturedBuffer, Intake, Taker};
use vdr_run::Charges;

/// Holds the oldest item of each queue of which none is held. Says whether none is held then: each queue was found empty.
pub(crate) fn hold_all<R: Wait>(
    rt: &R,
    queues: &[Option<Intake>; 16],
    takers: &mut [Option<Taker>; 16],
    heads: &mut [Option<Captured>; 16],
) -> bool
    requires met { (configured : ℕ → Bool) × AreMet configured queues.now takers.old }
    ensures met { (configured : ℕ → Bool) → AreMet configured queues.now takers.old → AreMet configured queues.now takers.new }
    ensures held { (items : List CapturedTold) → AreHeld items heads.old takers.old → AreHeld items heads.new takers.new }
    ensures joined { StayJoined takers.old takers.new }
    ensures none { result ≡ true → NoneHeld heads.new × AreDrained takers.new }
    ensures sixteen { (length takers.new ≡ 16) × (length heads.new ≡ 16) }
{
    let mut none = true;
    for group in 0..16 {
        none &= hold(rt, &queues[group], &mut takers[group], &mut heads[group]);
    }
    none
}

// No item is received so late, in milliseconds since capture began.
const NEVER: u64 = 1 << 48;

// When the held item was received.
fn received_of(head: &Option<Captured>) -> u64
    ensures { result ≡ received head.now }
{
    match head {
        Some(item) => item.received,
        None => NEVER,
    }
}

// The group whose held item was received first, the first of them where several were.
fn oldest(heads: &[Option<Captured>; 16]) -> usize
    ensures { IsOldest heads.now result }
{
    let mut oldest = 0;
    for group in 1..16 {
        if received_of(&heads[group]) < received_of(&heads[oldest]) {
            oldest = group;
        }
    }
    oldest
}

// The group whose held item the batch takes next, and how many bytes its records take: they are charged. None where the batch is full, nothing
// is held, or the records don't fit so many bytes.
fn next_of(
    heads: &[Option<Captured>; 16],
    items: &CapturedBuffer,
    charges: &mut Charges,
    room: usize,
    left: usize,
) -> Option<(usize, usize)>
    ensures next { IfSome result (λ next. IsOldest heads.now next.0 × (length items.now.items < room / least_datagram)) }
    ensures charges { (limits : ℕ → Limit) (popped : List CapturedTold) → Foretells limits popped charges.old
        → IsNext limits popped heads.now left (room / least_datagram ≤ length items.now.items) charges.new result }
{
    let group = oldest(heads);
    if is_full(items, room) {
        return None;
    }
    let Some(size) = charge(&heads[group], charges, left) else {
        return None;
    };
    Some((group, size))
}

/// Takes what is held and queued into an empty batch, in the order in which it was received, as far as its records fit so many
/// bytes. An item that doesn't fit is held for the next batch.
pub(crate) fn fill<R: Wait>(
    rt: &R,
    queues: &[Option<Intake>; 16],
    takers: &mut [Option<Taker>; 16],
    heads: &mut [Option<Captured>; 16],
    items: &mut CapturedBuffer,
    charges: &mut Charges,
    room: usize,
)
    requires met { (configured : ℕ → Bool) × AreMet configured queues.now takers.old }
    requires empty { items.old.items ≡ [] }
    requires space { room / least_datagram ≤ items.old.capacity }
    requires foretells { (limits : ℕ → Limit) × (popped : List CapturedTold) × Foretells limits popped charges.old }
    ensures met { (configured : ℕ → Bool) → AreMet configured queues.now takers.old → AreMet configured queues.now takers.new }
    ensures held { (before : List CapturedTold) → AreHeld before heads.old takers.old → AreHeld (before ++ items.new.items) heads.new takers.new }
    ensures joined { StayJoined takers.old takers.new }
    ensures foretells { (limits : ℕ → Limit) (popped : List CapturedTold) → Foretells limits popped charges.old → Foretells limits (popped ++ items.new.items) charges.new }
    ensures fits { (limits : ℕ → Limit) (popped : List CapturedTold) → Foretells limits popped charges.old → FitAfter limits popped items.new.items room }
    ensures full { (limits : ℕ → Limit) (popped : List CapturedTold) → Foretells limits popped charges.old → IsFilled limits popped items.new.items heads.new room }
    ensures space { room / least_datagram ≤ items.new.capacity }
    ensures sixteen { (length takers.new ≡ 16) × (length heads.new ≡ 16) }
{
    let mut left = room;
    loop {
        let Some((group, size)) = next_of(heads, items, charges, room, left) else {
            return;
        };
        left -= size;
        take(
            rt,
            &queues[group],
            &mut takers[group],
            &mut heads[group],
            items,
        );
    }
}
