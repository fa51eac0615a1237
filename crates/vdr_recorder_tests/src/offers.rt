// A queue in one thread.
ghost use Rattle.std.specs.Prelude.{◌≡◌, ◌≤◌};
ghost use Rattle.vdr_terms.specs.Records.{total};

use arrayvec::ArrayVec;
use std::alloc::Global;
use std::sync::Wait;
use vdr_intake::{Captured, Intake};
use vdr_terms::Counts;

/// A datagram of the group NAVD, before which so many found the queue full.
pub(crate) fn item(number: u64, full: u64) -> Captured
    requires { full ≤ number }
    ensures item { (result.group ≡ 3) × (result.number ≡ number) × (total result.missed ≡ full) }
{
    let mut bytes = ArrayVec::new();
    let _ = bytes.try_extend_from_slice(b"AbCdE\0");
    Captured {
        group: 3,
        number,
        received: 0,
        utc: 0,
        missed: Counts {
            full,
            rate: 0,
            bad: 0,
            large: 0,
        },
        bytes,
    }
}

/// The numbers of two items, of which the queue has room for one: the second is handed back, and taken once the
/// first is popped. None where it is otherwise, or memory is refused.
pub(crate) fn taken_again<R: Wait>(rt: &R, alloc: Global) -> Option<(u64, u64)> {
    let Ok((queue, mut feeder, mut taker)) = Intake::new(alloc, 3, 1) else {
        return None;
    };
    let Ok(()) = queue.offer(rt, &mut feeder, item(0, 0)) else {
        return None;
    };
    let Err(second) = queue.offer(rt, &mut feeder, item(1, 0)) else {
        return None;
    };
    if feeder.full() != 1 || second.number != 1 {
        return None;
    }
    let first = queue.next(rt, &mut taker)?;
    let Ok(()) = queue.offer(rt, &mut feeder, second) else {
        return None;
    };
    let last = queue.next(rt, &mut taker)?;
    Some((first.number, last.number))
}
