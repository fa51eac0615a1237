// What a session came to.
//
// The port that failed first in the order of groups is told, not in time: time is not seen by the contract. A lane
// without a queue has no cause, also where an earlier session left it one.
ghost use Rattle.std.specs.Prelude.{◌≡◌, ◌≢◌, ◌<◌, ℕ, List, length, true, Option, Some, None, is_some, get_or, slice_index_or, IfSome, IsNone};
ghost use Rattle.vdr_core.specs.Runs.{RunStart};
ghost use Rattle.vdr_core.specs.Taken.{Captured as CapturedTold};
ghost use Rattle.vdr_intake.specs.Ends.{QueueId, Taking};
ghost use Rattle.vdr_capture.specs.declared.lane.Cause.TheVariants.{Failed};
ghost use Rattle.vdr_run.specs.Making.{CountsItems, rest_of};
ghost use Rattle.vdr_session.specs.Feeding.{AreMissed, RestIs};
ghost use Rattle.vdr_session.specs.Sessions.{IsLeastFailed};
ghost use Rattle.vdr_session.specs.Summing.{KnowsFull, paired, summed};

use crate::making::none;
use vdr_capture::{Cause, GroupSums, Lane};
use vdr_intake::{Intake, Taker};
use vdr_recorder::Recorder;
use vdr_terms::Counts;

/// No item.
const NONE: Counts = Counts {
    full: 0,
    rate: 0,
    bad: 0,
    large: 0,
};

// What a lane with a queue missed since its last push.
fn missed<P>(lane: &Lane<P>, queue: &Option<Intake>) -> Counts
    ensures { RestIs queue.now lane.now result }
{
    match queue {
        Some(_) => lane.tally.counts(),
        None => NONE,
    }
}

/// What each port with a queue missed since its last push.
pub(crate) fn rest_of<P>(lanes: &[Lane<P>], queues: &[Option<Intake>; 16]) -> [Counts; 16]
    requires sixteen { length lanes.now ≡ 16 }
    ensures { AreMissed queues.now lanes.now (rest_of result) }
{
    let mut rest = [NONE; 16];
    for group in 0..16 {
        rest[group] = missed(&lanes[group], &queues[group]);
    }
    rest
}

// The sums of a group, by what its lane and the recorder have counted, where it has a queue.
fn sums_of<P>(
    recorder: &Recorder,
    lane: &Lane<P>,
    queue: &Option<Intake>,
    group: u8,
) -> Option<GroupSums>
    requires { group < 16 }
    ensures some { is_some result ≡ is_some queue.now }
    ensures sums { (start : RunStart) (popped : List CapturedTold) → CountsItems start popped recorder.now.maker → is_some queue.now ≡ true → result ≡ Some (summed start popped lane.now.tally group) }
{
    if queue.is_none() {
        return None;
    }
    let (recorded, rate) = recorder.recorded(group);
    let missed = lane.tally.totals();
    Some(GroupSums {
        taken: lane.tally.taken(),
        recorded,
        counts: Counts { rate, ..missed },
    })
}

/// The sums of each group with a queue, None for the others.
pub(crate) fn sums<P>(
    recorder: &Recorder,
    lanes: &[Lane<P>],
    queues: &[Option<Intake>; 16],
) -> [Option<GroupSums>; 16]
    requires sixteen { length lanes.now ≡ 16 }
    ensures some { (g : ℕ) → g < 16 → is_some (get_or result g None) ≡ is_some (get_or queues.now g None) }
    ensures each { (start : RunStart) (popped : List CapturedTold) → CountsItems start popped recorder.now.maker → (g : ℕ) (d : _) → g < 16 → is_some (get_or queues.now g None) ≡ true
        → get_or result g None ≡ Some (summed start popped (slice_index_or lanes.now g d).tally g) }
{
    let mut sums = [None; 16];
    for group in 0..16 {
        sums[group] = sums_of(recorder, &lanes[group], &queues[group], group as u8);
    }
    sums
}

/// The least group whose port failed.
pub(crate) fn failed_port<P>(lanes: &[Lane<P>]) -> Option<u8>
    requires sixteen { length lanes.now ≡ 16 }
    ensures none { IsNone result → (g : ℕ) (d : _) → g < 16 → (slice_index_or lanes.now g d).cause ≢ Some Failed }
    ensures least { IfSome result (λ g. IsLeastFailed g lanes.now) }
{
    for group in 0..16u8 {
        if lanes[usize::from(group)].cause == Some(Cause::Failed) {
            return Some(group);
        }
    }
    None
}

// A queue with its taker, where both are there.
fn pair(queue: Option<Intake>, taker: Option<Taker>) -> Option<(Intake, Taker)>
    ensures both { result ≡ paired queue taker }
    ensures full { IfSome result (λ i. KnowsFull i.1) }
{
    match (queue, taker) {
        (Some(queue), Some(taker)) => {
            let _full = taker.full();
            Some((queue, taker))
        }
        _ => None,
    }
}

/// The queues with their takers, group by group.
pub(crate) fn intakes_of(
    queues: [Option<Intake>; 16],
    takers: [Option<Taker>; 16],
) -> [Option<(Intake, Taker)>; 16]
    ensures each { (g : ℕ) → g < 16 → get_or result g None ≡ paired (get_or queues g None) (get_or takers g None) }
    ensures full { (g : ℕ) (i : QueueId × Taking) → g < 16 → get_or result g None ≡ Some i → KnowsFull i.1 }
{
    let mut queues = queues;
    let mut takers = takers;
    let mut intakes = none();
    for group in 0..16 {
        let queue = queues[group].take();
        let taker = takers[group].take();
        intakes[group] = pair(queue, taker);
    }
    intakes
}
