// The work on a lane: what the port gives is pushed into its queue or counted.
//
// Where a port tells nothing the contract still says that some items, no more than the takes that gave no end, were
// pushed or counted.
ghost use Rattle.std.specs.Prelude.{◌≡◌, ◌≤◌, []};
ghost use Rattle.vdr_terms.specs.Counting.{no_tally};
ghost use Rattle.vdr_outside.specs.Causes.{Rose};
ghost use Rattle.vdr_intake.specs.Items.{most_items};
ghost use Rattle.vdr_capture.specs.declared.lane.Cause.TheVariants.{Ended, Failed};
ghost use Rattle.vdr_capture.specs.Captures.{IsCapture};
ghost use Rattle.vdr_capture.specs.Lanes.{IsReady, Captures};
ghost use Rattle.vdr_capture.specs.Gives.{NothingLeft};

use crate::item::keep;
use crate::{Cause, Lane};
use arrayvec::ArrayVec;
use std::sync::Wait;
use vdr_gap::Tally;
use vdr_intake::{Feeder, Intake};
use vdr_outside::{Port, Taken};

// Takes from the port until it answers that none is left or that it failed, or so many takes were made.
fn take_all<P: Port, R: Wait>(
    rt: &R,
    port: &mut P,
    queue: &Intake,
    feeder: &mut Feeder,
    tally: &mut Tally,
    turns: u64,
) -> Cause
    requires queue { feeder.old.queue ≡ queue.now }
    requires new { (feeder.old.pushed ≡ []) × (feeder.old.full ≡ 0) × (tally.old ≡ no_tally) }
    requires turns { turns ≤ most_items }
    ensures queue { feeder.new.queue ≡ feeder.old.queue }
    ensures captured { IsCapture turns queue.now.group
        (record { standing = P.standing port.old; asked = P.asked port.old })
        (record { standing = P.standing port.new; asked = P.asked port.new })
        feeder.new tally.new result }
    ensures faults { P.faults port.old ≤ P.faults port.new }
    ensures failed { result ≡ Failed → Rose (P.faults port.old) (P.faults port.new) }
    ensures ended { result ≡ Ended → NothingLeft (P.standing port.old).left (P.standing port.new).left }
{
    let mut bytes = ArrayVec::new();
    for _turn in 0..turns {
        match port.take(&mut bytes) {
            Taken::Datagram { received, utc } => {
                keep(rt, queue, feeder, tally, received, utc, bytes.as_slice());
            }
            Taken::Quiet => {}
            Taken::Ended => return Cause::Ended,
            Taken::Failed => return Cause::Failed,
        }
    }
    Cause::Turns
}

/// Takes from the lane's port, at most so many times, until it answers that none is left or that it failed. Each item is
/// pushed into the queue once, in the port's order, or counted: as bad or large (IEC 61162-450), or as full where the queue was
/// full, by a full step of the lane's feeder.
///
/// It takes no memory, and it has neither the media nor what guards them, so that it never waits for a commit.
pub fn capture<P: Port, R: Wait>(rt: &R, lane: &mut Lane<P>, turns: u64, queue: &Intake)
    requires turns { turns ≤ most_items }
    requires ready { IsReady queue.now lane.old }
    ensures { Captures P.Port turns queue.now lane.old lane.new }
{
    let Some(mut feeder) = lane.feeder.take() else {
        unreachable!()
    };
    let cause = take_all(
        rt,
        &mut lane.port,
        queue,
        &mut feeder,
        &mut lane.tally,
        turns,
    );
    lane.feeder = Some(feeder);
    lane.cause = Some(cause);
}
