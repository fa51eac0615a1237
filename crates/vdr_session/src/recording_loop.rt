// The recorder's loop.
ghost use Rattle.std.specs.Prelude.{◌≡◌, ◌≤◌, ◌<◌, ◌/◌, ◌++◌, ℕ, List, [], true, false, length};
ghost use mathlib.Core.List.{IsPrefix};
ghost use Rattle.vdr_core.specs.Taken.{Captured as CapturedTold};
ghost use Rattle.vdr_durability.specs.Commits.{largest_item};
ghost use Rattle.vdr_recorder.specs.Making.{least_datagram};
ghost use Rattle.vdr_run.specs.Charges.{Foretells};
ghost use Rattle.vdr_session.specs.declared.mark.Mark.{Mark as Marked};
ghost use Rattle.vdr_session.specs.Lanes.{AreDrained, AreMet, ArePopped, StayJoined};
ghost use Rattle.vdr_session.specs.Marks.{is_begun, is_leading, has_fault, taken_in};

use crate::batch::Batch;
use crate::done::Done;
use crate::heads::{fill, hold_all};
use crate::making::none;
use crate::mark::Mark;
use crate::records::Records;
use std::sync::Wait;
use vdr_intake::{Intake, Taker};
use vdr_latch::{Latch, LatchPass};

/// Pops what is queued and takes it into the run, a batch in each turn at the latch. It ends once it has read that the captures are done and
/// has then found every queue empty, or once the media have failed. Says whether they still work.
///
/// Of each queue the oldest item is held, and the one that was received first goes to the batch, so that all groups are recorded in the
/// order in which they were received. A round that found nothing is followed by a short sleep.
pub(crate) fn record_queued<T: Records, R: Wait>(
    rt: &R,
    latch: &Latch<T>,
    pass: &mut LatchPass<Mark>,
    queues: &[Option<Intake>; 16],
    takers: &mut [Option<Taker>; 16],
    batch: &mut Batch,
    room: usize,
    done: &Done,
) -> bool
    requires latch { pass.old.latch ≡ latch.now }
    requires leads { (pass.old.leads ≡ true) × (is_begun pass.old.own ≡ true) }
    requires marks { (m : Marked) → T.leading m ≡ is_leading m }
    requires takes { (history : List Marked) (x : T) → T.leaves history x → is_begun history ≡ true → T.takes (taken_in history) x }
    requires met { AreMet T.configured queues.now takers.old }
    requires popped { ArePopped (taken_in pass.old.own) takers.old }
    requires room { (largest_item ≤ room) × (room ≤ T.room) × (room / least_datagram ≤ batch.old.items.capacity) }
    requires empty { batch.old.items.items ≡ [] }
    requires foretells { Foretells T.limits (taken_in pass.old.own) batch.old.charges }
    ensures pass { (pass.new.latch ≡ pass.old.latch) × (pass.new.parts ≡ pass.old.parts) × (pass.new.leads ≡ true) × (is_begun pass.new.own ≡ true) }
    ensures seen { IsPrefix pass.old.seen pass.new.seen }
    ensures met { AreMet T.configured queues.now takers.new }
    ensures popped { (lost : List CapturedTold) × ArePopped (taken_in pass.new.own ++ lost) takers.new × (result ≡ true → lost ≡ []) }
    ensures joined { StayJoined takers.old takers.new }
    ensures fails { result ≡ false → has_fault pass.new.seen ≡ true }
    ensures drained { result ≡ true → AreDrained takers.new }
    ensures sixteen { length takers.new ≡ 16 }
    ensures room { room / least_datagram ≤ batch.new.items.capacity }
    ensures empty { batch.new.items.items ≡ [] }
    ensures foretells { result ≡ true → Foretells T.limits (taken_in pass.new.own) batch.new.charges }
{
    let mut heads = none();
    for _ in rt.forever() {
        let last = done.is_set();
        if hold_all(rt, queues, takers, &mut heads) {
            if last {
                return true;
            }
            done.sleep(rt);
        } else {
            fill(
                rt,
                queues,
                takers,
                &mut heads,
                &mut batch.items,
                &mut batch.charges,
                room,
            );
            latch.turn::<Batch, R>(rt, pass, batch);
            batch.items.clear();
            if !batch.works {
                return false;
            }
        }
    }
    unreachable!()
}
