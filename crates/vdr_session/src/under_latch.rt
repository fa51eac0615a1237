// A session over a value, from the making of the latch to its close.
ghost use Rattle.std.specs.Prelude.{◌≡◌, ◌≤◌, ◌<◌, ◌/◌, ◌++◌, ◌∷◌, ◌^◌, ℕ, List, [], true, false, get_or, slice_index_or, length, None, IfOk, IfErr};
ghost use Rattle.std.specs.List.{filter};
ghost use Rattle.vdr_durability.specs.Commits.{largest_item};
ghost use Rattle.vdr_recorder.specs.Making.{least_datagram};
ghost use Rattle.vdr_run.specs.Charges.{Foretells};
ghost use Rattle.vdr_intake.specs.Items.{most_items};
ghost use Rattle.vdr_desk.specs.Answers.{IsBegun};
ghost use Rattle.vdr_session.specs.declared.mark.Mark.{Mark as Marked};
ghost use Rattle.vdr_session.specs.Marks.{is_begun, is_leading, taken_in};
ghost use Rattle.vdr_session.specs.Ran.{LaneIsReady};
ghost use Rattle.vdr_session.specs.Closed.{DesksRan, HasClosed};

use crate::batch::{Batch, Start};
use crate::mark::Mark;
use crate::records::{Began, Records};
use crate::running::run_lanes;
use std::alloc::Global;
use std::sync::Wait;
use std::thread::Threads;
use vdr_capture::Lane;
use vdr_desk::{Answers, Desk};
use vdr_intake::{Intake, Taker};
use vdr_latch::{Latch, NoMemory};
use vdr_outside::{Link, Port};

/// A value after a session, and how its run began.
#[derive(Drop)]
pub(crate) struct Closed<T> {
    pub value: T,
    pub began: Began,
}

/// Puts the value under a latch, begins the run, runs the lanes and the desks, and gives the value back. Where there is no memory for the latch the value
/// comes back at once.
pub(crate) fn under_latch<
    T: Records + Answers + Send,
    P: Port + Send,
    L: Link + Send,
    R: Threads + Wait + Sync,
>(
    rt: &R,
    alloc: Global,
    value: T,
    lanes: &mut [Lane<P>],
    desks: &mut [Desk<L, Mark>],
    turns: u64,
    queues: &[Option<Intake>; 16],
    takers: &mut [Option<Taker>; 16],
    batch: &mut Batch,
    room: usize,
) -> Result<Closed<T>, NoMemory<T>>
    requires leaves { T.leaves [] value }
    requires turns { turns ≤ most_items }
    requires desks { length desks.old < 2 ^ 32 }
    requires sixteen { length lanes.old ≡ 16 }
    requires ready { (g : ℕ) (d : _) → g < 16 → LaneIsReady T.configured g (get_or queues.now g None) (get_or takers.old g None) (slice_index_or lanes.old g d) }
    requires marks { (m : Marked) → T.leading m ≡ is_leading m }
    requires fresh { (history : List Marked) (x : T) → T.leaves history x → filter T.leading history ≡ [] → T.fresh x }
    requires takes { (history : List Marked) (x : T) → T.leaves history x → is_begun history ≡ true → T.takes (taken_in history) x }
    requires room { (largest_item ≤ room) × (room ≤ T.room) × (room / least_datagram ≤ batch.old.items.capacity) }
    requires empty { batch.old.items.items ≡ [] }
    requires foretells { Foretells T.limits [] batch.old.charges }
    ensures closed { IfOk result (λ r. (marks : List Marked) × T.leaves marks r.value × HasClosed P.Port turns T.configured queues.now takers.old takers.new lanes.old lanes.new r.began marks × DesksRan L.Link T.answers (λ i. IsBegun (T.waits i)) turns desks.old desks.new r.began marks × T.means r.began) }
    ensures refused { IfErr result (λ r. (r.value ≡ value) × (lanes.new ≡ lanes.old) × (takers.new ≡ takers.old) × (desks.new ≡ desks.old)) }
{
    let (latch, mut pass) = Latch::new(alloc, value)?;
    let mut start = Start {
        began: Began::Fault,
    };
    latch.turn::<Start, R>(rt, &mut pass, &mut start);
    match start.began {
        Began::Begun => run_lanes(
            rt, alloc, &latch, &mut pass, lanes, desks, turns, queues, takers, batch, room,
        ),
        _ => {}
    }
    Ok(Closed {
        value: latch.close(pass),
        began: start.began,
    })
}
