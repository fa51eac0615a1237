//! The steps of one turn.
//!
//! A thread looks two hundred times and then sleeps, so that control workers take no processor from captures. Who
//! serves wakes all sleepers, and calls only where one sleeps. A sleeper compares the low 32 bits of the number
//! served, as the system's call does.
ghost use Rattle.std.specs.Prelude.{◌≡◌, ℕ, ◌+◌, ◌-◌, ◌<◌, ◌^◌, Bool, true, false, List, [], ◌∷◌, ◌++◌, length, Option, Some, None};
ghost use Rattle.vdr_latch.specs.Steps.{drew, Enters, served};
ghost use Rattle.vdr_latch.specs.Turns.{IsInTurn};

use crate::rule::{Adding, Draw, Law, Look, Serve};
use crate::stepped::{Job, Stepped};
use crate::view::View;
use atomic_table::{Seat, Shared};
use std::hint::spin_loop;
use std::marker::Brand;
use std::sync::Wait;
use std::sync::atomic::{AtomicU64, Ordering};
use std::thread;

/// A seat at the latch: what its thread knows, and the slot while it is in turn.
pub(crate) type Place<T> = Seat<Option<T>, View<<T as Stepped>::Event>>;

/// The words of the latch and its one slot.
pub(crate) type Words<T> = Shared<Option<T>, View<<T as Stepped>::Event>, (), Law>;

/// The word with the number that is served. It is also the length of the history.
const SERVING: usize = 0;

/// The word with the next ticket.
const NEXT: usize = 1;

/// The slot with the value.
pub(crate) const VALUE: usize = 0;

/// How often a thread looks again at once: a turn that does little is over by then.
const SPINS: u32 = 100;

/// How often it looks in all before it sleeps: a turn that syncs a medium takes far longer.
const LOOKS: u32 = 200;

/// Draws the next ticket. The greatest number is no ticket: there it waits for good.
pub(crate) fn draw<T: Stepped, R: Wait>(rt: &R, words: &Words<T>, seat: &mut Place<T>) -> u64
    requires table { (seat.old.table_id ≡ words.now.table_id) × (words.now.table_id.words ≡ 2) }
    requires view { (0 < seat.old.me.0.parts) × (seat.old.me.0.ticket ≡ None) × (seat.old.me.0.in_turn ≡ false) }
    ensures table { (seat.new.table_id ≡ seat.old.table_id) × (seat.new.id ≡ seat.old.id) }
    ensures view { seat.new.me ≡ (drew result seat.old.me.0, seat.old.me.1) }
{
    for _ in rt.forever() {
        let next = words.peek(NEXT);
        if next < u64::MAX && words.compare_exchange::<Draw>(seat, NEXT, next, next + 1) == next {
            return next;
        }
        spin_loop();
    }
    unreachable!()
}

/// Waits until its ticket is served, and sleeps where that takes long. It then holds the slot, with the value in it.
pub(crate) fn enter<T: Stepped, R: Wait>(
    rt: &R,
    words: &Words<T>,
    sleepers: &AtomicU64,
    seat: &mut Place<T>,
    ticket: u64,
)
    requires table { (seat.old.table_id ≡ words.now.table_id) × (words.now.table_id.words ≡ 2) × (words.now.table_id.slots ≡ 1) }
    requires view { (0 < seat.old.me.0.parts) × (seat.old.me.0.ticket ≡ Some ticket) × (seat.old.me.0.in_turn ≡ false) }
    ensures table { (seat.new.table_id ≡ seat.old.table_id) × (seat.new.id ≡ seat.old.id) }
    ensures view { Enters T.leaves T.leading seat.old.me ticket seat.new.me }
{
    let mut looks = 0;
    for _ in rt.forever() {
        let serving = words.load::<Look>(seat, SERVING);
        if serving == ticket {
            return;
        }
        if looks < LOOKS {
            pause(looks);
            looks += 1;
        } else {
            sleep(rt, words, sleepers, serving);
        }
    }
    unreachable!()
}

/// Lets a moment pass before the next look.
fn pause(looks: u32) {
    if looks < SPINS {
        spin_loop();
    } else {
        thread::yield_now();
    }
}

/// Sleeps while this number is still served. Who serves the next then finds the sleeper, or the sleeper finds the next number.
fn sleep<T: Stepped, R: Wait>(rt: &R, words: &Words<T>, sleepers: &AtomicU64, serving: u64)
    requires { words.now.table_id.words ≡ 2 }
{
    sleepers.fetch_add(1, Ordering::SeqCst);
    words.park(rt, SERVING, (serving & 0xFFFF_FFFF) as u32);
    sleepers.fetch_sub(1, Ordering::SeqCst);
}

/// Lets the job work on the value that was taken out, and serves the next.
pub(crate) fn work<T: Stepped, J: Job<T>>(
    words: &Words<T>,
    sleepers: &AtomicU64,
    seat: &mut Place<T>,
    job: &mut J,
    mut value: T,
)
    ghost before: { J × T }
    requires before { before ≡ (job.old, value) }
    requires table { (seat.old.table_id ≡ words.now.table_id) × (words.now.table_id.words ≡ 2) }
    requires view { IsInTurn seat.old.me }
    requires asks { J.asks job.old value }
    requires leaves { T.leaves seat.old.me.0.seen value }
    requires follows { seat.old.me.0.leads ≡ false → (b : J) → (y : T) → J.relates job.old value b y → T.leading (J.event job.old value b y) ≡ false }
    ensures table { (seat.new.table_id ≡ seat.old.table_id) × (seat.new.id ≡ seat.old.id) }
    ensures view { (y : T) × J.relates job.old value job.new y × T.leaves (seat.old.me.0.seen ++ J.event job.old value job.new y ∷ []) y × (seat.new.me ≡ (served (J.event job.old value job.new y ∷ []) seat.old.me.0, [])) }
{
    job.work(&mut value);
    leave::<T, J, Brand>(words, sleepers, seat, job, value);
}

/// Puts the value back and serves the next. The job is passed for the proof: its event names it.
fn leave<T: Stepped, J: Job<T>, N: Adding<T::Event>>(
    words: &Words<T>,
    sleepers: &AtomicU64,
    seat: &mut Place<T>,
    _job: &J,
    value: T,
)
    requires table { (seat.old.table_id ≡ words.now.table_id) × (words.now.table_id.words ≡ 2) }
    requires view { IsInTurn seat.old.me }
    requires event { (e : T.Event) × (N.events ≡ e ∷ []) × T.leaves (seat.old.me.0.seen ++ e ∷ []) value × (seat.old.me.0.leads ≡ false → T.leading e ≡ false) }
    ensures table { (seat.new.table_id ≡ seat.old.table_id) × (seat.new.id ≡ seat.old.id) }
    ensures view { seat.new.me ≡ (served N.events seat.old.me.0, []) }
{
    match words.exchange(seat, VALUE, Some(value)) {
        None => {}
        Some(_) => unreachable!(),
    }
    words.fetch_add::<Serve<N>>(seat, SERVING, 1);
    if sleepers.load(Ordering::SeqCst) > 0 {
        words.wake_all(SERVING);
    }
}
