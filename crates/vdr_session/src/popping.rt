// Popping the queue of one group.
ghost use Rattle.std.specs.Prelude.{◌≡◌, ◌≤◌, ◌<◌, ◌∷◌, ◌++◌, ℕ, Bool, List, [], true, None, Some, length};
ghost use Rattle.vdr_intake.specs.Items.{IsRun};
ghost use Rattle.vdr_session.specs.Heads.{Steps};
ghost use Rattle.vdr_session.specs.Lanes.{AllPopped, HasPopped, IsDrained, IsFront, IsMet, Pops, held};

use std::sync::Wait;
use vdr_intake::{Captured, CapturedBuffer, Intake, Taker};

// Adds a copy of the held item, if there is one, to a batch that has room for it.
fn push_held(batch: &mut CapturedBuffer, head: &Option<Captured>)
    requires { length batch.old.items < batch.old.capacity }
    ensures items { batch.new.items ≡ batch.old.items ++ held head.now }
    ensures capacity { batch.new.capacity ≡ batch.old.capacity }
{
    match head {
        Some(item) => batch.push_copy(item),
        None => {}
    }
}

// Pops the oldest item of the queue.
fn pop_group<R: Wait>(rt: &R, queue: &Intake, taker: &mut Taker) -> Option<Captured>
    requires queue { taker.old.queue ≡ queue.now }
    requires run { IsRun queue.now.group [] taker.old.popped }
    requires front { IsFront taker.old.popped taker.old.joined }
    ensures popped { HasPopped queue.now.group taker.old taker.new result }
    ensures empty { result ≡ None → AllPopped taker.new.popped taker.new.joined }
{
    queue.next(rt, taker)
}

// The same of the queue of group g, where there is one.
fn pop_of<R: Wait>(rt: &R, queue: &Option<Intake>, taker: &mut Option<Taker>) -> Option<Captured>
    requires met { (configured : ℕ → Bool) × (g : ℕ) × IsMet configured g queue.now taker.old }
    ensures pops { (configured : ℕ → Bool) (g : ℕ) → IsMet configured g queue.now taker.old → Pops configured g queue.now taker.old taker.new result }
    ensures empty { result ≡ None → IsDrained taker.new }
{
    match (queue, taker) {
        (Some(queue), Some(taker)) => pop_group(rt, queue, taker),
        _ => None,
    }
}

/// Holds the oldest item of the queue of group g, where none is held. Says whether none is held then: the queue was found empty.
pub(crate) fn hold<R: Wait>(
    rt: &R,
    queue: &Option<Intake>,
    taker: &mut Option<Taker>,
    head: &mut Option<Captured>,
) -> bool
    requires met { (configured : ℕ → Bool) × (g : ℕ) × IsMet configured g queue.now taker.old }
    ensures steps { (configured : ℕ → Bool) (g : ℕ) → IsMet configured g queue.now taker.old → Steps configured g queue.now taker.old taker.new head.old head.new [] }
    ensures none { result ≡ true → (head.new ≡ None) × IsDrained taker.new }
{
    if head.is_some() {
        return false;
    }
    *head = pop_of(rt, queue, taker);
    head.is_none()
}

/// Copies the item that is held of group g to the batch, and holds the next one of its queue in its place.
pub(crate) fn take<R: Wait>(
    rt: &R,
    queue: &Option<Intake>,
    taker: &mut Option<Taker>,
    head: &mut Option<Captured>,
    batch: &mut CapturedBuffer,
)
    requires met { (configured : ℕ → Bool) × (g : ℕ) × IsMet configured g queue.now taker.old }
    requires space { length batch.old.items < batch.old.capacity }
    ensures steps { (configured : ℕ → Bool) (g : ℕ) → IsMet configured g queue.now taker.old → Steps configured g queue.now taker.old taker.new head.old head.new (held head.old) }
    ensures batch { batch.new.items ≡ batch.old.items ++ held head.old }
    ensures space { batch.old.capacity ≤ batch.new.capacity }
{
    push_held(batch, head);
    *head = pop_of(rt, queue, taker);
}
