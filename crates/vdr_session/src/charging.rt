// What a batch is charged for the items that it takes.
ghost use Rattle.std.specs.Prelude.{◌≡◌, ◌≤◌, ◌/◌, ◌↔◌, ℕ, List, true, length};
ghost use Rattle.vdr_terms.specs.Rates.{Limit};
ghost use Rattle.vdr_core.specs.Taken.{Captured as CapturedTold};
ghost use Rattle.vdr_recorder.specs.Making.{least_datagram};
ghost use Rattle.vdr_run.specs.Charges.{Foretells};
ghost use Rattle.vdr_session.specs.Heads.{ChargesHeld};

use vdr_intake::{Captured, CapturedBuffer};
use vdr_recorder::{LEAST_DATAGRAM, head_of};
use vdr_run::Charges;

/// Whether a batch of so many bytes has as many items as it may have: as many as it could record.
pub(crate) fn is_full(items: &CapturedBuffer, room: usize) -> bool
    ensures { (result ≡ true) ↔ (room / least_datagram ≤ length items.now.items) }
{
    room / LEAST_DATAGRAM <= items.as_slice().len()
}

/// Charges the held item, where there is one and its records fit so many bytes, and tells how many they take. Else nothing is charged.
pub(crate) fn charge(head: &Option<Captured>, charges: &mut Charges, left: usize) -> Option<usize>
    ensures { (limits : ℕ → Limit) (popped : List CapturedTold) → Foretells limits popped charges.old → ChargesHeld limits popped head.now left charges.new result }
{
    let Some(item) = head else {
        return None;
    };
    charges.take(&head_of(item), item.bytes.len() as u16, left)
}
