// Closing the gate of a medium.
ghost use Rattle.std.specs.Prelude.{◌≡◌, ◌⊎◌, ◌<◌, ◌≤◌, length, get_or, OnOk};
ghost use Rattle.vdr_outside.specs.Causes.{HasCauseOn};
ghost use Rattle.vdr_outside.specs.Disk.{SameBut};
ghost use Rattle.vdr_outside.specs.Moments.{AtEachMoment, Changed, Settled};
ghost use Rattle.vdr_media.specs.Writing.{HasClosedGate};

use vdr_outside::{Fault, Media, write_through};
use vdr_segment::{CLOSED_GATE, OPEN_GATE};

// Syncs medium m, and closes the gate at its byte 0 where it was read as open. Whatever was unsynced before, each image that a stop may
// leave by then has the gate that was read, so that any byte in its place leaves the medium as it was, or closed.
pub(crate) fn close_medium<M: Media>(media: &mut M, m: u8) -> Result<(), Fault>
    requires there { m < length (M.disk media.old).sizes }
    requires room { 1 ≤ get_or (M.disk media.old).sizes m 0 }
    ensures moments { AtEachMoment (M.disk media.old) (M.disk media.new) (λ i. (M.disk media.old).now i ⊎ Changed m HasClosedGate (M.disk media.old).now i) }
    ensures done { OnOk result (Settled m HasClosedGate (M.disk media.new)) }
    ensures others { M.tells → SameBut m (M.disk media.old).reads (M.disk media.new).reads }
    ensures sizes { (M.disk media.new).sizes ≡ (M.disk media.old).sizes }
    ensures cause { HasCauseOn m (M.faults media.old) (M.faults media.new) result }
{
    media.sync(m)?;
    let mut gate = [0];
    media.read(m, 0, &mut gate)?;
    if gate[0] != OPEN_GATE {
        return Ok(());
    }
    write_through(media, m, 0, &[CLOSED_GATE])
}
