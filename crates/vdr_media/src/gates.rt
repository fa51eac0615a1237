// Closing gates of a medium that stand a step apart.
ghost use Rattle.std.specs.Prelude.{◌≡◌, ◌+◌, ◌*◌, ◌<◌, ◌≤◌, ◌^◌, OnOk};
ghost use Rattle.vdr_outside.specs.Causes.{HasCauseOn};
ghost use Rattle.vdr_outside.specs.Disk.{InRange, content};
ghost use Rattle.vdr_media.specs.Writing.{WritesBehindGate, ClosesGates};

use vdr_outside::{Failed, Media};
use vdr_segment::CLOSED_GATE;

// Closes so many gates of medium m, from a position on and a step apart. It syncs none of them.
pub(crate) fn close_gates<M: Media>(
    media: &mut M,
    m: u8,
    from: u64,
    step: u64,
    count: u64,
) -> Result<(), Failed>
    requires room { InRange (M.disk media.old).sizes m from (count * step) }
    requires fits { from + count * step < 2 ^ 64 }
    requires behind { 1 ≤ from }
    requires apart { 1 ≤ step }
    ensures writes { WritesBehindGate m (M.disk media.old) (M.disk media.new) }
    ensures closed { OnOk result (M.tells → ClosesGates from step count (content (M.disk media.old).reads m) (content (M.disk media.new).reads m)) }
    ensures counts { M.bytes_read media.new ≡ M.bytes_read media.old }
    ensures cause { HasCauseOn m (M.faults media.old) (M.faults media.new) result }
{
    let mut at = from;
    for _ in 0..count {
        media.write(m, at, &[CLOSED_GATE])?;
        at += step;
    }
    Ok(())
}
