// A recording session over ports alone.
ghost use Rattle.std.specs.Prelude.{◌≤◌};
ghost use Rattle.vdr_intake.specs.Items.{most_items};
ghost use Rattle.vdr_session.specs.Calls.{AreByGroup, EndsSession, MayRecord};
ghost use Rattle.vdr_session.specs.Sessions.{PortsTold, Session};

use crate::SessionEnd;
use crate::mark::Mark;
use crate::recording::record_at_desks;
use arrayvec::ArrayVec;
use std::alloc::Global;
use std::sync::Wait;
use std::thread::Threads;
use vdr_capture::Lane;
use vdr_desk::Desk;
use vdr_outside::{Failed, Heard, LONGEST_LINE, Link, Media, Port};
use vdr_recorder::{Nobody, Recorder};

/// A link with no line. There is none in a session over ports alone.
#[derive(Drop)]
struct NoLine {
    calls: u64,
}

impl Link for NoLine {
    ghost use Rattle.std.specs.Prelude.{None};
    ghost use Rattle.vdr_outside.specs.Calls.{ended};

    ghost left = { λ _. None };

    ghost replied = { λ _. None };

    ghost asked = { λ l. record { times = l.calls; ends = l.calls; failures = 0; last = ended } };

    ghost faults = { λ _. 0 };

    fn line(&mut self, into: &mut ArrayVec<u8, LONGEST_LINE>) -> Heard {
        into.clear();
        self.calls = self.calls.saturating_add(1);
        Heard::Ended
    }

    fn reply(&mut self, _bytes: &[u8]) -> Result<(), Failed> {
        Ok(())
    }
}

/// Records what the ports of the lanes give, as one run, with at most `turns` takes of each port: `record_at_desks` without a desk.
pub fn record<M: Media + Send, P: Port + Send, R: Threads + Wait + Sync>(
    rt: &R,
    alloc: Global,
    recorder: Recorder,
    media: &mut M,
    lanes: &mut [Lane<P>],
    turns: u64,
) -> SessionEnd
    requires recorder { MayRecord recorder (M.disk media.old).sizes }
    requires lanes { AreByGroup lanes.old }
    requires turns { turns ≤ most_items }
    ensures session { Session P.Port turns recorder.vault.config.queue recorder.vault.config.groups lanes.old lanes.new recorder (M.disk media.old) (M.disk media.new) result }
    ensures ports { PortsTold result.outcome lanes.new }
    ensures ends { EndsSession M.Media recorder.vault lanes.old lanes.new media.old media.new result }
{
    let mut none: [Desk<NoLine, Mark>; 0] = [];
    record_at_desks(
        rt,
        alloc,
        recorder,
        media,
        &mut Nobody {},
        lanes,
        &mut none,
        turns,
    )
}
