// Whether a run may begin.
//
// It is asked before the latch is made, so that a run that is refused calls nothing. No order of a desk makes a record, and so the start
// at the latch is not refused any more.
ghost use Rattle.std.specs.Prelude.{◌≡◌, None, IfSome};
ghost use Rattle.vdr_session.specs.Sessions.{IsRefusedBy};
ghost use Rattle.vdr_session.specs.Standing.{MayStart};

use vdr_capture::Outcome;
use vdr_recorder::Recorder;

/// No run begins at this place, or at this tick, or later (this project's profile).
const LIMIT: u64 = 1 << 62;

/// Why a run would be refused: its first place, or the tick at which it begins, in milliseconds, would be 2^62 or more.
pub(crate) fn refusal(recorder: &Recorder) -> Option<Outcome>
    ensures refused { IfSome result (λ outcome. IsRefusedBy recorder.now.vault outcome) }
    ensures may { result ≡ None → MayStart recorder.now.vault }
{
    let state = recorder.status();
    if state.records >= LIMIT {
        return Some(Outcome::Place);
    }
    if state.tick / 1000 + 1 > (LIMIT - 1) / 1000 {
        return Some(Outcome::Tick);
    }
    None
}
