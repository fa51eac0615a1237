// Where a run begins.
//
// A stamp that the vault tells is brought into its range before a run begins after it: media that tell hold no
// other, and others need no `requires`.
ghost use Rattle.std.specs.Prelude.{◌≡◌, ◌<◌, ◌≤◌, ◌↔◌, ◌^◌, true, IfSome, option_map};
ghost use Rattle.vdr_terms.specs.Stamps.{IsStamp};
ghost use Rattle.vdr_core.specs.Runs.{base_after};
ghost use Rattle.vdr_run.specs.Starts.{stamp_of};

use vdr_terms::LAST_STAMP;

/// No run begins at this place, or at this tick, or later (this project's profile).
pub(crate) const LIMIT: u64 = 1 << 62;

/// Whether a run would begin at a tick of 2^62 milliseconds or later.
pub(crate) fn is_late(last: Option<(u64, i64)>) -> bool
    ensures { (result ≡ true) ↔ (2 ^ 62 ≤ base_after (option_map stamp_of last)) }
{
    match last {
        Some((tick, _)) => tick / 1000 + 1 > (LIMIT - 1) / 1000,
        None => false,
    }
}

// The nearest number of milliseconds that is a stamp.
fn nearest_stamp(utc: i64) -> i64
    ensures stamp { IsStamp result }
    ensures same { IsStamp utc → result ≡ utc }
{
    if utc < 0 {
        0
    } else if utc > LAST_STAMP {
        LAST_STAMP
    } else {
        utc
    }
}

/// The same tick and UTC, with the UTC brought into the range of stamps. Media hold no other.
pub(crate) fn in_range(last: Option<(u64, i64)>) -> Option<(u64, i64)>
    ensures stamp { IfSome result (λ told. IsStamp told.1) }
    ensures base { base_after (option_map stamp_of result) ≡ base_after (option_map stamp_of last) }
    ensures same { IfSome last (λ told. IsStamp told.1) → result ≡ last }
{
    match last {
        Some((tick, utc)) => Some((tick, nearest_stamp(utc))),
        None => None,
    }
}
