// Where a run begins.
ghost use Rattle.std.specs.Prelude.{◌≡◌, ◌<◌, ◌^◌, IfSome, option_map};
ghost use Rattle.vdr_core.specs.Runs.{base_after, utc_after};
ghost use Rattle.vdr_run.specs.Starts.{stamp_of};

/// The tick, in milliseconds, at which a run begins: the next whole second after the last record's tick, 0 where there is none
/// (this project's profile). The last record is given as its tick and its UTC in milliseconds.
pub(crate) fn base_after(last: Option<(u64, i64)>) -> u64
    requires { IfSome last (λ told. told.0 < 2 ^ 63) }
    ensures { result ≡ base_after (option_map stamp_of last) }
{
    match last {
        Some((tick, _)) => (tick / 1000 + 1) * 1000,
        None => 0,
    }
}

/// The UTC, in milliseconds, of what comes before any item of a run: that of the last record, 0 where there is none.
pub(crate) fn utc_after(last: Option<(u64, i64)>) -> i64
    ensures { result ≡ utc_after (option_map stamp_of last) }
{
    match last {
        Some((_, utc)) => utc,
        None => 0,
    }
}
