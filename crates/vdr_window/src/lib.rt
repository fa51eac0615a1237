//! The retention window: which seconds of recording time a medium keeps (IEC 61996-1 and IMO MSC.333(90): the last 48 hours
//! and the last 30 days).
#![tactic(auto)]

ghost use Rattle.std.specs.Prelude.{◌≡◌, ◌≤◌, ◌+◌, ◌^◌};
ghost use Rattle.vdr_terms.specs.Windows.{in_window};

/// Whether a second of recording time is in the window of so many seconds that ends with the second `last`: it is less than
/// so many seconds older, or later (this project's profile counts the window in recording time). Second and seconds together
/// are at most 2^63.
pub fn in_window(second: u64, last: u64, seconds: u64) -> bool
    requires { second + seconds ≤ 2 ^ 63 }
    ensures { result ≡ in_window second last seconds }
{
    second + seconds > last
}
