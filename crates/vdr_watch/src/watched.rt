// Lines that may be signs, by their address alone: most are none, and need not be read.
ghost use Rattle.std.specs.Prelude.{◌≡◌, drop};
ghost use Rattle.vdr_datagram.specs.Views.{verdict_of};
ghost use Rattle.vdr_watch.specs.Watched.{is_watched, watches};

use vdr_datagram::LineVerdict;

/// A heartbeat, the state of an alarm, a bridge alert, and a list of them.
const HEARTBEAT: &[u8] = b"HBT";

const ALARM: &[u8] = b"ALR";

const ALERT: &[u8] = b"ALF";

const LIST: &[u8] = b"ALC";

// Whether an address names a formatter that is watched.
fn watches(address: &[u8]) -> bool
    ensures { result ≡ watches (drop 2 address.now) }
{
    let formatter = &address[address.len().min(2)..];
    formatter == HEARTBEAT || (formatter == ALARM || (formatter == ALERT || formatter == LIST))
}

/// Whether a line may be a sign.
pub(crate) fn is_watched(verdict: &LineVerdict<'_>) -> bool
    ensures { result ≡ is_watched (verdict_of verdict.now) }
{
    match verdict {
        LineVerdict::Good { sentence, .. } => watches(sentence.address),
        LineVerdict::Tag(_) | LineVerdict::Sentence { .. } => false,
    }
}
