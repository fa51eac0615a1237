// The query of an evidence file.
ghost use Rattle.std.specs.Prelude.{◌≡◌, ℤ, length, IfSome, IfNone};
ghost use Rattle.vdr_verify.specs.Legal.{Asks, channel_named};
ghost use Rattle.vdr_verify.specs.Standing.{AreStamps};
ghost use Rattle.vdr_verify.specs.declared.query.Asked.{Asked as AskedFor};

use vdr_config::Config;
use vdr_entry::{Record, read_utc};
use vdr_index::has_channel;

/// What an evidence file was asked for: the records of a channel, None for all, whose UTC stamps are from `from` to `to`, both
/// included, in milliseconds since 1970.
#[derive(Clone, Copy, Debug, PartialEq, Eq, Drop)]
pub(crate) struct Asked {
    pub(crate) channel: Option<u8>,
    pub(crate) from: i64,
    pub(crate) to: i64,
}

// How many bytes two stamps have, each behind a space.
const BOUNDS: usize = 50;

impl Asked {
    ghost use Rattle.vdr_verify.specs.Legal.{selects};

    /// Whether it asks for this record.
    pub(crate) fn selects(&self, item: &Record) -> bool
        ensures { result ≡ selects self.now item.now }
    {
        has_channel(self.channel, item.bits) && self.from <= item.utc && item.utc <= self.to
    }
}

// The channel of this name, and None of it for all records.
fn channel_named(config: &Config, name: &[u8]) -> Option<Option<u8>>
    ensures { result ≡ channel_named config.now name.now }
{
    if name == b"all".as_slice() {
        return Some(None);
    }
    match config.channel_of(name) {
        Some(number) => Some(Some(number)),
        None => None,
    }
}

// The two stamps behind the name of a channel.
fn stamps_in(bounds: &[u8]) -> Option<(i64, i64)>
    requires { length bounds.now ≡ 50 }
    ensures found { IfSome result (λ stamps. AreStamps bounds.now stamps.0 stamps.1) }
    ensures none { IfNone result ((from to : ℤ) → AreStamps bounds.now from to → ⊥) }
{
    if &bounds[..1] != b" ".as_slice() {
        return None;
    }
    if &bounds[25..26] != b" ".as_slice() {
        return None;
    }
    let Some(from) = read_utc(&bounds[1..25]) else {
        return None;
    };
    let Some(to) = read_utc(&bounds[26..]) else {
        return None;
    };
    Some((from, to))
}

/// What the text of a query asks for.
pub(crate) fn asked_in(config: &Config, text: &[u8]) -> Option<Asked>
    ensures found { IfSome result (λ asked. Asks config.now text.now asked) }
    ensures none { IfNone result ((asked : AskedFor) → Asks config.now text.now asked → ⊥) }
{
    if text.len() < BOUNDS {
        return None;
    }
    let (name, bounds) = text.split_at(text.len() - BOUNDS);
    let Some(channel) = channel_named(config, name) else {
        return None;
    };
    let Some((from, to)) = stamps_in(bounds) else {
        return None;
    };
    Some(Asked { channel, from, to })
}
