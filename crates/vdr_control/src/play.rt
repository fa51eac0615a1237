// Reading a play from its words: the medium, the channel, and the bounds of UTC.
ghost use Rattle.std.specs.Prelude.{◌≡◌, ◌≤◌, ℕ, ℤ, pos, decimal, IfSome, IfNone};
ghost use Rattle.vdr_terms.specs.Stamps.{last_stamp};
ghost use Rattle.vdr_entry.specs.declared.query.Medium.{Medium as AMedium};
ghost use Rattle.vdr_control.specs.Orders.{PlainOrder, plain};
ghost use Rattle.vdr_control.specs.Plays.{IsMedium, SpellsBound, SpellsPlay, medium_word};

use crate::Order;
use vdr_bytes::number;
use vdr_entry::{Medium, read_utc};
use vdr_terms::{LAST_STAMP, MOST_INCIDENTS};

/// The first stamp: the start of the year 1970.
const FIRST_STAMP: i64 = 0;

// The greatest id of an incident.
const LAST_ID: u64 = MOST_INCIDENTS as u64;

/// The play that these words ask for (this project's profile), None exactly where they ask for none:
///
/// - `medium` is `capsule`, `longterm` or `incident-ID`, with an ID of 1 to 32 in decimal digits without a leading zero.
/// - `channel` is any text.
/// - `from` and `to` are UTC stamps as `2024-01-01T00:00:00.000Z`, or `-` for no bound, which is the first stamp and the last one.
///   `from` may be above `to`.
pub fn read_play<'a>(medium: &[u8], channel: &'a [u8], from: &[u8], to: &[u8]) -> Option<Order<'a>>
    ensures found { IfSome result (λ order. SpellsPlay medium.now channel.now from.now to.now (plain order)) }
    ensures none { IfNone result ((order : PlainOrder) → SpellsPlay medium.now channel.now from.now to.now order → ⊥) }
{
    let (medium, from, to) = read_span(medium, from, to)?;
    Some(Order::Play {
        medium,
        channel,
        from,
        to,
    })
}

/// The medium, and the first and the last stamp, that these words spell, `-` for no bound.
pub(crate) fn read_span(medium: &[u8], from: &[u8], to: &[u8]) -> Option<(Medium, i64, i64)>
    ensures found { IfSome result (λ span. (IsMedium span.0 × (medium.now ≡ medium_word span.0)) × SpellsBound (pos 0) from.now span.1 × SpellsBound (pos last_stamp) to.now span.2) }
    ensures none { IfNone result ((asked : AMedium) (since until : ℤ) → IsMedium asked × (medium.now ≡ medium_word asked) → SpellsBound (pos 0) from.now since
        → SpellsBound (pos last_stamp) to.now until → ⊥) }
{
    let medium = read_medium(medium)?;
    let from = read_bound(from, FIRST_STAMP)?;
    let to = read_bound(to, LAST_STAMP)?;
    Some((medium, from, to))
}

/// The medium that a word names.
pub(crate) fn read_medium(word: &[u8]) -> Option<Medium>
    ensures found { IfSome result (λ medium. IsMedium medium × (word.now ≡ medium_word medium)) }
    ensures none { IfNone result ((medium : AMedium) → IsMedium medium → word.now ≡ medium_word medium → ⊥) }
{
    if word == b"capsule".as_slice() {
        return Some(Medium::Capsule);
    }
    if word == b"longterm".as_slice() {
        return Some(Medium::LongTerm);
    }
    let id = read_id(word.strip_prefix(b"incident-")?)?;
    Some(Medium::Incident(id))
}

/// The medium and the last stamp that these words spell, `-` for no bound.
pub(crate) fn read_until(medium: &[u8], bound: &[u8]) -> Option<(Medium, i64)>
    ensures found { IfSome result (λ told. IsMedium told.0 × (medium.now ≡ medium_word told.0) × SpellsBound (pos last_stamp) bound.now told.1) }
    ensures none { IfNone result ((asked : AMedium) (at : ℤ) → IsMedium asked → medium.now ≡ medium_word asked → SpellsBound (pos last_stamp) bound.now at → ⊥) }
{
    let medium = read_medium(medium)?;
    let at = read_bound(bound, LAST_STAMP)?;
    Some((medium, at))
}

/// The id of an incident, 1 to 32.
pub(crate) fn read_id(digits: &[u8]) -> Option<u32>
    ensures found { IfSome result (λ id. (1 ≤ id) × (id ≤ 32) × (digits.now ≡ decimal id)) }
    ensures none { IfNone result ((id : ℕ) → 1 ≤ id → id ≤ 32 → digits.now ≡ decimal id → ⊥) }
{
    let id = number(digits, 2)?;
    if digits[0] == b'0' || id > LAST_ID {
        return None;
    }
    Some(id as u32)
}

// A stamp, or `-` for this one.
fn read_bound(word: &[u8], unbounded: i64) -> Option<i64>
    ensures found { IfSome result (λ utc. SpellsBound unbounded word.now utc) }
    ensures none { IfNone result ((utc : ℤ) → SpellsBound unbounded word.now utc → ⊥) }
{
    if word == b"-".as_slice() {
        return Some(unbounded);
    }
    read_utc(word)
}
