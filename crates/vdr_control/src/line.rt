// Reading an order from a line of a link.
ghost use Rattle.std.specs.Prelude.{◌≡◌, ◌++◌, ℕ, ℤ, IfSome, IfNone};
ghost use Rattle.vdr_entry.specs.declared.query.Medium.{Medium as AMedium};
ghost use Rattle.vdr_control.specs.Lines.{AsksFor, IsPlayLine, IsTargetsLine};
ghost use Rattle.vdr_control.specs.Orders.{PlainOrder, plain};
ghost use Rattle.vdr_control.specs.Orders.PlainOrder.{Evidence, Release, Tell};
ghost use Rattle.vdr_control.specs.Plays.{IsMedium, medium_word};
ghost use Rattle.vdr_control.specs.declared.order.Telling.{Telling as ATelling};

use crate::export::read_export_line;
use crate::play::{read_id, read_medium, read_play, read_until};
use crate::word::{behind, four_words, two_words};
use crate::{Order, Telling};
use vdr_entry::Medium;

/// The order that a line of a link asks for (this project's profile), None exactly where it asks for none. The line is without its LF,
/// and one of:
///
/// - `STATUS`, `INCIDENTS`
/// - `HEALTH`
/// - `SAVE LABEL`, with the rest of the line as the label, which may be empty: the save tests it
/// - `RELEASE ID`, with an ID of 1 to 32 in decimal digits without a leading zero
/// - `EVIDENCE incident-ID`, with such an ID
/// - `PLAY MEDIUM CHANNEL FROM TO`, with the words of `read_play`, of which the channel has at least one byte
/// - `SOURCES MEDIUM`, `WATCH MEDIUM`, `DIGEST MEDIUM`, with the MEDIUM of `read_play`
/// - `TARGETS MEDIUM AT`, with AT as the TO of `read_play`
/// - `WAV MEDIUM CHANNEL FROM TO` with the words of a `PLAY`, and `WAV MEDIUM CHANNEL FROM TO timed`
/// - `PICTURE MEDIUM CHANNEL SOURCE BLOCK FROM TO`, where SOURCE has six bytes of 0x21 to 0x7E, and BLOCK is a number of four bytes in decimal
///   digits without a leading zero
///
/// Words are separated by one space.
pub fn read_order(line: &[u8]) -> Option<Order<'_>>
    ensures found { IfSome result (λ order. AsksFor line.now (plain order)) }
    ensures none { IfNone result ((order : PlainOrder) → AsksFor line.now order → ⊥) }
{
    if line == b"STATUS".as_slice() {
        return Some(Order::Status);
    }
    if line == b"INCIDENTS".as_slice() {
        return Some(Order::Incidents);
    }
    if line == b"HEALTH".as_slice() {
        return Some(Order::Health);
    }
    if let Some(label) = behind(line, b"SAVE ") {
        return Some(Order::Save(label));
    }
    if let Some(id) = read_release_line(line) {
        return Some(Order::Release(id));
    }
    if let Some(id) = read_evidence_line(line) {
        return Some(Order::Evidence(id));
    }
    if let Some(play) = read_play_line(line) {
        return Some(play);
    }
    if let Some(asked) = read_export_line(line) {
        return Some(asked.order());
    }
    read_tell_line(line)
}

fn read_release_line(line: &[u8]) -> Option<u32>
    ensures found { IfSome result (λ id. AsksFor line.now (Release id)) }
    ensures none { IfNone result ((id : ℕ) → AsksFor line.now (Release id) → ⊥) }
{
    let digits = behind(line, b"RELEASE ")?;
    read_id(digits)
}

fn read_evidence_line(line: &[u8]) -> Option<u32>
    ensures found { IfSome result (λ id. AsksFor line.now (Evidence id)) }
    ensures none { IfNone result ((id : ℕ) → AsksFor line.now (Evidence id) → ⊥) }
{
    let digits = behind(line, b"EVIDENCE incident-")?;
    read_id(digits)
}

fn read_play_line(line: &[u8]) -> Option<Order<'_>>
    ensures found { IfSome result (λ order. IsPlayLine line.now (plain order)) }
    ensures none { IfNone result ((order : PlainOrder) → IsPlayLine line.now order → ⊥) }
{
    let rest = behind(line, b"PLAY ")?;
    let (medium, channel, from, to) = four_words(rest)?;
    if channel.is_empty() {
        return None;
    }
    read_play(medium, channel, from, to)
}

fn read_tell_line(line: &[u8]) -> Option<Order<'_>>
    ensures found { IfSome result (λ order. AsksFor line.now (plain order)) }
    ensures none { IfNone result ((medium : AMedium) (telling : ATelling) → AsksFor line.now (Tell medium telling) → ⊥) }
{
    let (medium, telling) = if let Some(medium) = medium_behind(line, b"SOURCES ") {
        (medium, Telling::Sources)
    } else if let Some(medium) = medium_behind(line, b"WATCH ") {
        (medium, Telling::Watch)
    } else if let Some(medium) = medium_behind(line, b"DIGEST ") {
        (medium, Telling::Digest)
    } else {
        let (medium, at) = read_targets_line(line)?;
        (medium, Telling::Targets { at })
    };
    Some(Order::Tell { medium, telling })
}

fn read_targets_line(line: &[u8]) -> Option<(Medium, i64)>
    ensures found { IfSome result (λ told. IsMedium told.0 × IsTargetsLine line.now told.0 told.1) }
    ensures none { IfNone result ((medium : AMedium) (at : ℤ) → IsMedium medium → IsTargetsLine line.now medium at → ⊥) }
{
    let rest = behind(line, b"TARGETS ")?;
    let (medium, bound) = two_words(rest)?;
    read_until(medium, bound)
}

// The medium that stands behind the front of a line.
fn medium_behind(line: &[u8], front: &[u8]) -> Option<Medium>
    ensures found { IfSome result (λ medium. IsMedium medium × (line.now ≡ front.now ++ medium_word medium)) }
    ensures none { IfNone result ((medium : AMedium) → IsMedium medium → line.now ≡ front.now ++ medium_word medium → ⊥) }
{
    let rest = behind(line, front)?;
    read_medium(rest)
}
