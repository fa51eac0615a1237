// Which lines of a record may carry parts of AIS messages.
ghost use Rattle.std.specs.Prelude.{IfSome};
ghost use Rattle.vdr_datagram.specs.Views.{verdict_of};
ghost use Rattle.vdr_terms.specs.Records.Content.{Datagram};
ghost use Rattle.vdr_rows.specs.Carriers.{AreCarriers, HasOneLine};

use crate::seeking::{Sought, is_carrier, mentions};
use vdr_datagram::{LineVerdict, lines};
use vdr_entry::{Content, Record};

/// Which lines of a record may carry parts of AIS messages.
#[derive(Drop)]
pub(crate) enum Carriers<'a> {
    /// None of them.
    NoLine,
    /// Its only line, as the line's address shows.
    OnlyLine(LineVerdict<'a>),
    /// Any of them.
    AnyLine,
}

// The line of a datagram that has one alone. What stands behind the first is not read.
fn only_line(payload: &[u8]) -> Option<LineVerdict<'_>>
    ensures { IfSome result (λ line. HasOneLine (Datagram payload.now) (verdict_of line)) }
{
    let mut left = lines(payload);
    let first = left.next()?;
    if first.to < payload.len() {
        return None;
    }
    match left.next() {
        Some(_) => None,
        None => Some(first.verdict),
    }
}

// Which lines of a datagram may carry parts. Where its bytes name neither VDM nor VDO it is not cut.
fn carriers_in(payload: &[u8]) -> Carriers<'_>
    ensures { AreCarriers (Datagram payload.now) result }
{
    if !mentions(Sought::Parts, payload) {
        return Carriers::NoLine;
    }
    match only_line(payload) {
        Some(line) if is_carrier(&line) => Carriers::OnlyLine(line),
        Some(_) | None => Carriers::AnyLine,
    }
}

/// Which lines of a record may carry parts of AIS messages.
pub(crate) fn carriers_of(item: &Record) -> Carriers<'_>
    ensures { AreCarriers item.now.content result }
{
    match item.content() {
        Content::Datagram(payload) => carriers_in(payload),
        Content::Start | Content::Gap(_) | Content::Stop => Carriers::NoLine,
    }
}
