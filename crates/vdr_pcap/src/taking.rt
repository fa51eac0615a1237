// What becomes of a packet.
ghost use Rattle.std.specs.Prelude.{◌≡◌, ◌≤◌, length, IfSome};
ghost use Rattle.vdr_terms.specs.Stamps.{last_stamp};
ghost use Rattle.vdr_frame.specs.Packets.{found_in};
ghost use Rattle.vdr_pcap.specs.Account.{fate_at, fate_of, row_of};
ghost use Rattle.vdr_pcap.specs.Taken.{IsShort, Judges, Takes, item_held, item_lent, item_of};

use crate::account::Account;
use crate::lent::LentItem;
use vdr_feed::Item;
use vdr_frame::{Cause, Found, find_datagram};

/// What was made of a packet.
#[derive(Clone, Copy, Drop)]
pub(crate) enum Taken {
    /// It would be an item beyond the limit.
    TooMany,
    /// It was left out.
    Left,
    /// It is the item.
    Item,
}

const STAMP_ROW: usize = 55;

/// The row of a packet of a block that is not read.
pub(crate) const BLOCK_ROW: usize = 56;

fn row_of(cause: Cause) -> usize
    ensures { result ≡ row_of cause }
{
    match cause {
        Cause::Link => 0,
        Cause::Short => 1,
        Cause::Protocol => 2,
        Cause::Ipv6 => 3,
        Cause::Fragment => 4,
        Cause::Malformed => 5,
        Cause::Port(port) => {
            if port >= 60_017 && port <= 60_064 {
                return 7 + usize::from(port - 60_017);
            }
            6
        }
    }
}

/// What was made of a packet, of which the bytes lie elsewhere.
#[derive(Clone, Copy, Drop)]
pub(crate) enum Judged<'a> {
    /// It would be an item beyond the limit.
    TooMany,
    /// It was left out.
    Left,
    /// It is this item.
    Item(LentItem<'a>),
}

// A datagram as an item.
fn lend(received: u64, group: u8, utc: u64, payload: &[u8]) -> LentItem<'_>
    requires utc { utc ≤ last_stamp }
    ensures item { item_lent result ≡ item_of received group utc payload.now }
    ensures body { result.body.now ≡ payload.now }
{
    LentItem {
        group,
        received,
        utc: utc as i64,
        body: payload,
    }
}

// Judges a datagram to the port of a group, and counts it.
fn judge_datagram<'a>(
    limit: u64,
    account: &mut Account,
    group: u8,
    stamp: Option<u64>,
    payload: &'a [u8],
    whole: bool,
) -> Judged<'a>
    requires stamp { IfSome stamp (λ t. t ≤ last_stamp) }
    requires payload { length payload.now ≤ 1473 }
    ensures judges { Judges limit (fate_at group payload.now whole stamp) account.old account.new result }
    ensures short { IsShort result }
{
    let Some(utc) = stamp else {
        account.leave(STAMP_ROW);
        return Judged::Left;
    };
    if account.items() >= limit {
        return Judged::TooMany;
    }
    let item = lend(account.received(utc), group, utc, payload);
    account.give(group, utc, whole);
    Judged::Item(item)
}

/// Judges a packet of this type of link, with this stamp where it has one, and with these bytes, and counts it.
pub(crate) fn judge_packet<'a>(
    limit: u64,
    account: &mut Account,
    link: u16,
    stamp: Option<u64>,
    front: &'a [u8],
) -> Judged<'a>
    requires { IfSome stamp (λ t. t ≤ last_stamp) }
    ensures judges { Judges limit (fate_of (found_in link front.now) stamp) account.old account.new result }
    ensures short { IsShort result }
{
    match find_datagram(link, front) {
        Found::Left(cause) => {
            account.leave(row_of(cause));
            Judged::Left
        }
        Found::Cut(group) => judge_datagram(limit, account, group, stamp, &[], false),
        Found::Whole { group, payload } => {
            judge_datagram(limit, account, group, stamp, payload, true)
        }
    }
}

// Puts an item in the place of the one that is held.
fn hold(into: &mut Item, item: LentItem<'_>)
    requires { length item.body.now ≤ 1473 }
    ensures { item_held into.new ≡ item_lent item.entry }
{
    into.group = item.group;
    into.received = item.received;
    into.utc = item.utc;
    into.bytes.clear();
    let _ = into.bytes.try_extend_from_slice(item.body);
}

/// Takes a packet of this type of link, with this stamp where it has one, and with these bytes.
pub(crate) fn take_packet(
    limit: u64,
    account: &mut Account,
    link: u16,
    stamp: Option<u64>,
    front: &[u8],
    into: &mut Item,
) -> Taken
    requires { IfSome stamp (λ t. t ≤ last_stamp) }
    ensures { Takes limit (fate_of (found_in link front.now) stamp) account.old account.new into.old into.new result }
{
    match judge_packet(limit, account, link, stamp, front) {
        Judged::TooMany => Taken::TooMany,
        Judged::Left => Taken::Left,
        Judged::Item(item) => {
            hold(into, item);
            Taken::Item
        }
    }
}
