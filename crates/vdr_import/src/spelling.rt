// The head of an item.
ghost use Rattle.std.specs.Prelude.{◌≡◌, ◌≤◌, length};
ghost use Rattle.vdr_feed.specs.Feed.{head};
ghost use Rattle.vdr_pcap.specs.Taken.{item_lent};

use vdr_pcap::LentItem;

/// The 19 bytes before an item's body. `vdr_feed::write_item` spells the same; here the body needs not be copied behind them first.
#[inline]
pub(crate) fn head_of(item: &LentItem<'_>) -> [u8; 19]
    requires { length item.now.body.now ≤ 1_473 }
    ensures { result ≡ head (item_lent item.now) }
{
    let r = item.received.to_le_bytes();
    let u = item.utc.unsigned_abs().to_le_bytes();
    let n = (item.body.len() as u16).to_le_bytes();
    [
        item.group, r[0], r[1], r[2], r[3], r[4], r[5], r[6], r[7], u[0], u[1], u[2], u[3], u[4],
        u[5], u[6], u[7], n[0], n[1],
    ]
}
