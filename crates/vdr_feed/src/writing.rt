// An item of a feed as it is spelled.
ghost use Rattle.std.specs.Prelude.{◌≡◌, ◌≤◌, ◌+◌, ◌++◌, length};
ghost use Rattle.vdr_feed.specs.Feed.{spelling};
ghost use Rattle.vdr_feed.specs.Kept.{item_in};

use crate::Item;
use arrayvec::ArrayVec;

/// How many bytes an item is spelled in at most: a head of 19 bytes, and a body of 1,473.
pub const LONGEST_ITEM: usize = 1492;

pub(crate) fn push(into: &mut ArrayVec<u8, LONGEST_ITEM>, bytes: &[u8])
    requires { length into.old.items + length bytes.now ≤ LONGEST_ITEM }
    ensures { into.new.items ≡ into.old.items ++ bytes.now }
{
    let _ = into.try_extend_from_slice(bytes);
}

/// Spells an item of a feed (this project's profile): its group, when it was received and its stamp, in milliseconds, the
/// length of its body, and the body. It takes the place of what stood in `into`.
///
/// `crate::law_of_written_items` says that a legal item reads back.
pub fn write_item(item: &Item, into: &mut ArrayVec<u8, LONGEST_ITEM>)
    ensures { into.new.items ≡ spelling (item_in item.now) }
{
    into.clear();
    push(into, &[item.group]);
    push(into, &item.received.to_le_bytes());
    push(into, &item.utc.unsigned_abs().to_le_bytes());
    push(into, &(item.bytes.len() as u16).to_le_bytes());
    push(into, item.bytes.as_slice());
}
