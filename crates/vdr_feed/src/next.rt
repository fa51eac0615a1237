// Reading one item.
ghost use Rattle.std.specs.Prelude.{◌≡◌, ◌≤◌, ◌<◌, None, Some, IfOk, IsErrOf};
ghost use Rattle.vdr_outside.specs.Causes.{Rose};
ghost use Rattle.vdr_feed.specs.Failing.{ReadsPart};
ghost use Rattle.vdr_feed.specs.Feed.{fault_of};
ghost use Rattle.vdr_feed.specs.Reader.{ReadsItem, IfKnown, IfIllegal};
ghost use Rattle.vdr_feed.specs.declared.fault.ItemRefused.TheVariants.{Failed as ReadFailed};

use crate::Item;
use crate::body::read_body;
use crate::fault::ItemRefused;
use crate::head::{fault_of_head, length_of, received_of, utc_of};
use vdr_outside::{LONGEST_TAKEN, Source, fill};

// Reads what stands where no further item may: nothing.
fn read_past_limit<I: Source>(
    limit: u64,
    count: u64,
    floor: u64,
    input: &mut I,
    into: &mut Item,
) -> Result<Option<u16>, ItemRefused>
    requires { limit ≤ count }
    ensures kept { IfOk result (λ len. len ≡ None → into.new ≡ into.old) }
    ensures read { IfOk result (λ len. ReadsItem (I.left input.old) (I.left input.new) limit count floor into.new len) }
    ensures refused { IfIllegal result (λ number. IfKnown (I.left input.old) (λ bytes. fault_of limit count floor bytes ≡ Some number)) }
    ensures part { IsErrOf result ReadFailed → ReadsPart limit count floor (I.left input.old) (I.left input.new) }
    ensures later { I.faults input.old ≤ I.faults input.new }
    ensures failed { IsErrOf result ReadFailed → Rose (I.faults input.old) (I.faults input.new) }
{
    let mut first = [0; 1];
    let got = fill(input, &mut first)?;
    if got == 0 {
        return Ok(None);
    }
    Err(ItemRefused::Illegal(6))
}

/// Reads the next item and answers the length of its body, or None at the end. It stands after `count` others, the last of which
/// was received at `floor`. What stands in the scratch is of no matter.
pub(crate) fn read_item<I: Source>(
    limit: u64,
    count: u64,
    floor: u64,
    input: &mut I,
    scratch: &mut [u8; LONGEST_TAKEN],
    into: &mut Item,
) -> Result<Option<u16>, ItemRefused>
    ensures kept { IfOk result (λ len. len ≡ None → into.new ≡ into.old) }
    ensures read { IfOk result (λ len. ReadsItem (I.left input.old) (I.left input.new) limit count floor into.new len) }
    ensures refused { IfIllegal result (λ number. IfKnown (I.left input.old) (λ bytes. fault_of limit count floor bytes ≡ Some number)) }
    ensures part { IsErrOf result ReadFailed → ReadsPart limit count floor (I.left input.old) (I.left input.new) }
    ensures later { I.faults input.old ≤ I.faults input.new }
    ensures failed { IsErrOf result ReadFailed → Rose (I.faults input.old) (I.faults input.new) }
{
    if count >= limit {
        return read_past_limit(limit, count, floor, input, into);
    }
    let mut head = [0; 19];
    let got = fill(input, &mut head)?;
    if got == 0 {
        return Ok(None);
    }
    if got < 19 {
        return Err(ItemRefused::Illegal(2));
    }
    if let Some(number) = fault_of_head(&head, floor) {
        return Err(ItemRefused::Illegal(number));
    }
    let len = length_of(&head);
    if !read_body(input, len as usize, scratch, &mut into.bytes)? {
        return Err(ItemRefused::Illegal(2));
    }
    into.group = head[0];
    into.received = received_of(&head);
    into.utc = utc_of(&head) as i64;
    Ok(Some(len))
}
