// Reading the items of a TAG block.
ghost use Rattle.std.specs.Prelude.{◌≡◌, ◌≤◌, ◌==◌, Some, None, IfOk, IfErr, OnOk, IfSome, IfNone, true, false, is_some};
ghost use Rattle.std.specs.List.{after_first, before_first};
ghost use Rattle.vdr_tag.specs.Values.{all_said, over};
ghost use Rattle.vdr_tag.specs.Items.{has_code, item_values, items, items_refusal, over_item, values_in};
ghost use Rattle.vdr_tag.specs.Views.{values_of};
ghost use Rattle.vdr_tag.specs.declared.bad.BadTag.TheVariants.{Field};

use crate::bad::BadTag;
use crate::split::split_once;
use crate::tags::Tags;
use crate::values::{add, code_named};

// The code and the value of an item.
fn code_and_value(item: &[u8]) -> Option<(&[u8], &[u8])>
    ensures code { IfSome result (λ x. (has_code item.now ≡ true) × (x.0.now ≡ before_first (λ b. b == 58) item.now)) }
    ensures value { IfSome result (λ x. x.1.now ≡ after_first (λ b. b == 58) item.now) }
    ensures none { IfNone result (has_code item.now ≡ false) }
{
    let (code, value) = split_once(item, b':')?;
    if code.is_empty() {
        return None;
    }
    Some((code, value))
}

// Adds what an item says, and answers whether its value is accepted.
fn add_item<'a>(tags: &mut Tags<'a>, item: &'a [u8]) -> Result<bool, BadTag>
    ensures coded { OnOk result (has_code item.now ≡ true) }
    ensures accepted { IfOk result (λ ok. ok ≡ is_some (item_values item.now)) }
    ensures said { OnOk result (values_of tags.new ≡ over_item (values_of tags.old) (item_values item.now)) }
    ensures counted { OnOk result (tags.new.others ≤ 65535) }
    ensures refused { IfErr result (λ bad. (has_code item.now ≡ false) × (bad ≡ Field)) }
{
    let Some((code, value)) = code_and_value(item) else {
        return Err(BadTag::Field);
    };
    Ok(add(tags, code_named(code), value).is_some())
}

/// Adds what the items of a block say. No code, in any of them, is refused before a value that is not accepted.
pub(crate) fn read_items<'a>(tags: &mut Tags<'a>, text: &'a [u8]) -> Result<(), BadTag>
    ensures accepted { OnOk result (items_refusal (items text.now) ≡ None) }
    ensures said { OnOk result (values_of tags.new ≡ over (values_of tags.old) (all_said (values_in (items text.now)))) }
    ensures refused { IfErr result (λ bad. items_refusal (items text.now) ≡ Some bad) }
{
    let mut accepted = true;
    let mut rest = text;
    while let Some((item, more)) = split_once(rest, b',') {
        accepted &= add_item(tags, item)?;
        rest = more;
    }
    accepted &= add_item(tags, rest)?;
    if accepted { Ok(()) } else { Err(BadTag::Value) }
}
