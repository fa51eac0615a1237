// Reading one TAG block: its items, and its checksum.
ghost use Rattle.std.specs.Prelude.{◌≡◌, ◌∷◌, ◌<◌, ◌==◌, Some, None, OnOk, IfOk, IfErr, IfSome, IfNone, false, length};
ghost use Rattle.std.specs.List.{after_first, before_first, position_or_len};
ghost use Rattle.vdr_tag.specs.Values.{TagValues, over};
ghost use Rattle.vdr_tag.specs.Blocks.{block_refusal, block_values};
ghost use Rattle.vdr_tag.specs.Fronts.{OpensBlock, begins_block, opened_refusal};
ghost use Rattle.vdr_tag.specs.Views.{values_of};

use crate::bad::BadTag;
use crate::items::read_items;
use crate::split::split_once;
use crate::tags::Tags;
use vdr_bytes::{checksum, split_checksum};

/// The bytes behind the `\` that opens a block at the front. None where no block is opened there.
pub(crate) fn open(bytes: &[u8]) -> Option<&[u8]>
    ensures opened { IfSome result (λ after. bytes.now ≡ 92 ∷ after.now) }
    ensures none { IfNone result (begins_block bytes.now ≡ false) }
{
    match bytes {
        [b'\\', after @ ..] => Some(after),
        _ => None,
    }
}

/// Adds what a block says, by the bytes between its two `\`.
#[tactic(auto, unfolding(crate::specs::Blocks::block_refusal, crate::specs::Blocks::block_values))]
fn read_inside<'a>(tags: &mut Tags<'a>, inside: &'a [u8]) -> Result<(), BadTag>
    ensures accepted { OnOk result (block_refusal inside.now ≡ None) }
    ensures said { OnOk result (values_of tags.new ≡ over (values_of tags.old) (block_values inside.now)) }
    ensures refused { IfErr result (λ bad. block_refusal inside.now ≡ Some bad) }
{
    let Some((text, written)) = split_checksum(inside) else {
        return Err(BadTag::Missing);
    };
    let computed = checksum(text);
    if written != computed {
        return Err(BadTag::Wrong { written, computed });
    }
    read_items(tags, text)
}

/// Adds what the block says that is opened before these bytes, and answers what stands behind it.
pub(crate) fn read_block<'a>(tags: &mut Tags<'a>, after: &'a [u8]) -> Result<&'a [u8], BadTag>
    ensures block { IfOk result (λ rest. (values : TagValues) × OpensBlock after.now values rest.now × (values_of tags.new ≡ over (values_of tags.old) values)) }
    ensures refused { IfErr result (λ bad. opened_refusal after.now ≡ Some bad) }
{
    let Some((inside, rest)) = split_once(after, b'\\') else {
        return Err(BadTag::Unclosed);
    };
    read_inside(tags, inside)?;
    Ok(rest)
}
