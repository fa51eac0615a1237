// Reading the TAG blocks at the front of a line.
//
// A block without items is refused as an item without a colon; where a code stands twice the first value counts, and
// the later one must be accepted too. A `*` may stand inside the items.
ghost use Rattle.std.specs.Prelude.{◌≡◌, ◌≤◌, ◌<◌, ◌==◌, Ok, Err, Some, None, IfOk, IfErr, MatchResult, length};
ghost use Rattle.std.specs.List.{after_first, before_first, position_or_len};
ghost use Rattle.vdr_tag.specs.Values.{TagValues, over};
ghost use Rattle.vdr_tag.specs.Blocks.{block_refusal, block_values};
ghost use Rattle.vdr_tag.specs.Fronts.{HasFront, IsRefused, OpensBlock, opened_refusal, reading};
ghost use Rattle.vdr_tag.specs.Views.{values_of};

use crate::bad::BadTag;
use crate::block::{open, read_block};
use crate::tags::{Tags, no_tags};

/// Reads the TAG blocks at the front of the bytes (IEC 61162-450), and answers how many bytes they take: 0 where the first byte is no
/// `\`. The refusal is that of the first block that is not legal.
pub fn read_tags(bytes: &[u8]) -> Result<(Tags<'_>, usize), BadTag>
    // The blocks at the front say these values, or the first that is not legal is refused so.
    ensures front { IfOk result (λ x. HasFront bytes.now (values_of x.0) x.1) }
    ensures within { IfOk result (λ x. x.1 ≤ length bytes.now) }
    ensures refused { IfErr result (λ bad. IsRefused bytes.now bad) }

    // The same as a function of the bytes.
    ensures exact { MatchResult result
        (λ x. reading bytes.now ≡ Ok (values_of x.0, x.1))
        (λ bad. reading bytes.now ≡ Err bad) }
{
    let mut tags = no_tags();
    let mut rest = bytes;
    while let Some(after) = open(rest) {
        rest = read_block(&mut tags, after)?;
    }
    Ok((tags, bytes.len() - rest.len()))
}
