// Segments that lack a summary.
ghost use Rattle.std.specs.Prelude.{◌≡◌, List, IfOk};
ghost use Rattle.vdr_directory.specs.Sequence.{Placed};
ghost use Rattle.vdr_directory.specs.Entries.{Describes, Describe};
ghost use Rattle.vdr_directory.specs.Order.{AreInOrder};
ghost use Rattle.vdr_directory.specs.Bringing.{EndsBare, bare_of, is_bare, may_have_summary};

use crate::entry::Entry;
use std::alloc::{AllocError, Global};

// Whether a segment may have a summary before these.
fn may_have_summary(after: &[Entry]) -> bool
    ensures { (ps : List Placed) → EndsBare ps → Describe ps after.now → result ≡ may_have_summary ps }
{
    match after {
        [] => false,
        [next] => next.extent().is_some(),
        _ => true,
    }
}

// Whether a segment is to get a summary before these.
fn is_bare(entry: &Entry, after: &[Entry]) -> bool
    ensures { (p : Placed) (ps : List Placed) → EndsBare ps → Describes p entry.now → Describe ps after.now → result ≡ is_bare p ps }
{
    entry.summary.is_none() && may_have_summary(after)
}

/// The slots of the segments that are to get a summary, the oldest first.
pub fn bare_slots(alloc: Global, opened: &[Entry]) -> Result<Vec<u32>, AllocError>
    ensures { IfOk result (λ bare. (placed : List Placed) → AreInOrder placed → Describe placed opened.now → bare.items ≡ bare_of placed) }
{
    let mut bare = Vec::new(alloc);
    for (i, entry) in opened.iter().enumerate() {
        if is_bare(entry, &opened[i + 1..]) {
            bare.push(entry.slot)?;
        }
    }
    Ok(bare)
}
