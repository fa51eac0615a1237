// The order in which an index keeps its slots.
ghost use Rattle.std.specs.Prelude.{◌≡◌, ◌≢◌, ◌<◌, ◌≤◌, ◌*◌, ◌^◌, ℕ, List, length, drop, find, get_or, set, Some, None, IfOk, IfSome, IfNone};
ghost use Rattle.vdr_terms.specs.Queries.{Query as AQuery, Span as ASpan};
ghost use Rattle.vdr_entry.specs.Queries.{asked};
ghost use Rattle.vdr_index.specs.declared.known.Known.{Known as AKnown};
ghost use Rattle.vdr_index.specs.Indexes.{IsAbove, IsCandidate, IsFirstClear, IsNewest, IsNextAbove, Keeps, MayAnswer, span_as};
ghost use Rattle.vdr_index.specs.Keys.{key_of, key_in, Rises, IsRank, IsOrdered, IsMoved, NoneOf, AreKept, AreNumbers, is_other};

use crate::span::meets;
use crate::{Known, Span};
use std::alloc::{AllocError, Global};
use vdr_entry::Query;

// The least key of a segment of this sequence number, which may be 2^64.
fn front_of(seq: u128) -> u128
    requires { seq ≤ 2 ^ 64 }
    ensures { result ≡ seq * 2 ^ 32 }
{
    seq * (1 << 32)
}

// What a slot is ordered by: its segment's sequence number, and then the slot. Slots without a segment come behind.
fn key_of(slot: u32, known: Option<Known>) -> u128
    ensures { result ≡ key_of slot known }
{
    let seq = match known {
        Some(known) => known.seq as u128,
        None => 1 << 64,
    };
    front_of(seq) + slot as u128
}

fn key_in(kept: &[Option<Known>], slot: u32) -> u128
    ensures { result ≡ key_in kept.now slot }
{
    match kept.get(slot as usize) {
        Some(known) => key_of(slot, *known),
        None => key_of(slot, None),
    }
}

// How many slots have a key below this one.
fn rank(kept: &[Option<Known>], order: &[u32], key: u128) -> usize
    ensures { Rises kept.now order.now → IsRank kept.now order.now key result }
{
    order.partition_point(|slot| key_in(kept, *slot) < key)
}

// Where a slot stands in the order, and where it is to stand once this is known of it.
pub(crate) fn places(
    kept: &[Option<Known>],
    order: &[u32],
    slot: u32,
    known: Option<Known>,
) -> (usize, usize)
    requires ordered { IsOrdered kept.now order.now }
    requires within { slot < length kept.now }
    requires low { (k : AKnown) → known ≡ Some k → k.seq < 2 ^ 64 }
    ensures from { result.0 < length order.now }
    ensures to { result.1 < length order.now }
    ensures moved { (new : List ℕ) → IsMoved order.now new result.0 result.1 → IsOrdered (set kept.now slot known) new }
{
    let from = rank(kept, order, key_in(kept, slot));
    let behind = rank(kept, order, key_of(slot, known));
    let to = if from < behind { behind - 1 } else { behind };
    (from, to)
}

// How many slots at the front have no sequence number above this one.
fn passed(kept: &[Option<Known>], order: &[u32], after: Option<u64>) -> usize
    requires { IsOrdered kept.now order.now }
    ensures within { result ≤ length order.now }
    ensures passed { (query : AQuery) (span : ASpan) → NoneOf kept.now order.now query span after result }
    ensures below { (i d : ℕ) (k : AKnown) → i < result → Keeps kept.now (get_or order.now i d) k → IsAbove after k.seq → ⊥ }
    ensures above { (i d : ℕ) (k : AKnown) → result ≤ i → i < length order.now → Keeps kept.now (get_or order.now i d) k → IsAbove after k.seq }
{
    match after {
        None => 0,
        Some(seq) => rank(kept, order, front_of(seq as u128 + 1)),
    }
}

// The slot of the segment of least sequence number above `after` that may answer a query.
pub(crate) fn candidate(
    kept: &[Option<Known>],
    order: &[u32],
    query: &Query,
    span: Span,
    after: Option<u64>,
) -> Option<u32>
    requires { IsOrdered kept.now order.now }
    ensures within { IfSome result (λ slot. slot < length kept.now) }
    ensures some { IfSome result (IsCandidate kept.now (asked query.now) (span_as span) after) }
    ensures none { IfNone result ((slot : ℕ) (k : AKnown) → Keeps kept.now slot k → MayAnswer (asked query.now) (span_as span) after k → ⊥) }
{
    for i in passed(kept, order, after)..order.len() {
        let slot = order[i];
        let Some(known) = kept[slot as usize] else {
            return None;
        };
        if meets(query, span, known) {
            return Some(slot);
        }
    }
    None
}

// The slot of the segment of least sequence number above `after`.
pub(crate) fn next_above(kept: &[Option<Known>], order: &[u32], after: Option<u64>) -> Option<u32>
    requires { IsOrdered kept.now order.now }
    ensures within { IfSome result (λ slot. slot < length kept.now) }
    ensures some { IfSome result (IsNextAbove kept.now after) }
    ensures none { IfNone result ((slot : ℕ) (k : AKnown) → Keeps kept.now slot k → IsAbove after k.seq → ⊥) }
{
    let index = passed(kept, order, after);
    if index == order.len() {
        return None;
    }
    let slot = order[index];
    match kept[slot as usize] {
        Some(_) => Some(slot),
        None => None,
    }
}

// How many slots have a segment.
fn count_kept(kept: &[Option<Known>], order: &[u32]) -> usize
    requires { IsOrdered kept.now order.now }
    ensures { AreKept kept.now order.now result }
{
    rank(kept, order, front_of(1 << 64))
}

// The slot of the segment of greatest sequence number.
pub(crate) fn newest(kept: &[Option<Known>], order: &[u32]) -> Option<u32>
    requires { IsOrdered kept.now order.now }
    ensures within { IfSome result (λ slot. slot < length kept.now) }
    ensures some { IfSome result (IsNewest kept.now) }
    ensures none { IfNone result ((slot : ℕ) (k : AKnown) → Keeps kept.now slot k → ⊥) }
{
    let count = count_kept(kept, order);
    if count == 0 {
        return None;
    }
    Some(order[count - 1])
}

fn is_other(slot: u32, but: Option<u32>) -> bool
    ensures { result ≡ is_other but slot }
{
    match but {
        None => true,
        Some(one) => slot != one,
    }
}

// The first of these slots but this one.
fn first_but(slots: &[u32], but: Option<u32>) -> Option<u32>
    ensures { result ≡ find (is_other but) slots.now }
{
    slots.iter().copied().find(|slot| is_other(*slot, but))
}

// The least clear slot but this one.
pub(crate) fn first_clear(kept: &[Option<Known>], order: &[u32], but: Option<u32>) -> Option<u32>
    requires { IsOrdered kept.now order.now }
    ensures within { IfSome result (λ slot. slot < length kept.now) }
    ensures some { IfSome result (IsFirstClear kept.now but) }
    ensures none { IfNone result ((j : ℕ) → j < length kept.now → but ≢ Some j → get_or kept.now j None ≢ None) }
{
    first_but(&order[count_kept(kept, order)..], but)
}

// The numbers below n.
pub(crate) fn numbers(alloc: Global, n: u32) -> Result<Vec<u32>, AllocError>
    ensures { IfOk result (λ numbers. AreNumbers n numbers.items) }
{
    let mut numbers = vec![in alloc; 0; n as usize]?;
    for slot in 0..n {
        numbers[slot as usize] = slot;
    }
    Ok(numbers)
}
