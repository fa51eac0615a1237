// The index of a medium: what is known of the segment in each slot, and which of them may answer a query.
//
// The slots stand in one order, those with a segment by number and then by slot, then the clear ones, so that a
// search begins where the numbers above the given one begin. A begun segment moves 4-byte numbers, and none where it
// comes behind all.
ghost use Rattle.std.specs.Prelude.{◌≡◌, ◌≢◌, ◌<◌, ◌^◌, ℕ, length, replicate, set, get_or, option_map, Some, None, IfOk, IfSome, IfNone};
ghost use Rattle.vdr_entry.specs.Queries.{asked};
ghost use Rattle.vdr_index.specs.declared.known.Known.{Known as AKnown};
ghost use Rattle.vdr_index.specs.Keys.{IsOrdered};
ghost use Rattle.vdr_index.specs.Indexes.{Keeps, IsAbove, IsCandidate, IsFirstClear, IsNewest, IsNextAbove, MayAnswer, span_as};

use crate::keys::{candidate, first_clear, newest, next_above, numbers, places};
use crate::moving::shift;
use crate::{Known, NoMemory, Span};
use std::alloc::Global;
use std::marker::Model;
use vdr_entry::{Query, Summary};

/// What is known of the segment in each slot of a medium. It is seen as the list of that, None where a slot is clear.
#[derive(Drop)]
pub struct Index {
    kept: Vec<Option<Known>>,
    // The slots, those with a segment first, in order of sequence number, and then the clear ones, in order of slot.
    order: Vec<u32>,
}

impl Model for Index {
    ghost use Rattle.std.specs.Prelude.{List, Option};
    ghost use Rattle.vdr_index.specs.declared.known.Known.{Known};
    ghost use Rattle.vdr_index.specs.Keys.{IsOrdered};

    ghost Value = { List (Option Known) };

    ghost view = { λ x. x.kept.items };

    ghost invariant = { λ x. IsOrdered x.kept.items x.order.items };
}

impl Index {
    /// An index of so many slots, all of them clear.
    pub fn with_slots(alloc: Global, n: u32) -> Result<Index, NoMemory>
        ensures { IfOk result (λ index. index ≡ replicate n None) }
    {
        let Ok(kept) = vec![in alloc; None; n as usize] else {
            return Err(NoMemory);
        };
        let Ok(order) = numbers(alloc, n) else {
            return Err(NoMemory);
        };
        Ok(Index { kept, order })
    }

    // Puts down what is known of a slot's segment, None where it is clear.
    fn put(&mut self, slot: u32, known: Option<Known>)
        requires within { slot < length self.old }
        requires low { (k : AKnown) → known ≡ Some k → k.seq < 2 ^ 64 }
        ensures { self.new ≡ set self.old slot known }
    {
        let (from, to) = places(&self.kept, &self.order, slot, known);
        self.kept[slot as usize] = known;
        shift(&mut self.order, from, to);
    }

    /// Takes down what is known of the segment in a slot, whatever was known before: its sequence number, the place of its first
    /// record, and what its records have in common. Takes no memory.
    pub fn set(&mut self, slot: u32, seq: u64, first: u64, summary: Summary)
        requires { slot < length self.old }
        ensures { self.new ≡ set self.old slot (Some (record { seq = seq; first = first; summary = summary })) }
    {
        self.put(
            slot,
            Some(Known {
                seq,
                first,
                summary,
            }),
        );
    }

    /// Clears a slot. Takes no memory.
    pub fn clear(&mut self, slot: u32)
        requires { slot < length self.old }
        ensures { self.new ≡ set self.old slot None }
    {
        self.put(slot, None);
    }

    /// Sequence number, first place and summary of the segment in a slot. None exactly where it is clear or there is no such
    /// slot. Takes no memory.
    pub fn get(&self, slot: u32) -> Option<(u64, u64, Summary)>
        ensures { result ≡ option_map (λ k. (k.seq, k.first, k.summary)) (get_or self.now slot None) }
    {
        match self.kept.get(slot as usize) {
            Some(Some(known)) => Some((known.seq, known.first, known.summary)),
            _ => None,
        }
    }

    /// What is known of the segment in a slot. None exactly where it is clear or there is no such slot. Takes no memory.
    pub fn known(&self, slot: u32) -> Option<Known>
        ensures { result ≡ get_or self.now slot None }
    {
        match self.kept.get(slot as usize) {
            Some(known) => *known,
            None => None,
        }
    }

    /// All slots: those with a segment first, in order of sequence number, and then the clear ones, in order of slot. Takes no
    /// memory.
    pub fn in_order(&self) -> &[u32]
        ensures { IsOrdered self.now result.now }
    {
        &self.order
    }

    /// The slot of the segment of least sequence number above `after` that meets the query within the span: by what is known of
    /// it, it may have a record that the query selects. None exactly where there is none. Takes no memory.
    ///
    /// It looks up where the segments above `after` begin, and then looks at those up to the one that it answers.
    pub fn next_candidate(&self, query: &Query, span: &Span, after: Option<u64>) -> Option<u32>
        ensures within { IfSome result (λ slot. slot < length self.now) }
        ensures some { IfSome result (IsCandidate self.now (asked query.now) (span_as span.now) after) }
        ensures none { IfNone result ((slot : ℕ) (k : AKnown) → Keeps self.now slot k → MayAnswer (asked query.now) (span_as span.now) after k → ⊥) }
    {
        candidate(&self.kept, &self.order, query, *span, after)
    }

    /// The slot of the segment of least sequence number above `after`. None exactly where there is none. Takes no memory, and looks
    /// it up.
    pub fn next_above(&self, after: Option<u64>) -> Option<u32>
        ensures within { IfSome result (λ slot. slot < length self.now) }
        ensures some { IfSome result (IsNextAbove self.now after) }
        ensures none { IfNone result ((slot : ℕ) (k : AKnown) → Keeps self.now slot k → IsAbove after k.seq → ⊥) }
    {
        next_above(&self.kept, &self.order, after)
    }

    /// The slot of the segment of greatest sequence number. None exactly where all slots are clear. Takes no memory, and looks it
    /// up.
    pub fn newest(&self) -> Option<u32>
        ensures within { IfSome result (λ slot. slot < length self.now) }
        ensures some { IfSome result (IsNewest self.now) }
        ensures none { IfNone result ((slot : ℕ) (k : AKnown) → Keeps self.now slot k → ⊥) }
    {
        newest(&self.kept, &self.order)
    }

    /// The least clear slot but this one. None exactly where no other is clear. Takes no memory, and looks it up.
    pub fn first_clear(&self, but: Option<u32>) -> Option<u32>
        ensures within { IfSome result (λ slot. slot < length self.now) }
        ensures some { IfSome result (IsFirstClear self.now but) }
        ensures none { IfNone result ((j : ℕ) → j < length self.now → but ≢ Some j → get_or self.now j None ≢ None) }
    {
        first_clear(&self.kept, &self.order, but)
    }
}
