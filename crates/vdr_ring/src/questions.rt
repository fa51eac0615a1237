// What a ring answers from its directory, without reading the medium.
ghost use Rattle.std.specs.Prelude.{◌≡◌, ◌<◌, ◌↔◌, List, Contains, IsTrue, IfSome, IfNone, option_map};
ghost use Rattle.vdr_terms.specs.Records.{last};
ghost use Rattle.vdr_index.specs.Extents.{first_records};
ghost use Rattle.vdr_directory.specs.Sequence.{Placed, seq_of, batches_in, all_records};
ghost use Rattle.vdr_directory.specs.Order.{AreInOrder};
ghost use Rattle.vdr_directory.specs.Holds.{Tells};
ghost use Rattle.vdr_index.specs.Indexes.{IsAbove};
ghost use Rattle.vdr_directory.specs.Lookup.{IsNext, HoldAll};
ghost use Rattle.vdr_directory.specs.Knowns.{AreInOrderBy};
ghost use Rattle.vdr_directory.specs.Telling.{HoldAllBy, TellsBy};

use crate::Ring;
use crate::lookup::{holds_all, is_above, with_seq};

impl Ring {
    /// Of the last record the place, the tick in milliseconds, and the stamp in milliseconds since 1970. None exactly where
    /// the medium has no record.
    pub fn last(&self) -> Option<(u64, u64, i64)>
        ensures kept { result ≡ option_map (λ e. (e.place, e.tick, e.utc)) self.now.directory.ending }
        ensures last { (placed : List Placed) → Tells self.now.slots placed self.now.directory → result ≡ option_map (λ r. (r.place, r.tick, r.utc)) (last (all_records placed)) }
        ensures known { (known : List Placed) → TellsBy self.now.slots known self.now.directory → result ≡ option_map (λ r. (r.place, r.tick, r.utc)) (last (all_records known)) }
    {
        self.directory
            .ending()
            .map(|ending| (ending.place, ending.tick, ending.utc))
    }

    /// The place of the first record of the last batch. None exactly where the medium has no record.
    pub fn last_batch(&self) -> Option<u64>
        ensures { (placed : List Placed) → Tells self.now.slots placed self.now.directory → result ≡ option_map (λ r. r.place) (last (first_records (batches_in placed))) }
    {
        self.directory.ending().map(|ending| ending.batch)
    }

    /// The open slot whose segment has the least sequence number above `after`, and that number. Where no number is given,
    /// it is the oldest segment's. None exactly where none is above.
    pub fn next_slot(&self, after: Option<u64>) -> Option<(u32, u64)>
        ensures within { IfSome result (λ found. found.0 < self.now.slots) }
        ensures some { IfSome result (λ found. (placed : List Placed) → Tells self.now.slots placed self.now.directory → AreInOrder placed
            → (p : Placed) × IsNext after placed p × (found.0 ≡ p.slot) × (found.1 ≡ seq_of p)) }
        ensures none { IfNone result ((placed : List Placed) → Tells self.now.slots placed self.now.directory → AreInOrder placed
            → (p : Placed) → Contains placed p → IsAbove after (seq_of p) → ⊥) }
    {
        let index = self.directory.index();
        if let Some(slot) = index.next_above(after) {
            return Some(with_seq(index, slot));
        }
        let newest = self.directory.empty_newest()?;
        if !is_above(newest.seq, after) {
            return None;
        }
        Some((newest.slot, newest.seq))
    }

    /// Whether all places from a to b stand in open segments, as they do where b is below a.
    pub fn holds(&self, a: u64, b: u64) -> bool
        ensures placed { (placed : List Placed) → Tells self.now.slots placed self.now.directory → AreInOrder placed → IsTrue result ↔ HoldAll a b placed }
        ensures known { (known : List Placed) → TellsBy self.now.slots known self.now.directory → AreInOrderBy known → IsTrue result ↔ HoldAllBy a b known }
    {
        holds_all(self.directory.index(), a, b)
    }
}
