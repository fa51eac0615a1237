// The order in a medium (this project's profile).
//
// A summary that can't stand for records breaks the order at its header: one of no records, one that ends before it
// begins, one with a place or a millisecond from 2^63 on. Of two segments of one number the one in the later slot
// does.
ghost use Rattle.std.specs.Prelude.{◌≡◌, ◌↔◌, ◌<◌, ◌≤◌, ◌-◌, ℕ, suc, List, IsTrue, Option, IfSome, IfNone, MatchOption, SomeIff, Some, None, length, option_copied, slice_get};
ghost use Rattle.vdr_directory.specs.Sequence.{Placed, first_of};
ghost use Rattle.vdr_directory.specs.Knowns.{next_known, HasNoneBy, MayStand, IsWhole, RunsOnBy, TicksRiseBy, SecondsRiseBy, FollowsBy, MayFollowBy, MayPrecedeBy, IsInPlaceBy, AreInOrderBy, BreaksBy};
ghost use Rattle.vdr_directory.specs.Entries.{Describes, DescribesAny, Describe};

use crate::entry::Entry;
use vdr_entry::Summary;

// Sequence numbers are below this.
const SEQ_END: u64 = 1 << 63;

fn has_records(entry: &Entry) -> bool
    ensures { (p : Placed) → Describes p entry.now → IsTrue result ↔ (HasNoneBy p → ⊥) }
{
    match entry.summary {
        Some(summary) => summary.count > 0,
        None => entry.extent().is_some(),
    }
}

// Whether a summary may stand for the records of a segment with this first place.
fn may_stand(first: u64, summary: &Summary) -> bool
    ensures { IsTrue result ↔ MayStand first summary.now }
{
    summary.first_second <= summary.last_second
        && summary.last_second <= (SEQ_END - 1) / 1000
        && first <= SEQ_END
        && summary.count as u64 <= SEQ_END - first
}

// Whether what is known of a segment's records runs on: by its summary where it has one, else by its survey.
fn is_whole(entry: &Entry) -> bool
    ensures { (p : Placed) → Describes p entry.now → IsTrue result ↔ IsWhole p }
{
    match (entry.summary, entry.survey) {
        (Some(summary), _) => may_stand(entry.first, &summary),
        (None, Some(survey)) => survey.in_order,
        (None, None) => false,
    }
}

// What a segment has to be by itself.
fn runs_on(entry: &Entry) -> bool
    ensures { (p : Placed) → Describes p entry.now → IsTrue result ↔ RunsOnBy p }
{
    entry.seq < SEQ_END && entry.seq <= entry.first && is_whole(entry)
}

// The place of a segment's last record. None where it has none. One that runs on has it below 2^63.
fn last_place(entry: &Entry) -> Option<u64>
    ensures { (p : Placed) → Describes p entry.now → RunsOnBy p → MatchOption result (HasNoneBy p) (λ place. suc place ≡ next_known p) }
{
    match entry.summary {
        Some(summary) if summary.count > 0 => {
            Some(entry.first.saturating_add((summary.count - 1) as u64))
        }
        Some(_) => None,
        None => match entry.extent() {
            Some(extent) => Some(extent.last_place),
            None => None,
        },
    }
}

// How many places are left out between the end of one segment and the beginning of another. None where they overlap.
fn places_between(before: &Entry, entry: &Entry) -> Option<u64>
    ensures { (q p : Placed) → Describes q before.now → Describes p entry.now → RunsOnBy q → SomeIff result (next_known q ≤ first_of p) (first_of p - next_known q) }
{
    match last_place(before) {
        None => entry.first.checked_sub(before.first),
        Some(last) => entry.first.checked_sub(last)?.checked_sub(1),
    }
}

// Whether ticks do not fall from one segment to another, where neither has a summary.
fn ticks_rise(before: &Entry, entry: &Entry) -> bool
    ensures { (q p : Placed) → Describes q before.now → Describes p entry.now → IsTrue result ↔ TicksRiseBy q p }
{
    match (before.extent(), entry.extent()) {
        (Some(earlier), Some(later)) => earlier.last_tick <= later.first_tick,
        _ => true,
    }
}

// Whether seconds do not fall from one segment to another.
fn seconds_rise(before: &Entry, entry: &Entry) -> bool
    ensures { (q p : Placed) → Describes q before.now → Describes p entry.now → IsTrue result ↔ SecondsRiseBy q p }
{
    match (before.known_summary(), entry.known_summary()) {
        (Some(earlier), Some(later)) => earlier.last_second <= later.first_second,
        _ => true,
    }
}

// Whether recording time does not fall from one segment to another.
fn times_rise(before: &Entry, entry: &Entry) -> bool
    ensures { (q p : Placed) → Describes q before.now → Describes p entry.now → IsTrue result ↔ (TicksRiseBy q p × SecondsRiseBy q p) }
{
    ticks_rise(before, entry) && seconds_rise(before, entry)
}

// What a segment has to be behind another that runs on.
fn follows(before: &Entry, entry: &Entry) -> bool
    ensures { (q p : Placed) → Describes q before.now → Describes p entry.now → RunsOnBy q → IsTrue result ↔ FollowsBy q p }
{
    let Some(skipped) = places_between(before, entry) else {
        return false;
    };
    let Some(step) = entry.seq.checked_sub(before.seq) else {
        return false;
    };
    match step {
        0 => false,
        1 => skipped == 0 && times_rise(before, entry),
        _ => has_records(entry) && times_rise(before, entry),
    }
}

// What a segment has to be before these.
fn may_precede(entry: &Entry, after: &[Entry]) -> bool
    ensures { (p : Placed) (ps : List Placed) → Describes p entry.now → Describe ps after.now → IsTrue result ↔ MayPrecedeBy p ps }
{
    match after {
        [] => entry.summary.is_none(),
        [next] => has_records(entry) && (has_records(next) || entry.summary.is_none()),
        _ => has_records(entry),
    }
}

// What a segment has to be that none comes before.
fn may_begin(entry: &Entry) -> bool
    ensures { (p : Placed) → Describes p entry.now → IsTrue result ↔ MayFollowBy None p }
{
    has_records(entry) || entry.first == 0
}

// What a segment has to be behind the one before.
fn may_follow(before: Option<&Entry>, entry: &Entry) -> bool
    ensures { (o : Option Placed) (p : Placed) → DescribesAny o (option_copied before.entry) → Describes p entry.now → IfSome o RunsOnBy → IsTrue result ↔ MayFollowBy o p }
{
    match before {
        None => may_begin(entry),
        Some(before) => follows(before, entry),
    }
}

// Whether a segment is in its place between these.
fn is_in_place(before: Option<&Entry>, entry: &Entry, after: &[Entry]) -> bool
    ensures { (o : Option Placed) (p : Placed) (ps : List Placed) → DescribesAny o (option_copied before.entry) → Describes p entry.now → Describe ps after.now → IfSome o RunsOnBy → IsTrue result ↔ IsInPlaceBy o p ps }
{
    runs_on(entry) && may_follow(before, entry) && may_precede(entry, after)
}

// The index of the first segment that breaks the order, as far as is known of it. On a medium in order there is none.
pub(crate) fn first_break(entries: &[Entry]) -> Option<usize>
    ensures within { IfSome result (λ i. i < length entries.now) }
    ensures none { IfNone result ((placed : List Placed) → Describe placed entries.now → AreInOrderBy placed) }
    ensures some { IfSome result (λ i. (placed : List Placed) → Describe placed entries.now → (x : Placed) × (slice_get placed i ≡ Some x) × BreaksBy None placed x) }
{
    let mut before = None;
    for (i, entry) in entries.iter().enumerate() {
        if !is_in_place(before, entry, &entries[i + 1..]) {
            return Some(i);
        }
        before = Some(entry);
    }
    None
}
