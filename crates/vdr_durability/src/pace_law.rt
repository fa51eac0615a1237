// The laws of pace: how many bytes a recorder commits in a second, and that each of its batches may come next.
//
// A record that is no Gap pays for its batch's five bytes: each batch has one in the second of its first record.
// With the Gap before it a Datagram costs 133 bytes and its own, of 140; a Start and a Stop 49 each, of the 128 that
// each second has.
ghost use Rattle.std.specs.Prelude.{◌≡◌, ◌<◌, ◌≤◌, ◌+◌, ◌*◌, ◌/◌, [], ◌∷◌, ◌++◌, ℕ, List, All, length, map, sum_by};
ghost use Rattle.vdr_terms.specs.declared.counts.Counts.{Counts};
ghost use Rattle.vdr_terms.specs.Needs.{Sizes, cost};
ghost use Rattle.vdr_terms.specs.Rates.{Limit};
ghost use Rattle.vdr_terms.specs.Records.{Record};
ghost use Rattle.vdr_terms.specs.Sizes.{records_size};
ghost use Rattle.vdr_core.specs.Histories.{Act, records_of_act};
ghost use Rattle.vdr_core.specs.Histories.Act.{Commit};
ghost use Rattle.vdr_core.specs.Recorder.{begun, closing, recorder_after};
ghost use Rattle.vdr_core.specs.RunStates.{AreMadeFrom, RunState};
ghost use Rattle.vdr_core.specs.Runs.{RunStart};
ghost use Rattle.vdr_core.specs.Taken.{Captured};
ghost use Rattle.vdr_durability.specs.Layout.{Batches, batch_size_at, batches_in};
ghost use Rattle.vdr_durability.specs.Regular.{IsPaced};
ghost use Rattle.vdr_durability.specs.Commits.{AreDoneFrom, IsDoneIn, IsFit, closing_size, items_size, largest_item, least_item, start_size};
ghost use Rattle.vdr_durability.specs.Media.{AreLimitsOf, IsAppended, IsMediumOf, IsOpened, state_after};

/// How many bytes the records take that a recorder commits: those of an item at most 128 and its own, and those of a close at
/// most 1,388. So a batch has room for the records of an item for each 1,600 of its bytes, where none has more than 1,472, and
/// for no more items than one for each 128.
pub fn law_of_sizes()
    ensures start { (start : RunStart) → records_size (begun start).made ≡ start_size }
    ensures items { (start : RunStart) (before more : List Captured) (new : List Record)
        → (recorder_after start (before ++ more)).made ≡ (recorder_after start before).made ++ new → records_size new ≤ items_size more }
    ensures few { (limits : ℕ → Limit) (batch : ℕ) (items : List Captured) → All (IsFit limits) items → length items ≤ batch / largest_item → items_size items ≤ batch }
    ensures count { (batch : ℕ) (items : List Captured) → items_size items ≤ batch → length items ≤ batch / least_item }
    ensures close { (start : RunStart) (before : List Captured) (rest : ℕ → Counts) → records_size (closing start (recorder_after start before) rest) ≤ closing_size }
{}

/// The pace of a recorder: no second has more bytes of all batches, those that stood on a medium when it was opened and those
/// that were committed since, than its cost. So what a recorder commits is a batch that may come next on each of its media,
/// in whatever way the items were cut into batches.
pub fn law_of_pace()
    ensures seconds { (sizes : Sizes) (start : RunStart) (opened : List Batches) (acts : List Act) → AreLimitsOf sizes start.limits
        → IsOpened (cost sizes) start opened → AreDoneFrom start.limits sizes.batch (state_after start []) acts
        → (s : ℕ) → sum_by (batch_size_at s) (batches_in opened ++ map records_of_act acts) ≤ cost sizes }
    ensures batch { (sizes : Sizes) (start : RunStart) (opened : List Batches) (acts : List Act) (segments : List Batches) (records : List Record) (taken : List Captured)
        → IsMediumOf sizes start opened acts segments → closing_size ≤ sizes.batch
        → IsDoneIn start.limits sizes.batch (state_after start acts) (Commit records taken)
        → 0 < length records → IsPaced (cost sizes) sizes.batch segments records }
    ensures made { (limits : ℕ → Limit) (batch : ℕ) (s : RunState) (acts : List Act) → AreDoneFrom limits batch s acts → AreMadeFrom s acts }
{}

/// What a medium has of a recorder's batches, at its opening, once a batch was appended, and after an act that records
/// nothing; and the three ways of an append: into the newest segment, into one that was begun for it, and into one that was
/// begun in the victim's place.
pub fn law_of_media()
    ensures opened { (sizes : Sizes) (start : RunStart) (opened : List Batches) → AreLimitsOf sizes start.limits → IsOpened (cost sizes) start opened
        → IsMediumOf sizes start opened [] opened }
    ensures appended { (sizes : Sizes) (start : RunStart) (opened : List Batches) (acts : List Act) (before after : List Batches) (records : List Record) (taken : List Captured)
        → IsMediumOf sizes start opened acts before → IsDoneIn start.limits sizes.batch (state_after start acts) (Commit records taken) → 0 < length records
        → IsAppended before records after → IsMediumOf sizes start opened (acts ++ Commit records taken ∷ []) after }
    ensures silent { (sizes : Sizes) (start : RunStart) (opened : List Batches) (acts : List Act) (segments : List Batches) (act : Act)
        → IsMediumOf sizes start opened acts segments → IsDoneIn start.limits sizes.batch (state_after start acts) act → records_of_act act ≡ []
        → IsMediumOf sizes start opened (acts ++ act ∷ []) segments }
    ensures fits { (older : List Batches) (newest : Batches) (batch : List Record) → IsAppended (older ++ newest ∷ []) batch (older ++ (newest ++ batch ∷ []) ∷ []) }
    ensures begun { (segments : List Batches) (batch : List Record) → IsAppended segments batch (segments ++ (batch ∷ []) ∷ []) }
    ensures replaced { (before : List Batches) (victim : Batches) (after : List Batches) (batch : List Record)
        → IsAppended (before ++ victim ∷ after) batch ((before ++ after) ++ (batch ∷ []) ∷ []) }
{}
