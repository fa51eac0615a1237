//! Histories, and the laws of runs.
//!
//! A history is what the media held when they were opened and each event since then, and a run is what is recorded
//! between a Start and a Stop. However the threads interleave, each item that a port gives in a run is recorded once,
//! in the port's order, or counted in a Gap by its cause.
//!
//! - Histories: `specs/Histories`, which every layer above speaks of.
//! - The recorder as a machine of steps, over all runs: `specs/Machine` and `specs/Recorder`.
//! - What a run adds up to, and that its records run on: the laws below.
//!
//! It has laws and no code: docs/PROVED.md.
//!
//! In a history of the machine the power may fail and the run go on with the next; a recorder's history begins anew
//! with each opening. Each stretch between two failures is one, since the machine may begin at any place and stamp.
#![tactic(auto)]

ghost use Rattle.std.specs.Prelude.{◌≡◌, ◌<◌, List, [], Option, ℕ};
ghost use Rattle.vdr_terms.specs.declared.counts.Counts.{Counts};
ghost use Rattle.vdr_terms.specs.Records.{FeedItem};
ghost use Rattle.vdr_core.specs.Feed.{feed_records};
ghost use Rattle.vdr_core.specs.Recorder.{Recorder, closed_run, recorder_after};
ghost use Rattle.vdr_core.specs.Runs.{RunStart, Stamp};
ghost use Rattle.vdr_core.specs.Shapes.{IsClosedRun, IsOpenRun, NoEmptyGap};
ghost use Rattle.vdr_core.specs.Sums.{AddsUp};
ghost use Rattle.vdr_core.specs.Taken.{Captured, of_group};
ghost use Rattle.vdr_core.specs.Machine.{Plan, Step, after, opened};
ghost use Rattle.vdr_core.specs.Commits.{
  ClosesComeNext,
  FurtherItemsComeNext,
  IsRecorders,
  MadeHistoriesRunOn,
  PowerLasts,
};
ghost use Rattle.vdr_core.specs.Ended.{
  AllHaveEnded,
  AllRunsAddUp,
  AllRunsCountFull,
  HistoryRunsOn,
  RunsAreConsecutive,
};
ghost use Rattle.vdr_core.specs.Law.{
  Admits,
  AllRunsAccount,
  ClosedRunsAccount,
  ClosedRunsAreRuns,
  CutRunsAccount,
  CutRunsAreRuns,
  EachItemHasItsPlace,
  FrontsOfRuns,
  HistoryIsRuns,
};
ghost use Rattle.vdr_core.specs.Replay.{
  FeedAccounts,
  FeedsAreRuns,
  GoesOn,
  IsAllTaken,
  IsOfGroups,
  IsReplay,
  NumbersAddUp,
  RecordsAreFew,
  rest_after,
  taken_of,
};
ghost use Rattle.vdr_core.specs.Summary.{CloseAddsUp, ClosedRunsAddUp, ClosedRunsCountFull, FeedsAddUp, ItemAddsUp};

/// Whatever was recorded before, and whatever steps come, in whatever order: each item that a port gave in the present
/// run is recorded, counted, queued or with its worker, in the port's order; each closed run accounts for all items; a
/// run that was cut off accounts for the first of them.
pub fn law()
    ensures present { (plan : Plan) → Admits plan.limits → (place : ℕ) (last : Option Stamp) (steps : List Step) → EachItemHasItsPlace plan (after plan steps (opened place last)) }
    ensures history { (plan : Plan) → Admits plan.limits → (place : ℕ) (last : Option Stamp) (steps : List Step) → HistoryIsRuns plan (after plan steps (opened place last)) }
    ensures runs { (plan : Plan) → Admits plan.limits → (place : ℕ) (last : Option Stamp) (steps : List Step) → AllRunsAccount plan (after plan steps (opened place last)) }
{}

/// The same machine, run by run: each run began where the one before it ended; each that ended has its shape, and each
/// that was closed its sums and its full counts; and the records of all runs have places, bits and ticks that run on.
pub fn law_of_runs()
    ensures begins { (plan : Plan) → Admits plan.limits → (place : ℕ) (last : Option Stamp) (steps : List Step) → RunsAreConsecutive plan place last (after plan steps (opened place last)) }
    ensures ended { (plan : Plan) → Admits plan.limits → (place : ℕ) (last : Option Stamp) (steps : List Step) → AllHaveEnded (after plan steps (opened place last)) }
    ensures sums { (plan : Plan) → Admits plan.limits → (place : ℕ) (last : Option Stamp) (steps : List Step) → AllRunsAddUp (after plan steps (opened place last)) }
    ensures full { (plan : Plan) → Admits plan.limits → (place : ℕ) (last : Option Stamp) (steps : List Step) → AllRunsCountFull plan (after plan steps (opened place last)) }
    ensures records { (plan : Plan) → Admits plan.limits → (place : ℕ) (last : Option Stamp) (steps : List Step) → HistoryRunsOn plan place last (after plan steps (opened place last)) }
{}

/// The accounts, places, bits and ticks of a run by what was taken from the queues alone, in whatever order over the
/// groups: of a closed run, and of one that was cut off when some of it was taken.
pub fn law_of_taken()
    ensures closed { (start : RunStart) → Admits start.limits → ClosedRunsAccount start }
    ensures records { (start : RunStart) → Admits start.limits → ClosedRunsAreRuns start }
    ensures cut { (start : RunStart) → Admits start.limits → CutRunsAccount start }
    ensures cut_records { (start : RunStart) → Admits start.limits → CutRunsAreRuns start }
    ensures fronts { (start : RunStart) → FrontsOfRuns start }
{}

/// The history of a feed is the run in which its recordable items are taken one by one, and it accounts for the feed.
pub fn law_of_feed()
    ensures run { (start : RunStart) → IsReplay start }
    ensures taken { (feed : List FeedItem) → IsOfGroups feed → IsAllTaken feed }
    ensures accounts { (start : RunStart) → Admits start.limits → FeedAccounts start }
    ensures records { (start : RunStart) → Admits start.limits → FeedsAreRuns start }
{}

/// What one more item of a feed changes, and how a group's numbers add up, and how many records there are at most: for those who read a feed item by item.
pub fn law_of_item()
    ensures goes_on { (start : RunStart) (feed : List FeedItem) (x : FeedItem) → GoesOn start feed x }
    ensures numbers { (start : RunStart) (feed : List FeedItem) (g : ℕ) → NumbersAddUp start feed g }
    ensures few { (start : RunStart) (feed : List FeedItem) → RecordsAreFew start feed }
{}

/// The sums of a closed run and of a feed, group by group: what was given was recorded or counted once, and what the rate
/// refused is what was popped less what was recorded. For a recorder that keeps these sums: what it has counted of the
/// items so far, what one more item adds, and what the close adds.
pub fn law_of_sums()
    ensures closed { (start : RunStart) → ClosedRunsAddUp start }
    ensures feed { (start : RunStart) → FeedsAddUp start }
    ensures so_far { (start : RunStart) (items : List Captured) (g : ℕ) → AddsUp g (of_group g items) (recorder_after start items) }
    ensures item { (start : RunStart) (r : Recorder) (c : Captured) → ItemAddsUp start r c }
    ensures close { (start : RunStart) (items : List Captured) (rest : ℕ → Counts) (g : ℕ) → g < 16 → CloseAddsUp start items rest g }
{}

/// The full counts of a closed run, by the full steps that each queue's feeder counted: for those who capture.
pub fn law_of_full_counts()
    ensures { (start : RunStart) → ClosedRunsCountFull start }
{}

/// The shape of a run as it is made, of a closed run and of the history of a feed.
pub fn law_of_shapes()
    ensures made { (start : RunStart) (items : List Captured) → IsOpenRun start items (recorder_after start items).made }
    ensures closed { (start : RunStart) (items : List Captured) (rest : ℕ → Counts) → IsClosedRun start items (closed_run start items rest) }
    ensures feed { (start : RunStart) (feed : List FeedItem) → IsClosedRun start (taken_of [] feed) (feed_records start feed) }
{}

/// What a commit adds to a run: what further items make, or a close, comes next; and so the records of a whole history, in
/// which each commit has exactly what its items make, run on. While the power lasts, the machine's history is such a one,
/// and the machine has what it leaves.
pub fn law_of_commits()
    ensures further { (start : RunStart) → FurtherItemsComeNext start }
    ensures close { (start : RunStart) → ClosesComeNext start }
    ensures records { (start : RunStart) → MadeHistoriesRunOn start }
    ensures history { (plan : Plan) (place : ℕ) (last : Option Stamp) (steps : List Step) → PowerLasts steps → IsRecorders plan place last (after plan steps (opened place last)) }
{}

/// No Gap says that nothing was missed, in a run as it is made, in a closed run and in the history of a feed.
pub fn law_of_gaps()
    ensures made { (start : RunStart) (items : List Captured) → NoEmptyGap (recorder_after start items).made }
    ensures closed { (start : RunStart) (items : List Captured) (rest : ℕ → Counts) → NoEmptyGap (closed_run start items rest) }
    ensures feed { (start : RunStart) (feed : List FeedItem) → NoEmptyGap (feed_records start feed) }
{}
