// What a run adds up to.
ghost use Rattle.std.specs.Prelude.{◌≡◌, ◌<◌, List, [], All};
ghost use Rattle.vdr_terms.specs.Records.{FeedItem};
ghost use Rattle.vdr_core.specs.Feed.{items_of, feed_records};
ghost use Rattle.vdr_core.specs.Runs.{RunStart};
ghost use Rattle.vdr_core.specs.Replay.{taken_of};
ghost use Rattle.vdr_run.specs.Making.{CountsItems};
ghost use Rattle.vdr_run.specs.Given.{CountsFeed, tally_after};
ghost use Rattle.vdr_capture.specs.Sums.{sums_of};
ghost use Rattle.vdr_replay.specs.Summary.{AreSums};

use crate::lanes::Lanes;
use vdr_capture::GroupSums;
use vdr_gap::Tally;
use vdr_recorder::Recorder;
use vdr_terms::Counts;

// The sums of a group, of which a port gave what the tally counts.
fn sums_of(recorder: &Recorder, tally: &Tally, group: u8) -> GroupSums
    requires { group < 16 }
    ensures { (start : RunStart) (feed : List FeedItem) → All (λ i. i.group < 16) feed → CountsItems start (taken_of [] feed) recorder.now.maker
        → tally.now ≡ tally_after feed group → result ≡ sums_of group (items_of group feed) (feed_records start feed) }
{
    let (recorded, rate) = recorder.recorded(group);
    let missed = tally.totals();
    GroupSums {
        taken: tally.taken(),
        recorded,
        counts: Counts { rate, ..missed },
    }
}

/// The sums of each configured group by its number, None for the others.
pub(crate) fn sums(recorder: &Recorder, lanes: &Lanes) -> [Option<GroupSums>; 16]
    ensures { (start : RunStart) (feed : List FeedItem) → All (λ i. i.group < 16) feed → CountsItems start (taken_of [] feed) recorder.now.maker
        → CountsFeed feed lanes.now.ports
        → AreSums recorder.now.vault.config.groups (λ g. items_of g feed) (feed_records start feed) result }
{
    let mut sums = [None; 16];
    for group in 0..16 {
        if recorder.config().groups[group as usize].is_some() {
            sums[group as usize] = Some(sums_of(recorder, lanes.ports.tally(group), group));
        }
    }
    sums
}
