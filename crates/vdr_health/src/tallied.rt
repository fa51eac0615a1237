// What a run tallies, as its numbers.
ghost use Rattle.vdr_health.specs.Since.{IsSince};

use vdr_terms::Counts;

/// What is tallied of a group in a run. Each number stays at the greatest u64 once it is there.
#[derive(Clone, Copy, Debug, PartialEq, Eq, Drop)]
pub struct GroupTally {
    /// How many items the group's port had given with the last one that was taken into the run.
    pub taken: u64,
    /// Those of them that the port missed, by cause.
    pub missed: Counts,
}

/// What is tallied of a run: of each group by its number, and of the first item.
#[derive(Drop)]
pub struct RunTally {
    /// Whether a run was begun.
    pub is_open: bool,
    pub groups: [GroupTally; 16],
    /// The UTC stamp of the first item of the run, in milliseconds since 1970, None before it.
    pub since: Option<i64>,
    ghost stamp: { IsSince since },
}
