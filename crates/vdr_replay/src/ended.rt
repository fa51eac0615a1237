// How recording a feed ends.
use std::alloc::AllocError;
use vdr_capture::GroupSums;
use vdr_feed::FeedFault;
use vdr_opening::OpenRefused;
use vdr_outside::Fault;
use vdr_recorder::StartRefused;

/// Why reading a feed ended.
#[derive(Clone, Copy, Debug, PartialEq, Eq, Drop)]
pub enum FeedEnd {
    /// It was read to its end.
    Whole,
    /// The source failed, and its count of faults rose.
    Input,
    /// The feed is refused by this number, at the item that begins at this offset, in bytes.
    Refused { number: u8, offset: u64 },
}

/// A run that was closed.
#[derive(Clone, Copy, Debug, PartialEq, Eq, Drop)]
pub struct Replayed {
    /// The sums of each configured group by its number, None for the others.
    pub groups: [Option<GroupSums>; 16],
    /// The records of the run, with its Start and its Stop.
    pub records: u64,
    /// How the feed ended. The items before it are recorded.
    pub end: FeedEnd,
}

/// Why a feed is not recorded. Nothing of it is, but for `Media`.
#[derive(Clone, Copy, Debug, PartialEq, Eq, Drop)]
pub enum ReplayRefused {
    /// There was no memory. Nothing was recorded.
    NoMemory,
    /// The source failed before the first item.
    Input,
    /// The feed has no header.
    Refused { number: u8, offset: u64 },
    /// The media are not formatted.
    NotFormatted,
    /// This part of a medium is not legal, at this offset in bytes.
    Damaged { medium: u8, offset: u64 },
    /// The next place is 2^62 or more.
    Place,
    /// The run would begin at a tick of 2^62 or more.
    Tick,
    /// A call on the media failed. What was recorded before it stays; the run is broken off.
    Media,
}

impl From<FeedFault> for ReplayRefused {
    ghost use Rattle.std.specs.Prelude.{◌≡◌};
    ghost use Rattle.vdr_replay.specs.Refusals.{refused_by_feed};

    ghost from_gives = { λ fault stop. stop ≡ refused_by_feed fault };

    fn from(fault: FeedFault) -> ReplayRefused {
        match fault {
            FeedFault::Fault => ReplayRefused::Input,
            FeedFault::Refused { number, offset } => ReplayRefused::Refused { number, offset },
        }
    }
}

impl From<OpenRefused> for ReplayRefused {
    ghost use Rattle.std.specs.Prelude.{◌≡◌};
    ghost use Rattle.vdr_replay.specs.Refusals.{refused_by_opening};

    ghost from_gives = { λ refused stop. stop ≡ refused_by_opening refused };

    fn from(refused: OpenRefused) -> ReplayRefused {
        match refused {
            OpenRefused::NoMemory => ReplayRefused::NoMemory,
            OpenRefused::NotFormatted => ReplayRefused::NotFormatted,
            OpenRefused::Damaged { medium, offset } => ReplayRefused::Damaged { medium, offset },
            OpenRefused::Fault => ReplayRefused::Media,
        }
    }
}

impl From<AllocError> for ReplayRefused {
    ghost use Rattle.std.specs.Prelude.{◌≡◌};
    ghost use Rattle.vdr_replay.specs.declared.ended.ReplayRefused.TheVariants as stops;

    ghost from_gives = { λ _ stop. stop ≡ stops.NoMemory };

    fn from(_: AllocError) -> ReplayRefused {
        ReplayRefused::NoMemory
    }
}

impl From<StartRefused> for ReplayRefused {
    ghost use Rattle.std.specs.Prelude.{◌≡◌};
    ghost use Rattle.vdr_replay.specs.Refusals.{refused_by_start};

    ghost from_gives = { λ refused stop. stop ≡ refused_by_start refused };

    fn from(refused: StartRefused) -> ReplayRefused {
        match refused {
            StartRefused::Place => ReplayRefused::Place,
            StartRefused::Tick => ReplayRefused::Tick,
            StartRefused::Fault => ReplayRefused::Media,
        }
    }
}

impl From<Fault> for ReplayRefused {
    ghost use Rattle.std.specs.Prelude.{◌≡◌};
    ghost use Rattle.vdr_replay.specs.declared.ended.ReplayRefused.TheVariants as stops;

    ghost from_gives = { λ _ stop. stop ≡ stops.Media };

    fn from(_: Fault) -> ReplayRefused {
        ReplayRefused::Media
    }
}
