// The law of generated feeds: each is a feed of its items.
ghost use Rattle.std.specs.Prelude.{◌≤◌, ℕ};
ghost use Rattle.vdr_feed.specs.Feed.{IsFeed, longest_feed};
ghost use Rattle.vdr_feed.specs.Generated.{generated_feed, items_from};

/// The generated feed is a feed of its items, also for a reader of at most `LONGEST_FEED` items. By `crate::law_of_feeds` it is one of
/// no others, and is not refused.
pub fn law_of_generated_feeds()
    ensures { (seed count : ℕ) → count ≤ 1_000_000 → IsFeed longest_feed (generated_feed seed count) (items_from count seed 0) }
{}
