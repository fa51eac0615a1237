// The laws of feeds: two readings of one input agree, and what is written reads back.
ghost use Rattle.vdr_feed.specs.Law.{OneFeed, NoFeedIsRefused, OneRefusal, ReadsBack};

/// Two readings of one input agree: the items of a feed are unique, a feed is not refused, and what is refused is refused
/// by one number at one offset. So a caller that answers one of these answers no other.
pub fn law_of_feeds()
    ensures items { OneFeed }
    ensures feed { NoFeedIsRefused }
    ensures refusal { OneRefusal }
{}

/// What `crate::write_item` writes reads back: where a legal item is spelled it is not refused, and it is read as that item
/// and no other, whatever stands behind it.
pub fn law_of_written_items()
    ensures { ReadsBack }
{}
