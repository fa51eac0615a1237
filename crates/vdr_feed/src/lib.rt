//! Feeds: the files of items that are reviewed and recorded, their reader and writer, and a generated one.
//!
//! - A [`FeedReader`] gives the items of a source one by one, or the number and the offset of the first refusal. Two
//!   readings of one input agree.
//! - A [`GeneratedFeed`] is a source of as many items as are asked for, which is never refused.
//!
//! The format, with an example: docs/formats/feed.md. Tests: vdr_formats_tests, rows of feeds.
#![tactic(auto)]

mod body;
mod fault;
mod head;
mod item;
mod law;
mod next;
mod reader;
mod trial;
mod trial_law;
mod trial_source;
mod writing;

pub use fault::FeedFault;
pub use item::Item;
pub use law::{law_of_feeds, law_of_written_items};
pub use reader::{FeedReader, LONGEST_FEED};
pub use trial::trial_item;
pub use trial_law::law_of_generated_feeds;
pub use trial_source::GeneratedFeed;
pub use writing::{LONGEST_ITEM, write_item};
