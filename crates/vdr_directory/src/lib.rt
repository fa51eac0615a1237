//! What is known of the segments of a medium: how they are opened and judged, and the directory that is kept of them.
#![tactic(auto)]

mod bare;
mod directory;
mod entry;
mod fronts;
mod law;
mod newest;
mod order;
mod segments;
mod surveys;

pub use bare::bare_slots;
pub use directory::Directory;
pub use entry::Entry;
pub use law::{law_of_knowns, law_of_opening};
pub use newest::{Ending, Newest};
pub use segments::read_segments;
