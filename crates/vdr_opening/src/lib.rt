//! What the capsule and the long-term medium hold, or the first part of them that is not legal.
//!
//! Opening writes nothing, and has one answer for each image of the media. It reads what stands before the slots, the
//! front of each slot, and whole only the segments that lack a summary.
//!
//! docs/MEDIA.md, "How the media are opened". Tests: vdr_script_tests, script open.
#![tactic(auto)]

mod ends;
mod law;
mod medium;
mod opened;
mod places;
mod reading;
mod refused;
mod same;
mod superblock;
mod text;

pub use law::{law_of_contents, law_of_empty_media, law_of_parts, law_of_refusals};
pub use opened::Opened;
pub use reading::read_media;
pub use refused::OpenRefused;
pub use text::read_config_of;
pub use vdr_media::MEMBERS;
