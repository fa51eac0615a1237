//! The recorder's configuration: what it is, its text, and what it needs of its media.
//!
//! The format, with an example: docs/formats/configuration.md.
#![tactic(auto)]

mod bad;
mod channel;
mod channels;
mod config;
mod fit;
mod form;
mod groups;
mod keys;
mod law;
mod media;
mod profile;
mod reading;
mod scope;

pub use bad::{ConfigBad, KeyPath};
pub use channel::{Channel, ChannelKind};
pub use config::Config;
pub use fit::{fits, needed_slots, needs};
pub use law::law_of_ranges;
pub use media::{Needs, TooSmall};
pub use profile::Profile;
pub use reading::{LONGEST_TEXT, SHIP_CAPSULE_SECONDS, read_config};
pub use vdr_terms::Rate;
