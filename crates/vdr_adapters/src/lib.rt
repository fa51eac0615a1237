//! The objects of the outside over the operating system: the standard streams, and the media as files. They tell no content, and count
//! their faults.
//!
//! Which file a call on a medium reaches, and how, is proved over a folder and its files as traits (`folder`): those of the operating
//! system (`system`) hand each call on.
#![tactic(auto)]

mod file;
mod file_maker;
mod filling;
mod folder;
mod maker;
mod making;
mod media;
mod standard;
mod streams;
mod syncs;
mod system;
mod trouble;

pub use file_maker::FileMaker;
pub use folder::{Access, MediaFolder, MediumFile, NewMedia, Unopened};
pub use maker::{MediaMaker, NotMade};
pub use making::Unmade;
pub use media::FileMedia;
pub use standard::StandardStreams;
pub use streams::{StdIn, StdOut};
pub use system::{SystemFile, SystemFolder};
pub use trouble::Trouble;
