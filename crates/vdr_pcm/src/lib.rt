//! Datagrams of sound: frames of PCM samples, and how one frame follows another.
//!
//! The token `PcmFr` and the layout of a frame are this project's profile.
//!
//! The format, with an example: docs/formats/pcm.md.
#![tactic(auto)]

mod frame;
mod frame_number;
mod laws;
mod read;
mod step;
mod track;

pub use frame::PcmFrame;
pub use laws::law_of_pcm;
pub use read::read_pcm;
pub use step::PcmStep;
pub use track::PcmTrack;
