//! The capsule and the long-term medium as one vault: a batch goes to both, and both are played.
//!
//! What was acknowledged is on the media after a stop at any moment, and over any number of runs and stops they hold
//! just what was recorded.
//!
//! - The [`Vault`] is opened, commits batches, saves and releases incidents, and gives the records that a query
//!   selects.
//! - A play that goes on in turns is known by places, a [`Stretch`], which is read in parts.
//! - A visit hands these records to a visitor, which makes something of them, such as their text.
//! - The laws of a life say what media hold that were formatted once and then used, run after run.
//!
//! docs/MEDIA.md, "How the media are opened" and "How a batch goes to both media". Tests: vdr_script_tests, scripts
//! stop, wrap, incident and life.
#![tactic(auto)]

mod appending;
mod asking;
mod bringing;
mod commit;
mod each;
mod law;
mod life_law;
mod open;
mod pins;
mod play;
mod questions;
mod refused;
mod saving;
mod stretch;
mod vault;
mod visit;

pub use asking::accept;
pub use law::{law_of_meeting, law_of_sound_media, law_of_vaults};
pub use life_law::{law_of_lives, law_of_ours};
pub use play::law_of_budgets;
pub use refused::SaveRefused;
pub use stretch::{Part, Stretch, law_of_stretches};
pub use vault::Vault;
pub use visit::visit_selected;
