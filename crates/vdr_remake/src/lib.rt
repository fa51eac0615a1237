//! A medium is made whole from another: what a lost or a new medium lacks, it gets from one that is good.
//!
//! The segments of the good medium are copied as they stand, header, summary and batches, the newest of them, as many as the new medium
//! has slots. So they are in a legal order and as well filled as they were. All is written behind the closed gate of the new medium,
//! with one sync, and then that gate is opened.
#![tactic(auto)]

mod closing;
mod copying;
mod filling;
mod law;
mod refused;
mod remaking;

pub use law::law_of_remakes;
pub use refused::RemakeRefused;
pub use remaking::remake;
