//! The runs of the recorder, as its records tell them: when it recorded, how each run ended, and what it missed.
//!
//! The format, with an example: docs/formats/printed.md.
#![tactic(auto)]

mod laws;
mod print;
mod run;
mod runs;

pub use laws::law_of_runs;
pub use runs::Runs;
