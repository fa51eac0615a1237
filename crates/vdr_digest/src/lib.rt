//! The digest of records: a line with a SHA-256 for each hour of recording time, and one of all these lines.
//!
//! A page of a few lines stands for gigabytes: who has written it down knows later whether a record was changed, left out or added. The
//! lines are a function of the records alone, so that two media that show one history give equal lines for each hour that both hold whole.
#![tactic(auto)]

mod digester;
mod hours;
mod laws;
mod line;
mod span;

pub use digester::Digester;
pub use laws::{law_of_digests, law_of_hours};
