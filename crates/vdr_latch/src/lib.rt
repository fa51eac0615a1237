//! One value that many threads take in turn, with one history of what they did to it.
//!
//! A [`Latch`] is a ticket lock round a value whose type says what a history of its events leaves ([`Stepped`]). A thread takes a turn with a
//! [`LatchPass`]: it draws a ticket, waits until that is served, lets its [`Job`] work on the value, and serves the next. The turn is one event,
//! at the position in the history that it answers. The history exists in the proofs alone; a pass knows the beginning of it that it has
//! seen, and hands this on as it is split and joined. One pass leads: there are events that no other may make, as the commits of a recorder.
//!
//! That a turn comes, and when, is not proved: a thread that waits for its ticket waits for those before it.
#![tactic(auto)]

mod latch;
mod pass;
mod rule;
mod stepped;
mod turn;
mod view;

pub use latch::{Latch, NoMemory};
pub use pass::LatchPass;
pub use stepped::{Job, Stepped};
