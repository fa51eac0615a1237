//! The bounded queue of one transmission group, between the worker that captures from its port and the recorder.
//! In any schedule of the two, what was popped and then what is queued are the items that were pushed, in order.
#![tactic(auto)]

mod buffer;
mod ends;
mod intake;
mod item;
mod rule;
mod view;

pub use buffer::CapturedBuffer;
pub use ends::{Feeder, Taker};
pub use intake::{Intake, NoMemory};
pub use item::Captured;
