//! A piece of a long text, which is gathered and sent before the next one is made.
#![tactic(auto)]

mod piece;

pub use piece::{FULL, LONGEST_PART, Piece};
