//! The orders that a recorder in use takes, and the words that ask for them.
//!
//! The format, with an example: docs/formats/words.md.
#![tactic(auto)]

mod export;
mod laws;
mod line;
mod order;
mod play;
mod word;

pub use export::Exporting;
pub use laws::{law_of_lines, law_of_plays};
pub use line::read_order;
pub use order::{Order, Telling};
pub use play::read_play;
