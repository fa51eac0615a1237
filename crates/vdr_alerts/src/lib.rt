//! Bridge alerts by what the sentences ALF and ALC say (IEC 61924-2, IEC 61162-1; when a line is printed is this project's profile), and what
//! all lines of supervision have in common: how they begin, and tables in order.
//!
//! The format, with an example: docs/formats/printed.md.
//!
//! An alert that comes in two sentences is told once both are there: its state stands in the first one, and nothing is
//! told of the first alone. A list in several sentences counts once all of them came, directly behind one another.
#![tactic(auto)]

mod alert;
mod board;
mod line;
mod mark;
mod part;
mod print;
mod rows;
mod saying;

pub use board::Board;
pub use line::{NONE, letter_text, print_line, print_text};
pub use mark::Mark;
pub use rows::{found, put_row};
pub use saying::{Saying, saying_of};
