//! Datagrams of IEC 61162-450: their tokens, whether they can be recorded, the lines of sentence datagrams, and the channels that select them.
//!
//! The format, with an example: docs/formats/datagram.md.
#![tactic(auto)]

mod channels;
mod cutting;
mod front;
mod laws;
mod line;
mod line_iterator;
mod marks;
mod sentences;
mod tokens;

pub use channels::channel_bits;
pub use front::token;
pub use laws::{law_of_cutting, law_of_kinds};
pub use line::{Line, LineVerdict};
pub use line_iterator::Lines;
pub use sentences::lines;
pub use tokens::Token;
pub use vdr_terms::{Verdict, recordable};
