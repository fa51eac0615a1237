//! Bytes as lines of base64: how a file goes over a link, which carries lines.
//!
//! The lines, with an example: docs/formats/words.md.
#![tactic(auto)]

mod laws;
mod lines;
mod pending;
mod printer;

pub use laws::{law_of_lines, law_of_printing};
pub use lines::print_lines;
pub use printer::{Base64Printer, PrinterStop};
