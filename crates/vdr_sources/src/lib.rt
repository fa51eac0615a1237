//! The table of sources: what the lines of sentence datagrams say of each transmission group and source.
//!
//! The format, with an example: docs/formats/printed.md.
#![tactic(auto)]

mod line;
mod place;
mod row;
mod table;

pub use row::Row;
pub use table::SourceTable;
