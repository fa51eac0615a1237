//! A page to look at: what records say as rows of a data block, between the two texts of a template.
//!
//! The format, with an example: docs/formats/page.md.
#![tactic(auto)]

mod closing;
mod draft;
mod field;
mod front;
mod gathering;
mod laws;
mod ledger;
mod load;
mod marks;
mod own;
mod printer;
mod printing;
mod runs;
mod series;
mod survey;
mod surveyor;
mod tellings;
mod template;

pub use front::{PageWords, Save, print_front};
pub use laws::{
    law_of_gap_rows, law_of_pages, law_of_quiet_bytes, law_of_rows, law_of_run_rows, law_of_steps,
};
pub use printer::PagePrinter;
pub use survey::Survey;
pub use surveyor::Surveyor;
