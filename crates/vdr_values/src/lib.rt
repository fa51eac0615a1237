//! Readings of the sentences of IEC 61162-1 whose fields are known: what each field says, and the text that this is printed as.
//!
//! The format, with an example: docs/formats/readings.md.
#![tactic(auto)]

mod bad;
mod column;
mod escape;
mod form;
mod laws;
mod place;
mod print;
mod read;
mod reading;
mod row;
mod spelling;
mod table;
mod text;
mod value;

pub use bad::BadField;
pub use column::{Asserts, Column, Item, Measure, Quantity, Validity, Which, Words};
pub use escape::print_escaped;
pub use laws::law_of_reading;
pub use print::{print_reading, print_value};
pub use reading::{Reading, read_value};
pub use row::formatter_of;
pub use text::trimmed;
pub use value::{Angle, Date, Num, Time, Value};
