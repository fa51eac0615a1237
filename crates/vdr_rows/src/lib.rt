//! The table of values that records give, as CSV: what each field of a sentence says, what AIS messages report, and where nothing was recorded.
//!
//! The format, with an example: docs/formats/table.md.
#![tactic(auto)]

mod carriers;
mod decimal;
mod fix;
mod heading;
mod item;
mod laws;
mod lines;
mod marks;
mod measure;
mod names;
mod number;
mod numbers;
mod pieces;
mod quoted;
mod reported;
mod row;
mod rows;
mod said;
mod seeking;
mod sentence;
mod words;

pub use decimal::{Decimal, decimal_text};
pub use fix::{Fix, fix_of, may_fix};
pub use laws::{law_of_decimal_places, law_of_fields, law_of_rows, law_of_table};
pub use numbers::{
    NumberSaid, PositionSaid, may_carry_part, may_carry_parts, number_of_column, position_said,
};
pub use rows::Rows;
