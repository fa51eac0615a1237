//! Records that are read, one after another, and what makes something of them.
//!
//! - A [`Reader`] hands the records that a query selects to a visitor: a recorder over both media, or one medium alone.
//! - A [`Visitor`] makes something of them, such as their text, and prints it as it goes.
//!
//! Tests: vdr_script_tests, scripts play and rescue.
#![tactic(auto)]

mod buffered;
mod reader;
mod visit_refused;
mod visitor;

pub use buffered::visit_buffered;
pub use reader::Reader;
pub use visit_refused::{VisitRefused, VisitorRefused};
pub use visitor::Visitor;
