//! The table of incident saves on the long-term medium: how it is read, and how a save is added and released, with
//! what a stop leaves of it at every moment.
//!
//! docs/MEDIA.md, "Incident saves". Tests: vdr_script_tests, script incident.
#![tactic(auto)]

mod law;
mod reading;
mod refused;
mod save;
mod table;
mod writing;

pub use law::{law_of_beside, law_of_tables};
pub use reading::read_save;
pub use refused::{ReleaseRefused, TableRefused};
pub use save::{Save, is_label};
pub use table::Table;
pub use writing::LONG_TERM;
