//! What media are, by what opening them reads: how much of each is used, where its records begin and end, which incidents are
//! saved, and the text of the configuration.
//!
//! Nothing is written. Of a segment whose header has a summary the batches are not read.
//!
//! The lines, with an example: docs/formats/printed.md. Tests: vdr_script_tests, script info.
#![tactic(auto)]

mod held;
mod info;
mod line;
mod slots;
mod surveying;
mod teller;
mod text;

pub use held::{Held, Stand};
pub use info::{Info, read_info};
pub use line::{medium_line, push_config};
pub use slots::count_used;
pub use surveying::area_of;
pub use teller::Teller;
pub use text::read_text;
