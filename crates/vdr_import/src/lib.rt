//! What is made of a capture: the feed of its items, and the account of its packets as text.
//!
//! The format, with an example: docs/formats/capture.md.
#![tactic(auto)]

mod account_text;
mod ahead;
mod buffers;
mod counting;
mod importing;
mod laws;
mod next;
mod refused;
mod relay;
mod side;
mod spelling;

pub use counting::count;
pub use importing::import;
pub use laws::{law_of_accounts, law_of_blocks, law_of_files, law_of_imports};
pub use refused::ImportRefused;
