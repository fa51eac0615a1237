//! The reader of captures: the files of tcpdump, dumpcap and Wireshark, as pcap and pcapng.
//!
//! The format, with an example: docs/formats/capture.md.
#![tactic(auto)]

mod account;
mod blocks;
mod buffers;
mod fault;
mod filling;
mod form;
mod fronts;
mod law;
mod lent;
mod numbers;
mod options;
mod reader;
mod saying;
mod stamps;
mod steps;
mod taking;
mod unit;
mod units;
mod within;

pub use account::{Account, ROWS};
pub use fault::CaptureFault;
pub use law::{law_of_captured_items, law_of_captures};
pub use lent::LentItem;
pub use reader::CaptureReader;
pub use within::Within;
