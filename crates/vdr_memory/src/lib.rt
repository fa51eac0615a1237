//! The outside in memory: objects that tell everything and fail at the calls that they are told to.
#![tactic(auto)]

mod asked;
mod call;
mod contents;
mod counts;
mod datagrams;
mod flag;
mod gated;
mod gated_link;
mod image;
mod item;
mod laws;
mod lines;
mod link;
mod media;
mod meeting;
mod port;
mod ram;
mod sink;
mod source;
mod trace;

pub use call::{Call, Work};
pub use counts::CallCounts;
pub use flag::Flag;
pub use gated::GatedPort;
pub use gated_link::GatedLink;
pub use image::Torn;
pub use item::{PortItem, are_in_order};
pub use laws::law_of_images;
pub use lines::LinkLine;
pub use link::{LinkPlan, MemoryLink};
pub use media::MemoryMedia;
pub use meeting::meeting_ports;
pub use port::MemoryPort;
pub use ram::RamMedia;
pub use sink::MemorySink;
pub use source::MemorySource;
