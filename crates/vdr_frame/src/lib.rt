//! What a captured packet is: a datagram to the port of a transmission group, wholly or in part, or why it is none.
//!
//! Frames of Ethernet (IEEE 802.3, 802.1Q tags), of Linux cooked captures and loopback, and raw IP; IPv4 (RFC 791), UDP
//! (RFC 768). Numbers in them are big-endian. The ports are those of this project's profile.
//!
//! The format, with an example: docs/formats/capture.md.
#![tactic(auto)]

mod datagram;
mod found;
mod laws;
mod link;
mod numbers;
mod packet;

pub use found::{Cause, Found};
pub use laws::{law_of_datagrams, law_of_fronts, law_of_items};
pub use packet::find_datagram;
