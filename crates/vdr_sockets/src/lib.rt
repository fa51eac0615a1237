//! The ports of the transmission groups over UDP, and the operator's link over TCP. They tell no content, and count their faults.
//!
//! Which socket they open, and which bytes go over which, is proved over hosts and sockets as traits (`hosts`): the operating
//! system's (`system`) hand each call on.
#![tactic(auto)]

mod alarm;
mod calls;
mod client;
mod dropped;
mod heard;
mod hosts;
mod journal;
mod patience;
mod peers;
mod pending;
mod sending;
mod silence;
mod system;
mod tcp;
mod udp;

pub use alarm::Alarm;
pub use dropped::drops_in;
pub use heard::LastHeard;
pub use hosts::{DatagramSocket, HasPorts, HasStreams, Peer};
pub use tcp::{LOOPBACK, ORDERS, TcpLink};
pub use udp::{UdpPort, port_of};
