// The port and the link of a script, and the peers that connect to the link.
use crate::hosts::{begin, connect, is_within, link_fails};
use crate::peers;
use crate::sockets::{follow_link, take, take_of};
use anyhow::Result;
use std::alloc::Global;
use std::net::TcpStream;
use std::time::Duration;
use vdr_outside::{Link, Port};

/// A port and a link, and who is connected to the link, in the order of coming.
#[derive(Drop)]
pub(crate) struct Wires<L: Link + Drop, P: Port + Drop> {
    alloc: Global,
    // The number of the link's port.
    number: u16,
    link: L,
    port: P,
    peers: Vec<TcpStream>,
    // When the last datagram came.
    last: u64,
    // From when on time is taken.
    began: Duration,
}

impl<L: Link + Drop, P: Port + Drop> Wires<L, P> {
    pub(crate) fn new(alloc: Global, number: u16, link: L, port: P) -> Wires<L, P> {
        Wires {
            alloc,
            number,
            link,
            port,
            peers: Vec::new(alloc),
            last: 0,
            began: Duration::ZERO,
        }
    }

    // Follows a line about the port, the link and its peers that needs no system. None where there is no such line.
    fn follow_own(&mut self, verb: &str, rest: &str) -> Option<Result<()>> {
        let done = match verb {
            "take" => take(&mut self.port, &mut self.last, rest),
            "port-is" => take_of(&mut self.port, rest),
            "hear" | "hear-x" | "link-is" | "quiet" | "reply" | "reply-pieces" => {
                follow_link(self.alloc, &mut self.link, verb, rest)
            }
            "hang-up" | "say" | "say-x" | "gets" | "gone" | "stays" => {
                peers::follow(self.alloc, &mut self.peers, verb, rest)
            }
            _ => return None,
        };
        Some(done)
    }

    /// Follows a line about the port, the link, its peers and time. None where there is no such line.
    pub(crate) fn follow(
        &mut self,
        rt: &HostRuntime,
        verb: &str,
        rest: &str,
    ) -> Option<Result<()>> {
        let done = match verb {
            "connect" => connect(rt, self.number, &mut self.peers),
            "link-beside" => link_fails(rt, self.number),
            "begin" => begin(rt, &mut self.began),
            "within" => is_within(rt, self.began, rest),
            _ => return self.follow_own(verb, rest),
        };
        Some(done)
    }
}
