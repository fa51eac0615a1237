// What a captured packet is.
ghost use Rattle.std.specs.Prelude.{◌≡◌};
ghost use Rattle.vdr_frame.specs.Outcomes.{IsItem, outcome_of};
ghost use Rattle.vdr_frame.specs.Packets.{found_in};

use crate::datagram::in_packet;
use crate::found::Found;
use crate::link::behind_link;

/// What the captured bytes of a packet are, on a link of this type (as pcap numbers them): 1 Ethernet with up to two tags,
/// 113 and 276 Linux cooked captures, 0 and 108 loopback, 12, 14, 101, 228 and 229 raw IP.
pub fn find_datagram(link: u16, bytes: &[u8]) -> Found<'_>
    ensures outcome { outcome_of result ≡ found_in link bytes.now }
    ensures item { IsItem (outcome_of result) }
{
    match behind_link(link, bytes) {
        Ok(packet) => in_packet(packet),
        Err(cause) => Found::Left(cause),
    }
}
