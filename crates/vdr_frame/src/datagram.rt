// The datagram in an IPv4 packet.
ghost use Rattle.std.specs.Prelude.{◌≡◌, ◌≤◌, ◌<◌, length};
ghost use Rattle.vdr_frame.specs.Outcomes.{IsItem, outcome_of};
ghost use Rattle.vdr_frame.specs.Packets.{at_port, in_packet, in_udp};

use crate::found::{Cause, Found};
use crate::numbers::u16_at;

const FIRST_PORT: u16 = 60_001;

const LAST_PORT: u16 = 60_016;

const UDP: u8 = 17;

// The bytes of a payload that count: one more than a datagram of a group may have.
const COUNTED: usize = 1_473;

// The datagram to the port of a group, in a packet that has room for so many bytes of it, of which more fragments follow or none.
fn in_udp(udp: &[u8], room: usize, more: bool, group: u8) -> Found<'_>
    requires { group < 16 }
    ensures outcome { outcome_of result ≡ in_udp udp.now room more group }
    ensures item { IsItem (outcome_of result) }
{
    if udp.len() < 6 {
        return Found::Cut(group);
    }
    let size = usize::from(u16_at(udp, 4));
    if size < 8 || (!more && room < size) {
        return Found::Left(Cause::Malformed);
    }
    let counted = (size - 8).min(COUNTED);
    if more || udp.len() < 8 + counted {
        return Found::Cut(group);
    }
    Found::Whole {
        group,
        payload: &udp[8..8 + counted],
    }
}

// The same, of a datagram to any port.
fn at_port(udp: &[u8], room: usize, more: bool) -> Found<'_>
    ensures outcome { outcome_of result ≡ at_port udp.now room more }
    ensures item { IsItem (outcome_of result) }
{
    if udp.len() < 4 {
        return Found::Left(Cause::Short);
    }
    let port = u16_at(udp, 2);
    if port < FIRST_PORT || LAST_PORT < port {
        return Found::Left(Cause::Port(port));
    }
    in_udp(udp, room, more, (port - FIRST_PORT) as u8)
}

/// The datagram in an IPv4 packet, from its header on.
pub(crate) fn in_packet(packet: &[u8]) -> Found<'_>
    ensures outcome { outcome_of result ≡ in_packet packet.now }
    ensures item { IsItem (outcome_of result) }
{
    if packet.len() < 20 {
        return Found::Left(Cause::Short);
    }
    let header = 4 * usize::from(packet[0] % 16);
    let total = usize::from(u16_at(packet, 2));
    if packet[0] / 16 != 4 || header < 20 || total < header {
        return Found::Left(Cause::Malformed);
    }
    if packet[9] != UDP {
        return Found::Left(Cause::Protocol);
    }
    let part = u16_at(packet, 6);
    if part % 8192 != 0 {
        return Found::Left(Cause::Fragment);
    }
    let more = part / 8192 % 2 == 1;
    let Some(udp) = packet.get(header..) else {
        return Found::Left(Cause::Short);
    };
    at_port(udp, total - header, more)
}
