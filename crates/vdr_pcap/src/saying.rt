// What a block says, once its bytes are read.
ghost use Rattle.std.specs.Prelude.{◌≡◌, ◌≤◌, ◌<◌, ◌+◌, length, List, ℕ};
ghost use Rattle.vdr_pcap.specs.Blocks.{fixed_size, header_at, interface_block, is_bad_length, least, packet_block, block_says, section_block, section_type, statistics_block};
ghost use Rattle.vdr_pcap.specs.Packets.{lost_with};
ghost use Rattle.vdr_pcap.specs.Seen.{Fits, HasSize, parsed_as, standing_of};
ghost use Rattle.vdr_pcap.specs.Stamps.{stamp_of_units};

use crate::form::{Form, INTERFACES, Interface, Said};
use crate::numbers::{u16_in, u32_in};
use crate::options::Noted;
use crate::stamps::{stamp_of_fraction, stamp_of_units};
use crate::unit::Unit;

pub(crate) const SECTION: u32 = 0x0A0D_0D0A;

pub(crate) const INTERFACE: u32 = 1;

pub(crate) const OLD_PACKET: u32 = 2;

pub(crate) const SIMPLE_PACKET: u32 = 3;

pub(crate) const STATISTICS: u32 = 5;

pub(crate) const PACKET: u32 = 6;

// The packets lost, with those of these interfaces.
pub(crate) fn lost_with(lost: u64, interfaces: &[Interface]) -> u64
    ensures { result ≡ lost_with lost interfaces.now }
{
    let mut total = lost;
    for interface in interfaces {
        total = total.saturating_add(interface.lost);
    }
    total
}

fn say_section(said: &mut Said, big: bool, len: u32, fixed: &[u8]) -> Unit
    requires { 4 ≤ length fixed.now }
    ensures size { HasSize result len }
    ensures fits { (longest : ℕ) → Fits section_type longest result }
    ensures is { (front : List ℕ) → parsed_as result (standing_of said.new) front ≡ section_block big len (standing_of said.old) fixed.now }
{
    if u16_in(big, 0, fixed) != 1 {
        return Unit::Refuses(3);
    }
    said.lost = lost_with(said.lost, said.interfaces.as_slice());
    said.interfaces.clear();
    said.form = Form::Blocks { big };
    Unit::Says(u64::from(len))
}

fn say_interface(said: &mut Said, big: bool, len: u32, fixed: &[u8], noted: Option<Noted>) -> Unit
    requires { 8 ≤ length fixed.now }
    ensures size { HasSize result len }
    ensures fits { (longest : ℕ) → Fits 1 longest result }
    ensures is { (front : List ℕ) → parsed_as result (standing_of said.new) front ≡ interface_block big len (standing_of said.old) fixed.now noted }
{
    if said.interfaces.len() >= INTERFACES {
        return Unit::Refuses(6);
    }
    let Some(noted) = noted else {
        return Unit::Refuses(4);
    };
    said.interfaces.push(Interface {
        link: u16_in(big, 0, fixed),
        resolution: noted.resolution.unwrap_or(6),
        added: noted.number.unwrap_or(0),
        lost: 0,
    });
    Unit::Says(u64::from(len))
}

fn say_statistics(said: &mut Said, big: bool, len: u32, fixed: &[u8], noted: Option<Noted>) -> Unit
    requires { 12 ≤ length fixed.now }
    ensures size { HasSize result len }
    ensures fits { (longest : ℕ) → Fits 5 longest result }
    ensures is { (front : List ℕ) → parsed_as result (standing_of said.new) front ≡ statistics_block big len (standing_of said.old) fixed.now noted }
{
    let at = u32_in(big, 0, fixed) as usize;
    let interfaces = said.interfaces.as_mut_slice();
    if at >= interfaces.len() {
        return Unit::Refuses(5);
    }
    let Some(noted) = noted else {
        return Unit::Refuses(4);
    };
    if let Some(lost) = noted.number {
        interfaces[at].lost = lost;
    }
    Unit::Says(u64::from(len))
}

fn say_packet(said: &Said, big: bool, len: u32, fixed: &[u8], front: &[u8]) -> Unit
    requires fixed { 20 ≤ length fixed.now }
    requires len { 32 ≤ len }
    ensures is { parsed_as result (standing_of said.now) front.now ≡ packet_block big len (standing_of said.now) fixed.now front.now }
    ensures fits { Fits 6 (length front.now) result }
    ensures size { HasSize result len }
{
    let interfaces = said.interfaces.as_slice();
    let at = u32_in(big, 0, fixed) as usize;
    if at >= interfaces.len() {
        return Unit::Refuses(5);
    }
    let captured = u32_in(big, 12, fixed);
    if captured > len - 32 {
        return Unit::Refuses(4);
    }
    let interface = interfaces[at];
    let stamp = (u64::from(u32_in(big, 4, fixed)) << 32) + u64::from(u32_in(big, 8, fixed));
    Unit::Packet(
        u64::from(len),
        interface.link,
        stamp_of_units(interface.resolution, interface.added, stamp),
        front.len().min(captured as usize),
    )
}

/// What a block of this type and length says, of which the bytes at fixed places, what its options note and the front of its packet
/// were read. What has been said is then this too.
pub(crate) fn say(
    said: &mut Said,
    big: bool,
    kind: u32,
    len: u32,
    fixed: &[u8],
    noted: Option<Noted>,
    front: &[u8],
) -> Unit
    requires fixed { fixed_size kind ≤ length fixed.now }
    requires len { least kind ≤ len }
    ensures is { parsed_as result (standing_of said.new) front.now ≡ block_says big kind len (standing_of said.old) fixed.now noted front.now }
    ensures fits { Fits kind (length front.now) result }
    ensures size { HasSize result len }
{
    match kind {
        SECTION => say_section(said, big, len, fixed),
        INTERFACE => say_interface(said, big, len, fixed, noted),
        PACKET => say_packet(said, big, len, fixed, front),
        STATISTICS => say_statistics(said, big, len, fixed, noted),
        OLD_PACKET | SIMPLE_PACKET => Unit::Unread(u64::from(len)),
        _ => Unit::Says(u64::from(len)),
    }
}

/// How many of a block's bytes are at fixed places; of a section behind its magic.
pub(crate) fn fixed_size(kind: u32) -> usize
    ensures is { result ≡ fixed_size kind }
    ensures bound { result ≤ 20 }
{
    match kind {
        SECTION => 4,
        INTERFACE => 8,
        PACKET => 20,
        STATISTICS => 12,
        _ => 0,
    }
}

fn least(kind: u32) -> u32
    ensures { result ≡ least kind }
{
    match kind {
        SECTION => 28,
        INTERFACE => 20,
        PACKET => 32,
        STATISTICS => 24,
        _ => 12,
    }
}

/// Whether no block of this type has this length.
pub(crate) fn is_bad_length(kind: u32, len: u32) -> bool
    ensures { result ≡ is_bad_length kind len }
{
    !(len % 4 == 0) || len < least(kind) || (kind == PACKET && len > 327_712)
}

/// What the header of a pcap file says, of which 20 bytes were read behind its magic.
pub(crate) fn say_header(said: &mut Said, big: bool, nano: bool, head: &[u8]) -> Unit
    requires { 20 ≤ length head.now }
    ensures size { HasSize result 24 }
    ensures fits { Fits section_type 2048 result }
    ensures is { (front : List ℕ) → parsed_as result (standing_of said.new) front ≡ header_at big nano (standing_of said.old) head.now }
{
    if u16_in(big, 0, head) != 2 {
        return Unit::Refuses(3);
    }
    said.form = Form::Packets {
        big,
        nano,
        link: (u32_in(big, 16, head) % 65_536) as u16,
    };
    Unit::Says(24)
}
