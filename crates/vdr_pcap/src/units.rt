// Reading one packet or block, or the beginning of a capture.
ghost use Rattle.std.specs.Prelude.{◌≡◌, ◌==◌, IfOk, IfSome, length, if◌then◌else◌};
ghost use Rattle.vdr_outside.specs.Causes.{HasCause};
ghost use Rattle.vdr_pcap.specs.Blocks.{beginning, block_of, order_of, parsed, parsed_block, parsed_packet, pcap_header, section, section_type, typed};
ghost use Rattle.vdr_pcap.specs.Seen.{Fits, Tells, TellsOrEnds, standing_of};

use crate::blocks::read_block_with;
use crate::buffers::Buffers;
use crate::filling::{read_all, read_front};
use crate::form::{Form, Said};
use crate::numbers::u32_in;
use crate::saying::{SECTION, is_bad_length, say_header};
use crate::stamps::stamp_of_fraction;
use crate::unit::Unit;
use vdr_outside::{Failed, Source, fill};

// The order of a section's numbers, by its magic read with the least significant byte first.
fn order_of(magic: u32) -> Option<bool>
    ensures { result ≡ order_of magic }
{
    match magic {
        0x1A2B_3C4D => Some(false),
        0x4D3C_2B1A => Some(true),
        _ => None,
    }
}

// Reads a block of this length, of which so many bytes were read.
fn read_block_of<I: Source>(
    input: &mut I,
    big: bool,
    kind: u32,
    len: u32,
    before: u32,
    said: &mut Said,
    buffers: &mut Buffers,
) -> Result<Unit, Failed>
    requires { before ≡ (if kind == section_type then 12 else 8) }
    ensures read { IfOk result (λ unit. Tells (I.left input.old) (I.left input.new) (block_of big kind len before (standing_of said.old)) before unit (standing_of said.new) buffers.new.front) }
    ensures fits { IfOk result (λ unit. Fits kind 2048 unit) }
    ensures cause { HasCause (I.faults input.old) (I.faults input.new) result }
{
    if is_bad_length(kind, len) {
        return Ok(Unit::Refuses(4));
    }
    read_block_with(
        input,
        big,
        kind,
        len,
        (len - (before + 4)) as usize,
        said,
        buffers,
    )
}

// Reads the header of a section behind its type and the bytes of its length.
fn read_section<I: Source>(
    input: &mut I,
    size: &[u8],
    said: &mut Said,
    buffers: &mut Buffers,
) -> Result<Unit, Failed>
    requires { length size.now ≡ 4 }
    ensures read { IfOk result (λ unit. Tells (I.left input.old) (I.left input.new) (section (standing_of said.old) size.now) 8 unit (standing_of said.new) buffers.new.front) }
    ensures fits { IfOk result (λ unit. Fits section_type 2048 unit) }
    ensures cause { HasCause (I.faults input.old) (I.faults input.new) result }
{
    let mut magic = [0; 4];
    if !read_all(input, &mut magic)? {
        return Ok(Unit::Refuses(2));
    }
    let Some(big) = order_of(u32_in(false, 0, &magic)) else {
        return Ok(Unit::Refuses(3));
    };
    read_block_of(input, big, SECTION, u32_in(big, 0, size), 12, said, buffers)
}

// Reads a block behind its type.
fn read_typed<I: Source>(
    input: &mut I,
    big: bool,
    kind: u32,
    said: &mut Said,
    buffers: &mut Buffers,
) -> Result<Unit, Failed>
    ensures read { IfOk result (λ unit. Tells (I.left input.old) (I.left input.new) (typed big kind (standing_of said.old)) 4 unit (standing_of said.new) buffers.new.front) }
    ensures fits { IfOk result (λ unit. Fits kind 2048 unit) }
    ensures cause { HasCause (I.faults input.old) (I.faults input.new) result }
{
    let mut size = [0; 4];
    if !read_all(input, &mut size)? {
        return Ok(Unit::Refuses(2));
    }
    if kind == SECTION {
        return read_section(input, &size, said, buffers);
    }
    read_block_of(input, big, kind, u32_in(big, 0, &size), 8, said, buffers)
}

// Reads the header of a pcap file behind its magic.
fn read_pcap_header<I: Source>(
    input: &mut I,
    big: bool,
    nano: bool,
    said: &mut Said,
    front: &[u8],
) -> Result<Unit, Failed>
    ensures read { IfOk result (λ found. Tells (I.left input.old) (I.left input.new) (pcap_header big nano (standing_of said.old)) 4 found (standing_of said.new) front.now) }
    ensures fits { IfOk result (λ found. Fits section_type 2048 found) }
    ensures cause { HasCause (I.faults input.old) (I.faults input.new) result }
{
    let mut head = [0; 20];
    if !read_all(input, &mut head)? {
        return Ok(Unit::Refuses(2));
    }
    Ok(say_header(said, big, nano, &head))
}

/// Reads the header of a pcap file or of the first section.
pub(crate) fn read_beginning<I: Source>(
    input: &mut I,
    said: &mut Said,
    buffers: &mut Buffers,
) -> Result<Unit, Failed>
    ensures read { IfOk result (λ unit. Tells (I.left input.old) (I.left input.new) (beginning (standing_of said.old)) 0 unit (standing_of said.new) buffers.new.front) }
    ensures fits { IfOk result (λ unit. Fits section_type 2048 unit) }
    ensures cause { HasCause (I.faults input.old) (I.faults input.new) result }
{
    let mut magic = [0; 4];
    if !read_all(input, &mut magic)? {
        return Ok(Unit::Refuses(1));
    }
    match u32_in(false, 0, &magic) {
        SECTION => read_typed(input, false, SECTION, said, buffers),
        0xA1B2_C3D4 => read_pcap_header(input, false, false, said, &buffers.front),
        0xD4C3_B2A1 => read_pcap_header(input, true, false, said, &buffers.front),
        0xA1B2_3C4D => read_pcap_header(input, false, true, said, &buffers.front),
        0x4D3C_B2A1 => read_pcap_header(input, true, true, said, &buffers.front),
        _ => Ok(Unit::Refuses(1)),
    }
}

// Reads a packet of a pcap file.
fn read_packet<I: Source>(
    input: &mut I,
    big: bool,
    nano: bool,
    link: u16,
    said: &Said,
    buffers: &mut Buffers,
) -> Result<Option<Unit>, Failed>
    ensures read { IfOk result (λ found. TellsOrEnds (I.left input.old) (I.left input.new)
        (parsed_packet big nano link (standing_of said.now)) (standing_of said.now) (standing_of said.now) buffers.new.front found) }
    ensures fits { IfOk result (λ found. IfSome found (λ unit. Fits 0 2048 unit)) }
    ensures cause { HasCause (I.faults input.old) (I.faults input.new) result }
{
    let mut head = [0; 16];
    let got = fill(input, &mut head)?;
    if got == 0 {
        return Ok(None);
    }
    if got < 16 {
        return Ok(Some(Unit::Refuses(2)));
    }
    let captured = u32_in(big, 8, &head);
    if captured > 262_144 {
        return Ok(Some(Unit::Refuses(4)));
    }
    let Some(kept) = read_front(
        input,
        captured as usize,
        &mut buffers.front,
        &mut buffers.scratch,
    )?
    else {
        return Ok(Some(Unit::Refuses(2)));
    };
    let stamp = stamp_of_fraction(nano, u32_in(big, 0, &head), u32_in(big, 4, &head));
    Ok(Some(Unit::Packet(16 + u64::from(captured), link, stamp, kept)))
}

// Reads a block.
fn read_block<I: Source>(
    input: &mut I,
    big: bool,
    said: &mut Said,
    buffers: &mut Buffers,
) -> Result<Option<Unit>, Failed>
    ensures read { IfOk result (λ found. TellsOrEnds (I.left input.old) (I.left input.new)
        (parsed_block big (standing_of said.old)) (standing_of said.old) (standing_of said.new) buffers.new.front found) }
    ensures fits { IfOk result (λ found. IfSome found (λ unit. Fits 0 2048 unit)) }
    ensures cause { HasCause (I.faults input.old) (I.faults input.new) result }
{
    let mut kind = [0; 4];
    let got = fill(input, &mut kind)?;
    if got == 0 {
        return Ok(None);
    }
    if got < 4 {
        return Ok(Some(Unit::Refuses(2)));
    }
    Ok(Some(read_typed(input, big, u32_in(big, 0, &kind), said, buffers)?))
}

/// Reads a further packet or block.
pub(crate) fn read_unit<I: Source>(
    input: &mut I,
    said: &mut Said,
    buffers: &mut Buffers,
) -> Result<Option<Unit>, Failed>
    ensures read { IfOk result (λ found. TellsOrEnds (I.left input.old) (I.left input.new)
        (parsed (standing_of said.old)) (standing_of said.old) (standing_of said.new) buffers.new.front found) }
    ensures fits { IfOk result (λ found. IfSome found (λ unit. Fits 0 2048 unit)) }
    ensures cause { HasCause (I.faults input.old) (I.faults input.new) result }
{
    match said.form {
        Form::Unbegun => Ok(Some(Unit::Refuses(1))),
        Form::Packets { big, nano, link } => read_packet(input, big, nano, link, said, buffers),
        Form::Blocks { big } => read_block(input, big, said, buffers),
    }
}
