// The line of each status, as it is written to the output.
ghost use Rattle.std.specs.Prelude.{◌≡◌, ◌≤◌, ◌+◌, ◌++◌, codes, decimal, length};
ghost use Rattle.arrayvec.specs.ArrayVec.{array_vec_len};
ghost use Rattle.vdr_terms.specs.Groups.{group_name};
ghost use Rattle.vdr_command.specs.Endings.{WritesLine};
ghost use Rattle.vdr_command.specs.StatusLine.{damaged_line, evidence_line, incident_line, link_line, medium_name, missing_line, mixed_line, part_line, part_word, port_line, save_line, small_line, status_line};

use crate::{EvidencePart, SaveCause, Status};
use arrayvec::ArrayVec;
use itoa::Buffer;
use vdr_config::TooSmall;
use vdr_outside::{Sink, write_all};
use vdr_terms::group_name;

/// Room for the longest text that is written in one piece.
pub const ROOM: usize = 200;

/// Appends a text, for which there is room.
pub fn push_text(line: &mut ArrayVec<u8, ROOM>, text: &[u8])
    requires { array_vec_len line.old + length text.now ≤ 200 }
    ensures { line.new.items ≡ line.old.items ++ text.now }
{
    for byte in text {
        line.push(*byte);
    }
}

fn medium_name(medium: u8) -> &'static [u8]
    ensures { result.now ≡ medium_name medium }
{
    if medium == 0 { b"capsule" } else { b"longterm" }
}

// Which medium is too small.
fn push_small(line: &mut ArrayVec<u8, ROOM>, small: TooSmall)
    requires { array_vec_len line.old ≡ 0 }
    ensures { line.new.items ≡ line.old.items ++ small_line small }
{
    push_text(line, b"status 3 small ");
    push_text(line, medium_name(small.medium));
    push_text(line, b" need ");
    push_text(line, Buffer::new().format(small.need).as_bytes());
    push_text(line, b" have ");
    push_text(line, Buffer::new().format(small.have).as_bytes());
    push_text(line, b"\n");
}

// Which part of a medium is not legal.
fn push_damaged(line: &mut ArrayVec<u8, ROOM>, medium: u8, offset: u64)
    requires { array_vec_len line.old ≡ 0 }
    ensures { line.new.items ≡ line.old.items ++ damaged_line medium offset }
{
    push_text(line, b"status 4 damaged ");
    push_text(line, Buffer::new().format(medium).as_bytes());
    push_text(line, b" ");
    push_text(line, Buffer::new().format(offset).as_bytes());
    push_text(line, b"\n");
}

// From which place on records are missing.
fn push_missing(line: &mut ArrayVec<u8, ROOM>, place: u64)
    requires { array_vec_len line.old ≡ 0 }
    ensures { line.new.items ≡ line.old.items ++ missing_line place }
{
    push_text(line, b"status 4 missing ");
    push_text(line, Buffer::new().format(place).as_bytes());
    push_text(line, b"\n");
}

/// The name of a group; a number that is none of a group has none.
pub fn name_of(group: u8) -> &'static [u8]
    ensures name { result.now ≡ group_name group }
    ensures short { length result.now ≤ 4 }
{
    if group > 15 {
        return b"";
    }
    group_name(group).as_bytes()
}

// Whose port failed.
fn push_port(line: &mut ArrayVec<u8, ROOM>, group: u8)
    requires { array_vec_len line.old ≡ 0 }
    ensures { line.new.items ≡ line.old.items ++ port_line group }
{
    push_text(line, b"status 6 port ");
    push_text(line, name_of(group));
    push_text(line, b"\n");
}

// Which link failed.
fn push_link(line: &mut ArrayVec<u8, ROOM>, link: u32)
    requires { array_vec_len line.old ≡ 0 }
    ensures { line.new.items ≡ line.old.items ++ link_line link }
{
    push_text(line, b"status 6 link ");
    push_text(line, Buffer::new().format(link).as_bytes());
    push_text(line, b"\n");
}

// What is refused, by its number, and where it begins.
fn push_refusal(line: &mut ArrayVec<u8, ROOM>, front: &[u8], number: u8, offset: u64)
    requires empty { array_vec_len line.old ≡ 0 }
    requires short { length front.now ≤ 20 }
    ensures { line.new.items ≡ line.old.items ++ (front.now ++ decimal number ++ codes " at " ++ decimal offset ++ codes "\n") }
{
    push_text(line, front);
    push_text(line, Buffer::new().format(number).as_bytes());
    push_text(line, b" at ");
    push_text(line, Buffer::new().format(offset).as_bytes());
    push_text(line, b"\n");
}

// The word of a part of an evidence file.
fn part_word(part: EvidencePart) -> &'static [u8]
    ensures word { result.now ≡ part_word part }
    ensures short { length result.now ≤ 13 }
{
    match part {
        EvidencePart::Token => b"token",
        EvidencePart::Configuration => b"configuration",
        EvidencePart::Medium => b"medium",
        EvidencePart::Incident => b"incident",
        EvidencePart::Label => b"label",
        EvidencePart::Query => b"query",
        EvidencePart::Record => b"record",
        EvidencePart::End => b"end",
        EvidencePart::Digest => b"digest",
        EvidencePart::Behind => b"behind",
    }
}

// Which part of a file is not evidence, and where it begins.
fn push_evidence(line: &mut ArrayVec<u8, ROOM>, part: EvidencePart, offset: u64)
    requires { array_vec_len line.old ≡ 0 }
    ensures { line.new.items ≡ line.old.items ++ evidence_line part offset }
{
    push_text(line, b"status 16 evidence ");
    push_text(line, part_word(part));
    push_text(line, b" at ");
    push_text(line, Buffer::new().format(offset).as_bytes());
    push_text(line, b"\n");
}

// Which incident is not saved.
fn push_incident(line: &mut ArrayVec<u8, ROOM>, id: u32)
    requires { array_vec_len line.old ≡ 0 }
    ensures { line.new.items ≡ line.old.items ++ incident_line id }
{
    push_text(line, b"status 11 incident ");
    push_text(line, Buffer::new().format(id).as_bytes());
    push_text(line, b"\n");
}

// Which record does not fit those before it.
fn push_mixed(line: &mut ArrayVec<u8, ROOM>, place: u64)
    requires { array_vec_len line.old ≡ 0 }
    ensures { line.new.items ≡ line.old.items ++ mixed_line place }
{
    push_text(line, b"status 14 mixed ");
    push_text(line, Buffer::new().format(place).as_bytes());
    push_text(line, b"\n");
}

// Which part of an image is missing.
fn push_part(line: &mut ArrayVec<u8, ROOM>, part: u32)
    requires { array_vec_len line.old ≡ 0 }
    ensures { line.new.items ≡ line.old.items ++ part_line part }
{
    push_text(line, b"status 14 part ");
    push_text(line, Buffer::new().format(part).as_bytes());
    push_text(line, b"\n");
}

// Why nothing is saved.
fn save_line(cause: SaveCause) -> &'static [u8]
    ensures line { result.now ≡ save_line cause }
    ensures short { length result.now ≤ 20 }
{
    match cause {
        SaveCause::Label => b"status 12 label\n",
        SaveCause::Nothing => b"status 12 nothing\n",
        SaveCause::TableFull => b"status 12 full\n",
    }
}

fn line_of(status: Status) -> ArrayVec<u8, ROOM>
    ensures { result.items ≡ status_line status }
{
    let mut line = ArrayVec::new();
    match status {
        Status::Done => {}
        Status::OutputFault => {}
        Status::Config { .. } => {}
        Status::NoChannel => {}
        Status::Words => push_text(&mut line, b"status 2 words\n"),
        Status::Small(small) => push_small(&mut line, small),
        Status::Unformatted => push_text(&mut line, b"status 4 unformatted\n"),
        Status::Formatted => push_text(&mut line, b"status 4 formatted\n"),
        Status::Damaged { medium, offset } => push_damaged(&mut line, medium, offset),
        Status::MediaFault => push_text(&mut line, b"status 5 media\n"),
        Status::PortFault(group) => push_port(&mut line, group),
        Status::LinkFault(link) => push_link(&mut line, link),
        Status::InputFault => push_text(&mut line, b"status 7 input\n"),
        Status::NoMemory => push_text(&mut line, b"status 9 memory\n"),
        Status::Feed { number, offset } => {
            push_refusal(&mut line, b"status 10 feed ", number, offset);
        }
        Status::NoIncident(id) => push_incident(&mut line, id),
        Status::SaveRefused(cause) => push_text(&mut line, save_line(cause)),
        Status::Place => push_text(&mut line, b"status 13 place\n"),
        Status::Tick => push_text(&mut line, b"status 13 tick\n"),
        Status::ExportKind => push_text(&mut line, b"status 14 kind\n"),
        Status::ExportNothing => push_text(&mut line, b"status 14 none\n"),
        Status::ExportMixed(place) => push_mixed(&mut line, place),
        Status::ExportLong => push_text(&mut line, b"status 14 long\n"),
        Status::ExportPart(number) => push_part(&mut line, number),
        Status::Capture { number, offset } => {
            push_refusal(&mut line, b"status 16 capture ", number, offset);
        }
        Status::NoEvidence { part, offset } => push_evidence(&mut line, part, offset),
        Status::Missing(place) => push_missing(&mut line, place),
    }
    line
}

/// Writes the line of a status, if it has one.
pub fn report<O: Sink>(status: Status, output: &mut O)
    ensures line { WritesLine status (record { taken = O.taken output.old; faults = O.faults output.old }) (record { taken = O.taken output.new; faults = O.faults output.new }) }
    ensures later { O.faults output.old ≤ O.faults output.new }
{
    match status {
        Status::Done | Status::OutputFault | Status::Config { .. } | Status::NoChannel => {}
        _ => {
            let line = line_of(status);
            let _ = write_all(output, line.as_slice());
        }
    }
}
