// The lines of a file that is refused.
ghost use Rattle.std.specs.Prelude.{◌≡◌};
ghost use Rattle.vdr_reply.specs.Exports.{export_line, missing_line, mixed_line};

use crate::lines::{DAMAGED, FAULT, NO_MEMORY, push_text};
use arrayvec::ArrayVec;
use itoa::Buffer;
use vdr_desk::Reply;
use vdr_export::ExportRefused;

/// The channel has no such file.
pub(crate) const KIND: &[u8] = b"REFUSED 14 kind\n";

// Which record does not fit those before it.
fn of_mixed(place: u64) -> Reply
    ensures { result ≡ mixed_line place }
{
    let mut line = ArrayVec::new();
    push_text(&mut line, b"REFUSED 14 mixed ");
    push_text(&mut line, Buffer::new().format(place).as_bytes());
    push_text(&mut line, b"\n");
    Reply::of_line(line.as_slice())
}

// Which part of an image is missing.
fn of_missing(number: u32) -> Reply
    ensures { result ≡ missing_line number }
{
    let mut line = ArrayVec::new();
    push_text(&mut line, b"REFUSED 14 part ");
    push_text(&mut line, Buffer::new().format(number).as_bytes());
    push_text(&mut line, b"\n");
    Reply::of_line(line.as_slice())
}

/// Why there is no file, or what failed.
pub(crate) fn of_refusal(refused: ExportRefused) -> Reply
    ensures { result ≡ export_line refused }
{
    match refused {
        ExportRefused::Nothing => Reply::of_line(b"REFUSED 14 none\n"),
        ExportRefused::Mixed { place } => of_mixed(place),
        ExportRefused::Long => Reply::of_line(b"REFUSED 14 long\n"),
        ExportRefused::Part { number } => of_missing(number),
        ExportRefused::Fault => Reply::of_line(FAULT),
        ExportRefused::Damaged { .. } => Reply::of_line(DAMAGED),
        ExportRefused::Output | ExportRefused::NoMemory => Reply::of_line(NO_MEMORY),
    }
}
