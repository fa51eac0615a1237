// Replies of one line.
ghost use Rattle.std.specs.Prelude.{◌≡◌, ◌≤◌, ◌+◌, ◌++◌, length};
ghost use Rattle.arrayvec.specs.ArrayVec.{array_vec_len};
ghost use Rattle.vdr_reply.specs.Texts.{id_line, release_line, save_line, state_line};

use arrayvec::ArrayVec;
use itoa::Buffer;
use vdr_desk::Reply;
use vdr_recorder::{ReleaseRefused, SaveRefused, State};

/// The media have failed.
pub(crate) const FAULT: &[u8] = b"FAULT 5\n";

/// What was read is not legal.
pub(crate) const DAMAGED: &[u8] = b"FAULT 4\n";

/// There is no memory for the text.
pub(crate) const NO_MEMORY: &[u8] = b"FAULT 9\n";

/// What is asked for is not there.
pub(crate) const NOT_THERE: &[u8] = b"REFUSED 11\n";

// Room for the longest line, in bytes.
const ROOM: usize = 100;

/// Appends a text, for which there is room.
pub(crate) fn push_text(line: &mut ArrayVec<u8, ROOM>, text: &[u8])
    requires { array_vec_len line.old + length text.now ≤ 100 }
    ensures { line.new.items ≡ line.old.items ++ text.now }
{
    for byte in text {
        line.push(*byte);
    }
}

/// How far the recording is.
pub(crate) fn of_state(state: &State) -> Reply
    ensures { result ≡ state_line state.now.records state.now.tick state.now.incidents }
{
    let mut line = ArrayVec::new();
    push_text(&mut line, b"OK records ");
    push_text(&mut line, Buffer::new().format(state.records).as_bytes());
    push_text(&mut line, b" tick ");
    push_text(&mut line, Buffer::new().format(state.tick).as_bytes());
    push_text(&mut line, b" incidents ");
    push_text(&mut line, Buffer::new().format(state.incidents).as_bytes());
    push_text(&mut line, b"\n");
    Reply::of_line(line.as_slice())
}

// The id of a save.
fn of_id(id: u32) -> Reply
    ensures { result ≡ id_line id }
{
    let mut line = ArrayVec::new();
    push_text(&mut line, b"OK ");
    push_text(&mut line, Buffer::new().format(id).as_bytes());
    push_text(&mut line, b"\n");
    Reply::of_line(line.as_slice())
}

/// What a save came to.
pub(crate) fn of_save(saved: Result<u32, SaveRefused>) -> Reply
    ensures { result ≡ save_line saved }
{
    match saved {
        Ok(id) => of_id(id),
        Err(SaveRefused::Label) => Reply::of_line(b"REFUSED 12 label\n"),
        Err(SaveRefused::Nothing) => Reply::of_line(b"REFUSED 12 nothing\n"),
        Err(SaveRefused::TableFull) => Reply::of_line(b"REFUSED 12 full\n"),
        Err(SaveRefused::Damaged { .. }) => Reply::of_line(DAMAGED),
        Err(SaveRefused::Fault) => Reply::of_line(FAULT),
    }
}

/// What a release came to.
pub(crate) fn of_release(released: Result<(), ReleaseRefused>) -> Reply
    ensures { result ≡ release_line released }
{
    match released {
        Ok(()) => Reply::of_line(b"OK\n"),
        Err(ReleaseRefused::NoSuch) => Reply::of_line(NOT_THERE),
        Err(ReleaseRefused::Fault) => Reply::of_line(FAULT),
    }
}
