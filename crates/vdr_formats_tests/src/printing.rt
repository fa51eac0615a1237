// What an answer is made of.

use itoa::Buffer;
use vdr_memory::MemorySink;
use vdr_outside::Sink;

/// Appends these bytes. Where there is no memory for them, the answer lacks them.
pub(crate) fn put(out: &mut MemorySink, bytes: &[u8]) {
    let _ = out.write(bytes);
}

/// Appends a space and a word.
pub(crate) fn word(out: &mut MemorySink, bytes: &[u8]) {
    put(out, b" ");
    put(out, bytes);
}

/// Appends a space and bytes in brackets.
pub(crate) fn bracketed(out: &mut MemorySink, bytes: &[u8]) {
    put(out, b" [");
    put(out, bytes);
    put(out, b"]");
}

/// Appends a space and a number.
pub(crate) fn number(out: &mut MemorySink, n: u64) {
    let mut buffer = Buffer::new();
    word(out, buffer.format(n).as_bytes());
}

/// Appends a space and a number, a `-` where there is none.
pub(crate) fn number_or_dash(out: &mut MemorySink, n: Option<u64>) {
    match n {
        Some(n) => number(out, n),
        None => word(out, b"-"),
    }
}
