// Records: their bytes, and their stamps.

use crate::printing::{number, put, word};
use arrayvec::ArrayVec;
use vdr_entry::{Record, read_record, read_utc, write_record, write_utc};
use vdr_memory::MemorySink;
use vdr_play::{Tracks, print_record};
use vdr_terms::{LAST_STAMP, Verdict, recordable};

/// The record with this place, stamp, which is its tick too, and group. Its bytes are `start`, `stop`, or a
/// datagram. None where there is no such record.
pub(crate) fn record_of([place, utc, group]: [u64; 3], bytes: &[u8]) -> Option<Record> {
    if place > 1 << 32 || utc > LAST_STAMP as u64 {
        return None;
    }
    match bytes {
        b"start" => Some(Record::start(0, place, utc, utc as i64)),
        b"stop" => Some(Record::stop(0, place, utc, utc as i64)),
        _ => {
            if group > 15 || !matches!(recordable(bytes), Verdict::Yes) {
                return None;
            }
            Some(Record::datagram(group as u8, 0, place, 0, utc, utc as i64, bytes))
        }
    }
}

/// What the bytes of a record say: their number, its bits, its tick, and its text. Nothing where they are none, or
/// are written otherwise.
pub(crate) fn record(bytes: &[u8], out: &mut MemorySink) {
    if let Some((item, size)) = read_record(bytes) {
        let mut again = [0; 1516];
        let written = write_record(&item, &mut again);
        if bytes.starts_with(&again[..written]) {
            number(out, size as u64);
            number(out, item.bits);
            number(out, item.tick);
            put(out, b" ");
            let _ = print_record(&item, &mut Tracks::new(), out);
        }
    }
}

/// The stamp that a text is, and the text of that stamp. Nothing where it is none.
pub(crate) fn stamp(text: &[u8], out: &mut MemorySink) {
    if let Some(utc) = read_utc(text) {
        let mut again = ArrayVec::new();
        write_utc(utc, &mut again);
        number(out, utc as u64);
        word(out, again.as_slice());
    }
}
