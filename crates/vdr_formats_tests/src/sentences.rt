// Sentences, TAG blocks and lines.

use crate::printing::{bracketed, number, number_or_dash, put, word};
use arrayvec::ArrayVec;
use vdr_datagram::lines;
use vdr_memory::MemorySink;
use vdr_sentence::{read_sentence, write_sentence};
use vdr_tag::{Grouping, read_tags};
use vdr_values::{formatter_of, print_reading};

/// The address of a sentence and its number of fields. Nothing where it is refused, or is written otherwise than it
/// was read.
pub(crate) fn sentence(line: &[u8], out: &mut MemorySink) {
    if let Ok(sentence) = read_sentence(line) {
        let mut again = ArrayVec::new();
        let written = write_sentence(sentence.start, sentence.content, &mut again);
        if written.is_ok() && again.as_slice() == line {
            word(out, sentence.address);
            number(out, sentence.count() as u64);
        }
    }
}

/// The field of a sentence that has this number. Nothing where it has none.
pub(crate) fn field(index: u64, line: &[u8], out: &mut MemorySink) {
    if let Ok(sentence) = read_sentence(line) {
        if let Some(field) = sentence.field(index as usize) {
            bracketed(out, field);
        }
    }
}

/// The code of a sentence's formatter, and what its fields say. Nothing where it is refused.
pub(crate) fn value(line: &[u8], out: &mut MemorySink) {
    if let Ok(sentence) = read_sentence(line) {
        word(out, formatter_of(sentence.address).unwrap_or(b"-"));
        let mut text = ArrayVec::new();
        print_reading(&sentence, &mut text);
        word(out, text.as_slice());
    }
}

// Number, total and code of a group of sentences.
fn put_group(group: &Grouping, out: &mut MemorySink) {
    number(out, u64::from(group.number));
    number(out, u64::from(group.total));
    number(out, u64::from(group.code));
}

/// What the TAG blocks at the front of a line say: source, line count, time, other items, the length of the blocks,
/// and the group. Nothing where one is refused.
pub(crate) fn tags(line: &[u8], out: &mut MemorySink) {
    if let Ok((tags, size)) = read_tags(line) {
        word(out, tags.source.unwrap_or(b"-"));
        number_or_dash(out, tags.line.map(u64::from));
        number_or_dash(out, tags.time);
        number(out, u64::from(tags.others));
        number(out, size as u64);
        if let Some(group) = &tags.group {
            put_group(group, out);
        }
    }
}

/// Where each line of a datagram begins and ends.
pub(crate) fn spans(bytes: &[u8], out: &mut MemorySink) {
    for line in lines(bytes) {
        number(out, line.from as u64);
        number(out, line.to as u64);
        put(out, b";");
    }
}

/// The number that decimal digits write, of which there are not more than so many. Nothing where they write none.
pub(crate) fn digits(most: u64, text: &[u8], out: &mut MemorySink) {
    if let Some(read) = vdr_bytes::number(text, most.min(18) as usize) {
        number(out, read);
    }
}
