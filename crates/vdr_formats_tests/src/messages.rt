// AIS messages, joined from the lines that carry them.

use crate::printing::number;
use vdr_ais::{Joiner, Message, read_message};
use vdr_memory::MemorySink;
use vdr_sentence::read_sentence;
use vdr_values::read_value;

// Appends how many numbers of six bits a message has, how many bits fill up the last, and the ship that it reports.
fn put_message(message: &Message, out: &mut MemorySink) {
    number(out, message.sixes.len() as u64);
    number(out, u64::from(message.fill));
    if let Some(report) = read_message(message) {
        number(out, u64::from(report.mmsi));
    }
}

/// The message that ends at a line of this formatter. Nothing where none does.
pub(crate) fn part(joiner: &mut Joiner, formatter: &[u8; 3], line: &[u8], out: &mut MemorySink) {
    if let Ok(sentence) = read_sentence(line) {
        if let Ok(Some(reading)) = read_value(&sentence) {
            if let Ok(Some(message)) = joiner.line(0, b"-", formatter, &reading) {
                put_message(&message, out);
            }
        }
    }
}
