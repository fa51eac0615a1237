// The rows of records in the table of values, and where lines say that their source is.

use crate::printing::word;
use vdr_datagram::lines;
use vdr_memory::MemorySink;
use vdr_rows::{Fix, decimal_text, fix_of};

/// What each line of a datagram says of where its source is.
pub(crate) fn fixes(bytes: &[u8], out: &mut MemorySink) {
    for line in lines(bytes) {
        match fix_of(&line.verdict) {
            Fix::Unsaid => word(out, b"unsaid"),
            Fix::Lost => word(out, b"lost"),
            Fix::At {
                latitude,
                longitude,
            } => {
                word(out, decimal_text(latitude).as_slice());
                word(out, decimal_text(longitude).as_slice());
            }
        }
    }
}
