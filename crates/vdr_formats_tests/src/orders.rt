// Orders that the lines of a link ask for.

use crate::printing::{bracketed, number, word};
use vdr_control::{Exporting, Order, Telling, read_order};
use vdr_entry::Medium;
use vdr_memory::MemorySink;

// Appends the word of a medium.
fn put_medium(medium: Medium, out: &mut MemorySink) {
    match medium {
        Medium::Capsule => word(out, b"capsule"),
        Medium::LongTerm => word(out, b"longterm"),
        Medium::Incident(id) => number(out, u64::from(id)),
    }
}

// Appends what is told.
fn put_telling(telling: Telling, out: &mut MemorySink) {
    match telling {
        Telling::Sources => word(out, b"sources"),
        Telling::Watch => word(out, b"watch"),
        Telling::Targets { at } => {
            word(out, b"targets");
            number(out, u64::try_from(at).unwrap_or(u64::MAX));
        }
        Telling::Digest => word(out, b"digest"),
    }
}

// Appends what file is asked for.
fn put_exporting(exporting: Exporting, out: &mut MemorySink) {
    match exporting {
        Exporting::Sound { timed: true } => word(out, b"timed"),
        Exporting::Sound { timed: false } => word(out, b"wav"),
        Exporting::Picture { source, block } => {
            word(out, b"picture");
            bracketed(out, &source);
            number(out, u64::from(block));
        }
    }
}

// Appends records of a channel.
fn put_records(medium: Medium, channel: &[u8], from: i64, to: i64, out: &mut MemorySink) {
    put_medium(medium, out);
    bracketed(out, channel);
    number(out, u64::try_from(from).unwrap_or(u64::MAX));
    number(out, u64::try_from(to).unwrap_or(u64::MAX));
}

/// What a line asks for. Nothing where it asks for nothing.
pub(crate) fn order(line: &[u8], out: &mut MemorySink) {
    match read_order(line) {
        None => {}
        Some(Order::Status) => word(out, b"status"),
        Some(Order::Incidents) => word(out, b"incidents"),
        Some(Order::Health) => word(out, b"health"),
        Some(Order::Tell { medium, telling }) => {
            put_telling(telling, out);
            put_medium(medium, out);
        }
        Some(Order::Save(label)) => {
            word(out, b"save");
            bracketed(out, label);
        }
        Some(Order::Release(id)) => {
            word(out, b"release");
            number(out, u64::from(id));
        }
        Some(Order::Evidence(id)) => {
            word(out, b"evidence");
            number(out, u64::from(id));
        }
        Some(
            Order::Play {
                medium,
                channel,
                from,
                to,
            },
        ) => put_records(medium, channel, from, to, out),
        Some(
            Order::Export {
                medium,
                channel,
                from,
                to,
                exporting,
            },
        ) => {
            put_exporting(exporting, out);
            put_records(medium, channel, from, to, out);
        }
    }
}
