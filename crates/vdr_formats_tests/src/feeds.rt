// Feeds, read from memory and generated.

ghost use Rattle.std.specs.Prelude.{◌≡◌, true};

use crate::printing::{number, put, word};
use std::alloc::Global;
use vdr_feed::{FeedFault, FeedReader, GeneratedFeed, Item};
use vdr_memory::{MemorySink, MemorySource};
use vdr_outside::Source;
use vdr_play::print_escaped;

// Appends the group of an item, when it was received, its stamp, the length of its body, and the first bytes of it.
fn put_item(item: &Item, out: &mut MemorySink) {
    number(out, u64::from(item.group));
    number(out, item.received);
    number(out, u64::try_from(item.utc).unwrap_or(u64::MAX));
    number(out, item.bytes.len() as u64);
    let body = item.bytes.as_slice();
    put(out, b" ");
    let _ = print_escaped(&body[..body.len().min(48)], out);
    put(out, b"\n");
}

// Appends how a feed ends.
fn put_end(end: Result<bool, FeedFault>, out: &mut MemorySink) {
    match end {
        Ok(_) => word(out, b"end"),
        Err(FeedFault::Fault) => word(out, b"fault"),
        Err(
            FeedFault::Refused {
                number: rule,
                offset,
            },
        ) => {
            word(out, b"refused");
            number(out, u64::from(rule));
            number(out, offset);
        }
    }
}

// The items of a feed, and how it ends. The header was read.
fn put_items<S: Source>(reader: &mut FeedReader, source: &mut S, out: &mut MemorySink)
    requires { reader.old.begun ≡ true }
{
    let mut item = Item::new();
    for _ in 0..100 {
        match reader.item(source, &mut item) {
            Ok(true) => put_item(&item, out),
            end => {
                put_end(end, out);
                return;
            }
        }
    }
}

fn put_feed<S: Source>(limit: u64, source: &mut S, out: &mut MemorySink) {
    let mut reader = FeedReader::new(limit % 100);
    match reader.header(source) {
        Ok(()) => put_items(&mut reader, source, out),
        Err(fault) => put_end(Err(fault), out),
    }
}

/// The items of the feed that these bytes are, at most so many.
pub(crate) fn feed(alloc: Global, limit: u64, bytes: Vec<u8>, out: &mut MemorySink) {
    let mut source = MemorySource::new(bytes, 5, Vec::new(alloc));
    put_feed(limit, &mut source, out);
}

/// The items of the generated feed from this seed on, of this length.
pub(crate) fn generated(seed: u64, count: u64, out: &mut MemorySink) {
    let mut source = GeneratedFeed::new((seed % 100) as u32, count % 100);
    put_feed(99, &mut source, out);
}
