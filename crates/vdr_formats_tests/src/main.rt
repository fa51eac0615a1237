//! Calls what reads, writes, selects and prints formats on the rows of data files, and tells how many answers
//! differ from those that the rows expect.
#![tactic(auto)]

mod bench;
mod configurations;
mod escapes;
mod feeds;
mod headers;
mod messages;
mod orders;
mod printing;
mod rates;
mod records;
mod rows;
mod sentences;
mod tables;

use bench::Bench;
use rows::row_of;
use std::{fs, io};

/// The files of rows.
const FILES: [&str; 13] = [
    "sentences.txt",
    "tags.txt",
    "values.txt",
    "datagrams.txt",
    "headers.txt",
    "records.txt",
    "configurations.txt",
    "channels.txt",
    "feeds.txt",
    "orders.txt",
    "watches.txt",
    "targets.txt",
    "tables.txt",
];

// Tells of a row whose answer differs from the expected one.
fn mismatch<R: Print>(rt: &R, file: &str, number: u32, answer: &str) {
    let _ = println!(rt; "MISMATCH {file}:{number}: {answer}");
}

// Calls the rows of a text. Gives how many there are, and how many answers differ from the expected ones.
fn compare<R: Print>(rt: &R, bench: &mut Bench, file: &str, text: &str) -> (u32, u32) {
    let mut number: u32 = 0;
    let mut rows: u32 = 0;
    let mut differ: u32 = 0;
    for line in text.lines() {
        number = number.saturating_add(1);
        if line.is_empty() || line.starts_with('#') {
            continue;
        }
        rows = rows.saturating_add(1);
        let row = row_of(line);
        if !bench.agrees(&row) {
            differ = differ.saturating_add(1);
            mismatch(rt, file, number, bench.answer());
        }
    }
    (rows, differ)
}

fn main(rt: HostRuntime) -> io::Result<()> {
    let mut bench = Bench::new(rt.alloc());
    for file in FILES {
        let text = fs::read_to_string(&rt, file)?;
        let (rows, differ) = compare(&rt, &mut bench, file, &text);
        println!(rt; "{file}: {rows} rows, {differ} differ")?;
    }
    Ok(())
}
