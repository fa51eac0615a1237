//! Runs scripts of the program's commands over media, ports and links in memory. Each word is the name of a script; a
//! line that is not met is told with its number, and the lines of each script are counted. docs/SCRIPTS.md says what
//! stands in a script.
#![tactic(auto)]

mod bench;
mod escapes;
mod gates;
mod lines;
mod media;
mod ran;
mod running;
mod setting;
mod stored;
mod texts;

use anyhow::Result;
use bench::Bench;
use lines::{Line, expanded};
use std::sync::Wait;
use std::thread::Threads;
use std::time::Clock;
use std::{env, fs};

// Follows the lines of a script, and tells those that are not met.
fn follow<R: Print + Threads + Wait + Clock + Sync>(
    rt: &R,
    bench: &mut Bench,
    name: &str,
    lines: &[Line],
) -> Result<()> {
    for line in lines {
        if let Err(unmet) = bench.follow(rt, line.text.as_str()) {
            let number = line.number;
            let text = line.text.as_str();
            println!(rt; "{name}:{number}: {text}: {unmet}")?;
            bench.tell(rt)?;
        }
    }
    if let Err(unmet) = bench.end() {
        println!(rt; "{name}: {unmet}")?;
        bench.tell(rt)?;
    }
    Ok(())
}

fn main(rt: HostRuntime) -> Result<()> {
    let mut bench = Bench::new(rt.alloc());
    for name in env::args(&rt)?.skip(1) {
        let script = fs::read_to_string(&rt, name.as_str())?;
        let lines = expanded(rt.alloc(), script.as_str())?;
        follow(&rt, &mut bench, name.as_str(), lines.as_slice())?;
        let count = lines.len();
        println!(rt; "{name}: {count} lines")?;
    }
    Ok(())
}
