//! Runs the program's command line on files. Each word is the name of a script of data/, which says which commands are run, and
//! what each prints, tells a person and ends with. One that is not met is told with its line, and the commands of each script are
//! counted. docs/SCRIPTS.md says what stands in a script.
#![tactic(auto)]

mod asking;
mod bench;
mod errors;
mod paths;
mod words;

use anyhow::Result;
use asking::ask;
use bench::Bench;
use std::net::{Net, TcpListener, TcpStream};
use std::sync::Wait;
use std::thread::Threads;
use std::time::Clock;
use std::{env, fs};
use words::first_word;

// Tells a line that can't be followed.
fn tell<R: Print>(rt: &R, name: &str, number: usize, line: &str, why: &anyhow::Error) {
    let _ = println!(rt; "{name}:{number}: {line}: {why}");
}

// Follows a line of a script.
fn follow<
    R: AllocGlobal
        + Net<Listener = TcpListener, Stream = TcpStream>
        + Clock
        + Print
        + Eprint
        + Threads
        + Wait
        + Sync,
>(
    rt: &R,
    host: &HostRuntime,
    bench: &mut Bench,
    name: &str,
    number: usize,
    line: &str,
) -> Result<()> {
    let (verb, rest) = first_word(line);
    if verb != "$" {
        return bench.follow(host, verb, rest);
    }
    bench.settle(host, name)?;
    bench.take(number, ask(rt, host, rest)?);
    Ok(())
}

// Follows the lines of a script. Gives how many commands were run.
fn follow_all<
    R: AllocGlobal
        + Net<Listener = TcpListener, Stream = TcpStream>
        + Clock
        + Print
        + Eprint
        + Threads
        + Wait
        + Sync,
>(rt: &R, host: &HostRuntime, name: &str, script: &str) -> Result<u64> {
    let mut bench = Bench::new(host.alloc());
    for (index, line) in script.lines().enumerate() {
        let number = index.saturating_add(1);
        if line.is_empty() || line.starts_with('#') {
            continue;
        }
        if let Err(why) = follow(rt, host, &mut bench, name, number, line) {
            tell(host, name, number, line, &why);
        }
    }
    bench.settle(host, name)?;
    Ok(bench.count())
}

fn main(rt: HostRuntime) -> Result<()> {
    for name in env::args(&rt)?.skip(1) {
        let script = fs::read_to_string(&rt, name.as_str())?;
        let count = follow_all(&rt, &rt, name.as_str(), script.as_str())?;
        println!(rt; "{name}: {count} commands")?;
    }
    Ok(())
}
