//! Runs the objects of the outside over the operating system: files as media, ports and links over sockets, what a client tells of
//! replies; and standard streams. Each word is the name of a script of data/, which says what is done and what is expected. A line
//! that is not met is told with its number, and the lines of each script are counted. docs/SCRIPTS.md says what stands in a script.
#![tactic(auto)]

mod client;
mod devices;
mod gauges;
mod hosts;
mod media;
mod paths;
mod peers;
mod shelf;
mod sockets;
mod streams;
mod wires;
mod words;

use anyhow::{Context, Error, Result, ensure};
use shelf::Shelf;
use std::time::{Clock, Duration};
use std::{env, fs};
use vdr_adapters::SystemFile;
use vdr_outside::{Link, Port};
use vdr_sockets::{Alarm, TcpLink, UdpPort};
use wires::Wires;
use words::{first_word, port_number};

// A value that may go to another thread.
fn sendable<T: Send>(value: T) -> T {
    value
}

// The numbers of the link's and of the port's port, which the first line of a script tells: `on LINK PORT`.
fn numbers(script: &str) -> Result<(u16, u16)> {
    let first = script.lines().next().context("an empty script")?;
    let (verb, rest) = first_word(first);
    ensure!(verb == "on", "no ports");
    let (link, port) = first_word(rest);
    Ok((port_number(link)?, port_number(port)?))
}

// Follows a line that is about this host, replies and files.
fn follow_beside(rt: &HostRuntime, verb: &str, rest: &str) -> Result<()> {
    match verb {
        "group" => hosts::is_group(rt, rest),
        "port-beside" => hosts::port_fails(rt, rest),
        "closed" => hosts::is_closed(rt, rest),
        "send" => hosts::send_run(rt, rest),
        "socket" => hosts::make_socket(rt, rest),
        "drops" => gauges::drops(rest),
        "ago" => gauges::ago(rest),
        "client" => client::tells(rt.alloc(), rest),
        _ => paths::follow(rt, verb, rest),
    }
}

// Follows a line of a script.
fn follow<'a, L: Link + Drop, P: Port + Drop>(
    rt: &'a HostRuntime,
    alarm: &'a Alarm,
    shelf: &mut Shelf<'a, SystemFile<&'a HostRuntime>>,
    wires: &mut Wires<L, P>,
    line: &str,
) -> Result<()> {
    let (verb, rest) = first_word(line);
    if let Some(done) = shelf.follow(rt.alloc(), alarm, verb, rest) {
        return done;
    }
    if let Some(done) = shelf::follow(rt, shelf, verb, rest) {
        return done;
    }
    if let Some(done) = wires.follow(rt, verb, rest) {
        return done;
    }
    follow_beside(rt, verb, rest)
}

// Tells a line that is not met.
fn tell(rt: &HostRuntime, name: &str, index: usize, line: &str, unmet: &Error) {
    let number = index.saturating_add(1);
    let _ = println!(rt; "{name}:{number}: {line}: {unmet}");
}

// Follows the lines of a script, and tells those that are not met. Gives how many there are.
fn follow_all<'a, L: Link + Drop, P: Port + Drop>(
    rt: &'a HostRuntime,
    alarm: &'a Alarm,
    wires: &mut Wires<L, P>,
    name: &str,
    script: &str,
) -> u64 {
    let mut shelf = Shelf::new();
    let mut count = 0u64;
    for (index, line) in script.lines().enumerate() {
        if index > 0 && !line.is_empty() && !line.starts_with('#') {
            count = count.saturating_add(1);
            if let Err(unmet) = follow(rt, alarm, &mut shelf, wires, line) {
                tell(rt, name, index, line, &unmet);
            }
        }
    }
    count
}

// Follows the lines of a script over a link and a port of these numbers.
fn follow_over(
    rt: &HostRuntime,
    (link, port): (u16, u16),
    began: Duration,
    name: &str,
    script: &str,
) -> u64 {
    let alarm = Alarm::new();
    let tcp = sendable(TcpLink::with_number(rt, link)).until(&alarm);
    let udp = sendable(UdpPort::with_number(rt, port, began)).until(&alarm);
    let mut wires = Wires::new(rt.alloc(), link, tcp, udp);
    follow_all(rt, &alarm, &mut wires, name, script)
}

// Runs a script. Gives how many lines it has.
fn run(rt: &HostRuntime, name: &str) -> Result<u64> {
    let script = fs::read_to_string(rt, name)?;
    let numbers = numbers(script.as_str())?;
    let began = rt.monotonic()?;
    Ok(follow_over(rt, numbers, began, name, script.as_str()))
}

// Runs the scripts of these names, and tells how many lines each has.
fn run_all(rt: &HostRuntime) -> Result<()> {
    for name in env::args(rt)?.skip(1) {
        let count = run(rt, name.as_str())?;
        println!(rt; "{name}: {count} lines")?;
    }
    Ok(())
}

// What is read and written over streams.
fn run_streams(rt: &HostRuntime) -> Result<()> {
    streams::are_read()?;
    streams::are_written(rt.alloc())?;
    streams::read_no_folder(rt)?;
    streams::fill_no_device(rt)?;
    streams::are_filled(rt)
}

fn main(rt: HostRuntime) -> Result<()> {
    run_all(&rt)?;
    run_streams(&rt)?;
    println!(rt; "streams: done")?;
    Ok(())
}
