// What is done on this host beside the port and the link of a script.
use crate::sockets::{hear_of, take, take_of};
use crate::words::{expect, first_word, number, port_number, run_of_word, small_number};
use anyhow::{Result, ensure};
use std::net::{Ipv4Addr, SocketAddr, TcpStream, UdpSocket};
use std::os::unix::net::UnixListener;
use std::time::{Clock, Duration};
use vdr_outside::Port;
use vdr_sockets::{TcpLink, UdpPort};

// A port of this host.
fn at(number: u16) -> SocketAddr {
    SocketAddr::from((Ipv4Addr::LOCALHOST, number))
}

// Sends a datagram.
fn send(rt: &HostRuntime, number: u16, bytes: &[u8]) -> Result<()> {
    UdpSocket::bind(rt, at(0))?.send_to(bytes, at(number))?;
    Ok(())
}

/// Sends a datagram to a port: so many bytes, each the first of a text.
pub(crate) fn send_run(rt: &HostRuntime, rest: &str) -> Result<()> {
    let (word, rest) = first_word(rest);
    let (count, text) = first_word(rest);
    let number = port_number(word)?;
    let bytes = run_of_word(rt.alloc(), count, text)?;
    send(rt, number, bytes.as_slice())
}

// That a port gives what is sent to this number.
fn gives<P: Port>(rt: &HostRuntime, port: &mut P, number: u16) -> Result<()> {
    take_of(port, "quiet")?;
    send(rt, number, b"GGGGGGG")?;
    take(port, &mut 0, "7 G")
}

// That what is sent to 60,001 + g comes to the port of group g.
fn has_port(rt: &HostRuntime, group: u8, now: Duration) -> Result<()> {
    ensure!(group < 16, "no group");
    let number = 60_001 + u16::from(group);
    gives(rt, &mut UdpPort::new(rt, group, now), number)
}

/// That what is sent to the port of a group comes to it.
pub(crate) fn is_group(rt: &HostRuntime, word: &str) -> Result<()> {
    has_port(rt, small_number(word)?, rt.monotonic()?)
}

/// That a link on a port which another one has can't listen.
pub(crate) fn link_fails(rt: &HostRuntime, number: u16) -> Result<()> {
    hear_of(&mut TcpLink::with_number(rt, number), "failed")
}

/// That a port which another one has can't be bound.
pub(crate) fn port_fails(rt: &HostRuntime, word: &str) -> Result<()> {
    let number = port_number(word)?;
    let now = rt.monotonic()?;
    take_of(&mut UdpPort::with_number(rt, number, now), "failed")
}

/// That nobody listens there.
pub(crate) fn is_closed(rt: &HostRuntime, at: &str) -> Result<()> {
    expect(TcpStream::connect(rt, at).is_err(), "it listens")
}

/// Makes a socket of the file system. It stays there once it is closed.
pub(crate) fn make_socket(rt: &HostRuntime, path: &str) -> Result<()> {
    drop(UnixListener::bind(rt, path)?);
    Ok(())
}

/// A further peer of a link.
pub(crate) fn connect(rt: &HostRuntime, link: u16, peers: &mut Vec<TcpStream>) -> Result<()> {
    peers.push(TcpStream::connect(rt, at(link))?)?;
    Ok(())
}

/// Takes time from now on.
pub(crate) fn begin(rt: &HostRuntime, began: &mut Duration) -> Result<()> {
    *began = rt.monotonic()?;
    Ok(())
}

/// That fewer milliseconds passed than a word says.
pub(crate) fn is_within(rt: &HostRuntime, began: Duration, word: &str) -> Result<()> {
    let taken = rt.monotonic()?.saturating_sub(began).as_millis();
    expect(taken < u128::from(number(word)?), "it took longer")
}
