// Recordings over ports that wait: for each other, or for what a link sees recorded.
use crate::running::{MemoryWorld, answered};
use anyhow::Result;
use std::alloc::{AllocError, Global};
use std::sync::Wait;
use std::thread::Threads;
use std::time::Clock;
use vdr_capture::Lane;
use vdr_memory::{Flag, GatedLink, GatedPort, MemoryLink, PortItem, meeting_ports};
use vdr_session::{Desk, Mark, Piece};
use vdr_tool::Status;

/// The groups of NAVD and VDRD.
const NAVD: u8 = 3;

const VDRD: u8 = 4;

// A gate that is open.
fn open_gate(alloc: Global) -> Result<Flag, AllocError> {
    let gate = Flag::new(alloc)?;
    gate.set();
    Ok(gate)
}

// A port that has nothing to give.
fn empty_port<C: Clock + Copy>(clock: C, alloc: Global) -> Result<GatedPort<C>, AllocError> {
    Ok(GatedPort::new(clock, Vec::new(alloc), open_gate(alloc)?))
}

// A port that gives one datagram once the gate is open.
fn gated_port<C: Clock + Copy>(
    clock: C,
    alloc: Global,
    gate: Flag,
) -> Result<GatedPort<C>, AllocError> {
    let item = PortItem {
        received: 0,
        utc: 0,
        bytes: b"AbCdE\0".to_vec(alloc)?,
    };
    Ok(GatedPort::new(clock, vec![in alloc; item]?, gate))
}

// A lane for each group, over the ports of NAVD and VDRD and over ports that have nothing to give.
fn lanes_of<C: Clock + Copy>(
    clock: C,
    alloc: Global,
    navd: GatedPort<C>,
    vdrd: GatedPort<C>,
) -> Result<Vec<Lane<GatedPort<C>>>, AllocError> {
    let mut navd = Some(navd);
    let mut vdrd = Some(vdrd);
    let mut lanes = Vec::new(alloc);
    for group in 0..16u8 {
        let port = match group {
            NAVD => navd.take(),
            VDRD => vdrd.take(),
            _ => None,
        };
        let port = match port {
            Some(port) => port,
            None => empty_port(clock, alloc)?,
        };
        lanes.push(Lane::new(port, group))?;
    }
    Ok(lanes)
}

/// Runs a command over ports of NAVD and VDRD of which each gives a second datagram only once the other gave its
/// first: whoever captures one port to its end before the other waits for good.
pub(crate) fn answered_meeting<R: Threads + Wait + Clock + Sync>(
    rt: &R,
    alloc: Global,
    words: &[String],
    world: &mut MemoryWorld,
) -> Result<Status> {
    let (navd, vdrd) = meeting_ports(rt, alloc)?;
    let mut lanes = lanes_of(rt, alloc, navd, vdrd)?;
    let mut desks: [Desk<MemoryLink, Mark>; 0] = [];
    answered(rt, alloc, words, world, lanes.as_mut_slice(), &mut desks)
}

/// Runs a command over a port of NAVD that waits until a link has seen two records, and one of VDRD that gives its
/// datagram at once: whoever captures one port to its end before it commits what another gave takes nothing of NAVD.
pub(crate) fn answered_gated<R: Threads + Wait + Clock + Sync>(
    rt: &R,
    alloc: Global,
    words: &[String],
    world: &mut MemoryWorld,
) -> Result<Status> {
    let gate = Flag::new(alloc)?;
    let navd = gated_port(rt, alloc, gate.share()?)?;
    let vdrd = gated_port(rt, alloc, open_gate(alloc)?)?;
    let mut lanes = lanes_of(rt, alloc, navd, vdrd)?;
    let awaited = b"OK records 2 ".to_vec(alloc)?;
    let piece = Box::new(alloc, Piece::new())?;
    let mut desks = [Desk::new(GatedLink::new(rt, awaited, gate), piece)];
    answered(rt, alloc, words, world, lanes.as_mut_slice(), &mut desks)
}
