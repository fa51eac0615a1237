// The desk of a recording.
use std::alloc::{AllocError, Global};
use std::net::{Net, TcpListener, TcpStream};
use std::time::Clock;
use vdr_session::{Desk, Mark, Piece};
use vdr_sockets::{Alarm, TcpLink};

/// The desk at which an operator's orders are answered, over a TCP link on this host's own address, which listens when it is first asked,
/// and ends once the alarm is raised. It takes the memory for a piece of a long reply.
pub fn tcp_desk<
    'a,
    R: AllocGlobal + Net<Listener = TcpListener, Stream = TcpStream> + Clock + Eprint,
>(
    rt: &'a R,
    alloc: Global,
    alarm: &'a Alarm,
) -> Result<Desk<TcpLink<'a, &'a R>, Mark>, AllocError> {
    let piece = Box::new(alloc, Piece::new())?;
    Ok(Desk::new(TcpLink::new(rt).until(alarm), piece))
}
