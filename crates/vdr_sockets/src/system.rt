// The sockets of the operating system. They tell nothing of what goes over them.
use crate::dropped::{TABLE, dropped_in};
use crate::hosts::{DatagramSocket, HasPorts, HasStreams, Peer};
use std::fs::{File, Files};
use std::io;
use std::io::{Read, Write};
use std::net::{Ipv4Addr, Net, SocketAddr, TcpListener, TcpStream, UdpSocket};
use std::time::Duration;

impl DatagramSocket for UdpSocket {
    ghost use Rattle.std.specs.Prelude.{None};

    ghost seen = { λ _. None };

    fn recv(&mut self, into: &mut [u8]) -> io::Result<usize> {
        UdpSocket::recv(self, into)
    }
}

impl<R: Net + Files<File = File>> HasPorts for R {
    type Socket = UdpSocket;

    fn bind_port(&self, number: u16, wait: Duration) -> io::Result<UdpSocket> {
        let socket = UdpSocket::bind(self, SocketAddr::from((Ipv4Addr::UNSPECIFIED, number)))?;
        socket.set_read_timeout(Some(wait))?;
        Ok(socket)
    }

    fn dropped(&self, number: u16) -> Option<u64> {
        dropped_in(File::open(self, TABLE).ok()?, number)
    }
}

impl Peer for TcpStream {
    ghost use Rattle.std.specs.Prelude.{None};

    ghost sent = { λ _. None };

    fn read(&mut self, into: &mut [u8]) -> io::Result<usize> {
        Read::read(self, into)
    }

    fn write(&mut self, bytes: &[u8]) -> io::Result<usize> {
        Write::write(self, bytes)
    }
}

impl<R: Net<Listener = TcpListener, Stream = TcpStream>> HasStreams for R {
    ghost use Rattle.std.specs.Prelude.{None};

    type Incoming = TcpListener;

    type Peer = TcpStream;

    ghost listens = { λ _. None };

    fn listen(&self, [a, b, c, d]: [u8; 4], number: u16) -> io::Result<TcpListener> {
        let address = SocketAddr::from((Ipv4Addr::new(a, b, c, d), number));
        let listener = TcpListener::bind(self, address)?;
        listener.set_nonblocking(true)?;
        Ok(listener)
    }

    fn accept(&self, incoming: &TcpListener) -> io::Result<TcpStream> {
        let (stream, _) = incoming.accept()?;
        stream.set_nonblocking(true)?;
        stream.set_nodelay(true)?;
        Ok(stream)
    }
}
