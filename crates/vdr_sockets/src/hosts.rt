// The host's sockets, as traits: what is told of those that are opened, and of what goes over them.
ghost use Rattle.std.specs.Prelude.{◌≡◌, [], Some, None, take, IfOk, OnErr};
ghost use Rattle.std.specs.Io.{ReadsAtMost, WritesAtMost};
ghost use Rattle.std.specs.Io.KnownBytes.{Keeps, WriteAppends};
ghost use Rattle.vdr_sockets.specs.Sockets.{IsListener, IsSocket, Receives};

use std::io;
use std::time::Duration;

/// A socket that receives the datagrams of a UDP port.
pub trait DatagramSocket {
    ghost use Rattle.std.specs.Prelude.{Option};
    ghost use Rattle.vdr_sockets.specs.Sockets.{SocketSeen};

    /// To which port it is bound, and what it gave, where it tells that.
    ghost seen: { Self → Option SocketSeen };

    /// Waits for the next datagram, and puts as much of it as there is room for into a front of the buffer.
    fn recv(&mut self, into: &mut [u8]) -> io::Result<usize>
        ensures bound { ReadsAtMost result into.new }
        ensures given { IfOk result (λ n. Receives (seen self.old) (seen self.new) (Some (take n into.new))) }
        ensures none { OnErr result (Receives (seen self.old) (seen self.new) None) };
}

/// A host whose UDP ports can be bound.
pub trait HasPorts {
    /// Its sockets.
    type Socket: DatagramSocket + Drop;

    /// Binds the UDP port of this number on all addresses of the host. A call on the socket waits for a datagram at most so long.
    fn bind_port(&self, number: u16, wait: Duration) -> io::Result<Self::Socket>
        ensures { IfOk result (λ socket. IsSocket (Self.Socket.seen socket) (record { number = number; received = [] })) };

    /// How many datagrams it dropped for the socket that is bound to this port on all its addresses, None where it tells none.
    fn dropped(&self, number: u16) -> Option<u64>;
}

/// The other end of a connection.
pub trait Peer {
    ghost use Rattle.std.specs.Prelude.{ℕ, List, Option};

    /// The bytes that were sent to it, where it tells them.
    ghost sent: { Self → Option (List ℕ) };

    /// Puts bytes that came of it into a front of the buffer. It doesn't wait: where none came that is an error of kind `WouldBlock`.
    fn read(&mut self, into: &mut [u8]) -> io::Result<usize>
        ensures bound { ReadsAtMost result into.new }
        ensures sent { Keeps (sent self.old) (sent self.new) };

    /// Sends a front of the bytes. It doesn't wait: where there is no room that is an error of kind `WouldBlock`.
    fn write(&mut self, bytes: &[u8]) -> io::Result<usize>
        ensures bound { WritesAtMost result bytes.now }
        ensures sent { WriteAppends (sent self.old) (sent self.new) result bytes.now };
}

/// A host that listens for TCP connections.
pub trait HasStreams {
    ghost use Rattle.std.specs.Prelude.{Option};
    ghost use Rattle.vdr_sockets.specs.Sockets.{ListenerSeen};

    /// What waits for connections.
    type Incoming: Drop;

    /// Who has connected.
    type Peer: Peer + Drop;

    /// On which address and port it listens, where it tells that.
    ghost listens: { Self.Incoming → Option ListenerSeen };

    /// Listens at the port of this number, on the address of these octets alone.
    fn listen(&self, address: [u8; 4], number: u16) -> io::Result<Self::Incoming>
        ensures { IfOk result (λ incoming. IsListener (listens incoming) (record { address = address; number = number })) };

    /// The next connection. It doesn't wait: where there is none that is an error of kind `WouldBlock`.
    fn accept(&self, incoming: &Self::Incoming) -> io::Result<Self::Peer>;
}
