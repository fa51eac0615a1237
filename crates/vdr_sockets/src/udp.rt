// The port of a transmission group over UDP (IEC 61162-450).
ghost use Rattle.std.specs.Prelude.{◌≡◌, ◌≢◌, ◌≤◌, ◌<◌, ◌+◌, ◌^◌, None, [], length, IfOk, OnErr};
ghost use Rattle.vdr_terms.specs.Stamps.{IsStamp};
ghost use Rattle.vdr_outside.specs.Calls.{asked_again};
ghost use Rattle.vdr_outside.specs.Causes.{Rose};
ghost use Rattle.vdr_outside.specs.Takes.{Takes, answer_of};
ghost use Rattle.vdr_outside.specs.declared.port.Taken.TheVariants.{Failed};
ghost use Rattle.vdr_sockets.specs.Sockets.{Begins, Hands, IsBoundTo, came_as, given, untold};
ghost use Rattle.vdr_sockets.specs.declared.udp.Came.TheVariants.{Datagram};

use crate::alarm::Alarm;
use crate::calls::Calls;
use crate::heard::LastHeard;
use crate::hosts::{DatagramSocket, HasPorts};
use crate::journal::Journal;
use arrayvec::ArrayVec;
use std::io;
use std::io::ErrorKind;
use std::time::{Clock, Duration};
use vdr_outside::{LONGEST_TAKEN, Port, Taken};
use vdr_terms::LAST_STAMP;

/// The port of the first transmission group (IEC 61162-450). That of group g is g higher.
const FIRST_PORT: u16 = 60_001;

/// How many milliseconds a take waits for a datagram.
const WAIT: u64 = 50;

/// The greatest `received`.
const LAST_RECEIVED: u64 = (1 << 48) - 1;

/// The UDP port of a group, 0 to 15.
pub fn port_of(group: u8) -> u16
    requires { group < 16 }
    ensures { result ≡ 60001 + group }
{
    FIRST_PORT + u16::from(group)
}

// What came to a port.
#[derive(Clone, Copy, Drop)]
enum Came {
    Datagram,
    // None, in the time that a take waits.
    Nothing,
    // The alarm is raised.
    Over,
}

/// The datagrams of a transmission group, as they come to its UDP port on all addresses of the host. The port is bound at the first
/// take. A bind or a receive that fails is told on the standard error, and counted. Once its alarm is raised it has ended. It tells no
/// content.
#[derive(Drop)]
pub struct UdpPort<'a, R: HasPorts + Clock + Eprint + Drop> {
    rt: R,
    alarm: Option<&'a Alarm>,
    heard: Option<&'a LastHeard>,
    journal: Journal,
    number: u16,
    // The reading of the monotonic clock as capture began.
    began: Duration,
    socket: Option<R::Socket>,
    // The last `received`.
    floor: u64,
    calls: Calls,
    faults: u64,
    ghost small: { floor < 2 ^ 48 },
    ghost bound: { IsBoundTo R.Socket.seen socket number },
}

impl<'a, R: HasPorts + Clock + Eprint + Drop> UdpPort<'a, R> {
    /// The port of a group, 0 to 15. `began` is the reading of the monotonic clock as capture began, from which `received` counts.
    pub fn new(rt: R, group: u8, began: Duration) -> UdpPort<'a, R>
        requires { group < 16 }
        ensures { result.number ≡ 60001 + group }
    {
        UdpPort::with_number(rt, port_of(group), began)
    }

    /// A port of this number.
    pub fn with_number(rt: R, number: u16, began: Duration) -> UdpPort<'a, R>
        ensures { result.number ≡ number }
    {
        UdpPort {
            rt,
            alarm: None,
            heard: None,
            journal: Journal::new(),
            number,
            began,
            socket: None,
            floor: 0,
            calls: Calls::new(),
            faults: 0,
        }
    }

    /// The same port, which ends once the alarm is raised.
    pub fn until(mut self, alarm: &'a Alarm) -> UdpPort<'a, R> {
        self.alarm = Some(alarm);
        self
    }

    /// The same port, which tells this object when it was last heard.
    pub fn telling(mut self, heard: &'a LastHeard) -> UdpPort<'a, R> {
        self.heard = Some(heard);
        self
    }

    // The number of its transmission group.
    fn group(&self) -> u16 {
        self.number.saturating_sub(FIRST_PORT)
    }

    // Tells that a datagram came, or that none did.
    fn tell(&mut self, came: bool, now: u64)
        ensures socket { self.new.socket ≡ self.old.socket }
        ensures number { self.new.number ≡ self.old.number }
        ensures floor { self.new.floor ≡ self.old.floor }
        ensures calls { self.new.calls ≡ self.old.calls }
        ensures faults { self.new.faults ≡ self.old.faults }
    {
        let (group, number) = (self.group(), self.number);
        self.journal.tell(&self.rt, came, group, number, now);
        note(self.heard, came, group, now);
    }

    // Whether the alarm is raised.
    fn is_over(&self) -> bool {
        self.alarm.is_some_and(Alarm::is_raised)
    }

    // Binds the port, if that was not done yet.
    fn bind(&mut self) -> io::Result<()>
        ensures begun { Begins R.Socket.seen self.old.socket self.new.socket self.old.number }
        ensures number { self.new.number ≡ self.old.number }
        ensures floor { self.new.floor ≡ self.old.floor }
        ensures calls { self.new.calls ≡ self.old.calls }
        ensures faults { self.new.faults ≡ self.old.faults }
    {
        if self.socket.is_none() {
            let wait = Duration::from_millis(WAIT);
            self.socket = Some(self.rt.bind_port(self.number, wait)?);
        }
        Ok(())
    }

    // Receives a datagram, if one comes in time and the alarm isn't raised.
    fn receive(&mut self, into: &mut ArrayVec<u8, LONGEST_TAKEN>) -> io::Result<Came>
        ensures none { IfOk result (λ came. came ≢ Datagram → into.new.items ≡ []) }
        ensures failed { OnErr result (into.new.items ≡ []) }
        ensures short { length into.new.items ≤ LONGEST_TAKEN }
        ensures given { IfOk result (λ came. Hands R.Socket.seen self.old.socket self.new.socket self.old.number (came_as came into.new.items)) }
        ensures not_given { OnErr result (Hands R.Socket.seen self.old.socket self.new.socket self.old.number None) }
        ensures number { self.new.number ≡ self.old.number }
        ensures floor { self.new.floor ≡ self.old.floor }
        ensures calls { self.new.calls ≡ self.old.calls }
        ensures faults { self.new.faults ≡ self.old.faults }
    {
        into.clear();
        if self.is_over() {
            return Ok(Came::Over);
        }
        self.bind()?;
        let Some(socket) = &mut self.socket else {
            return Ok(Came::Nothing);
        };
        let mut buffer = [0; LONGEST_TAKEN];
        match socket.recv(&mut buffer) {
            Ok(count) => {
                let _ = into.try_extend_from_slice(&buffer[..count]);
                Ok(Came::Datagram)
            }
            Err(error) if is_no_fault(&error) => Ok(Came::Nothing),
            Err(error) => Err(error),
        }
    }

    // The milliseconds since capture began. They never fall, also where the clock can't be read.
    fn received(&self) -> u64
        ensures later { self.now.floor ≤ result }
        ensures small { result < 2 ^ 48 }
    {
        let elapsed = match self.rt.monotonic() {
            Ok(now) => now.saturating_sub(self.began),
            Err(_) => Duration::ZERO,
        };
        milliseconds(elapsed, LAST_RECEIVED).max(self.floor)
    }

    // The stamp of now: the system's clock, within the range of stamps, and the first stamp where it can't be read.
    fn utc(&self) -> i64
        ensures { IsStamp result }
    {
        let since = self.rt.since_1970().unwrap_or(Duration::ZERO);
        milliseconds(since, LAST_STAMP as u64) as i64
    }
}

// The milliseconds of a time, and the most where they are more.
fn milliseconds(time: Duration, most: u64) -> u64
    ensures { result ≤ most }
{
    u64::try_from(time.as_millis()).unwrap_or(most).min(most)
}

// Notes for whoever asks that a datagram of the group came.
fn note(heard: Option<&LastHeard>, came: bool, group: u16, now: u64) {
    if let Some(heard) = heard
        && came
    {
        heard.note(group, now);
    }
}

// Whether a wait ended without a datagram: in vain, or by a signal.
pub(crate) fn is_no_fault(error: &io::Error) -> bool {
    matches!(
        error.kind(),
        ErrorKind::WouldBlock | ErrorKind::TimedOut | ErrorKind::Interrupted
    )
}

impl<'a, R: HasPorts + Clock + Eprint + Drop> Port for UdpPort<'a, R> {
    ghost standing = { λ s. untold s.floor };

    ghost asked = { λ s. s.calls };

    ghost faults = { λ s. s.faults };

    fn take(&mut self, into: &mut ArrayVec<u8, LONGEST_TAKEN>) -> Taken
        // what it gives is the one datagram that the group's socket gave
        ensures own { Hands R.Socket.seen self.old.socket self.new.socket self.old.number (given result into.new.items) }
        ensures number { self.new.number ≡ self.old.number }
        ensures took { Takes (untold self.old.floor) (untold self.new.floor) result into.new.items }
        ensures asked { self.new.calls ≡ asked_again self.old.calls (answer_of result) }
        ensures later { self.old.faults ≤ self.new.faults }
        ensures cause { result ≡ Failed → Rose self.old.faults self.new.faults }
    {
        match self.receive(into) {
            Ok(Came::Over) => {
                self.calls.count_end();
                Taken::Ended
            }
            Ok(Came::Nothing) => {
                let now = self.received();
                self.tell(false, now);
                self.calls.count();
                Taken::Quiet
            }
            Ok(Came::Datagram) => {
                let received = self.received();
                let utc = self.utc();
                self.tell(true, received);
                self.floor = received;
                self.calls.count();
                Taken::Datagram { received, utc }
            }
            Err(error) => {
                let number = self.number;
                let _ = eprintln!(self.rt; "vdr: UDP port {number}: {error}");
                self.faults = self.faults.saturating_add(1);
                self.calls.count_failure();
                Taken::Failed
            }
        }
    }
}
