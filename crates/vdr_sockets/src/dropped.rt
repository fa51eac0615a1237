// How many datagrams the host dropped for a UDP port, by its table /proc/net/udp.
//
// A row has the number of its slot, then the local address and port in hexadecimal digits, and the dropped datagrams as its last
// word. Nothing rests on it.
use arrayvec::ArrayVec;
use std::fs::File;
use std::io::Read;

/// The table of the host's UDP sockets.
pub(crate) const TABLE: &str = "/proc/net/udp";

/// Room for a row, in bytes.
const ROOM: usize = 256;

/// How many reads of the table are made at most.
const READS: u32 = 4_096;

// The last hexadecimal digit of a number.
fn digit(number: u16) -> u8 {
    let value = (number % 16) as u8;
    if value < 10 {
        return b'0' + value;
    }
    b'A' + (value - 10)
}

// How a row says that it is bound to this port on all addresses.
fn local(number: u16) -> [u8; 14] {
    let first = digit(number / 4_096);
    let second = digit(number / 256);
    let third = digit(number / 16);
    let fourth = digit(number);
    [
        b'0', b'0', b'0', b'0', b'0', b'0', b'0', b'0', b':', first, second, third, fourth, b' ',
    ]
}

/// What a row of the table says was dropped, if it is that of the socket which is bound to this port on all addresses.
pub fn drops_in(row: &[u8], number: u16) -> Option<u64> {
    let row = std::str::from_utf8(row).ok()?;
    let local = local(number);
    let local = std::str::from_utf8(local.as_slice()).ok()?;
    let (_, words) = row.split_once(": ")?;
    let rest = words.strip_prefix(local)?;
    let (_, drops) = rest.trim_end().rsplit_once(' ')?;
    drops.parse().ok()
}

// A row on its way, as its bytes come.
#[derive(Drop)]
struct Row {
    bytes: ArrayVec<u8, ROOM>,
    number: u16,
}

impl Row {
    // Takes bytes of the table. What the first row of the port says that ends in them.
    fn take(&mut self, bytes: &[u8]) -> Option<u64> {
        for byte in bytes {
            if *byte != b'\n' {
                let _ = self.bytes.try_push(*byte);
                continue;
            }
            let drops = drops_in(self.bytes.as_slice(), self.number);
            self.bytes.clear();
            if drops.is_some() {
                return drops;
            }
        }
        None
    }
}

/// What the table says was dropped for the socket of this port. None where it can't be read, or has no such row.
pub(crate) fn dropped_in(mut table: File, number: u16) -> Option<u64> {
    let mut row = Row {
        bytes: ArrayVec::new(),
        number,
    };
    let mut buffer = [0; 1024];
    for _ in 0..READS {
        let count = table.read(&mut buffer).ok()?;
        if count == 0 {
            return None;
        }
        let drops = row.take(&buffer[..count]);
        if drops.is_some() {
            return drops;
        }
    }
    None
}
