// A line is sent to the recorder of this host, and its reply is printed.
use crate::reply::print_reply;
use crate::{Ended, line_of};
use std::io;
use std::io::{BufReader, BufWriter, Write};
use std::net::{Ipv4Addr, Net, SocketAddr, TcpStream};
use std::time::Duration;
use vdr_sockets::{LOOPBACK, ORDERS};

/// How long the client waits for the next bytes of a reply, in seconds.
const WAIT: u64 = 60;

// A connection to the recorder of this host.
fn connect<R: Net<Stream = TcpStream>>(rt: &R) -> io::Result<TcpStream> {
    let [a, b, c, d] = LOOPBACK;
    let stream = TcpStream::connect(rt, SocketAddr::from((Ipv4Addr::new(a, b, c, d), ORDERS)))?;
    stream.set_read_timeout(Some(Duration::from_secs(WAIT)))?;
    Ok(stream)
}

/// Whether a recorder listens on this host.
pub fn recorder_listens<R: Net<Stream = TcpStream>>(rt: &R) -> bool {
    connect(rt).is_ok()
}

// The line of an order, with its end.
fn whole_line<R: AllocGlobal>(rt: &R, words: &[String]) -> Result<String, Ended> {
    let Ok(mut line) = line_of(rt.alloc(), words) else {
        return Err(Ended::NoMemory);
    };
    let has_end = line
        .as_str()
        .bytes()
        .any(|byte| byte == b'\n' || byte == b'\r');
    if line.is_empty() || has_end {
        return Err(Ended::NoWords);
    }
    match line.push_str("\n") {
        Ok(()) => Ok(line),
        Err(_) => Err(Ended::NoMemory),
    }
}

// Sends the line and prints the reply.
fn ask<R: AllocGlobal + Net<Stream = TcpStream> + Print>(
    rt: &R,
    words: &[String],
) -> Result<(), Ended> {
    let line = whole_line(rt, words)?;
    let Ok(mut stream) = connect(rt) else {
        return Err(Ended::NoLink);
    };
    if stream.write_all(line.as_bytes()).is_err() {
        return Err(Ended::NoLink);
    }
    let Ok(mut input) = BufReader::new(rt.alloc(), stream) else {
        return Err(Ended::NoMemory);
    };
    let Ok(mut output) = BufWriter::new(rt.alloc(), io::writer(rt)) else {
        return Err(Ended::NoMemory);
    };
    let printed = print_reply(rt.alloc(), line.as_bytes(), &mut input, &mut output);
    if output.flush().is_err() {
        return Err(Ended::Output);
    }
    printed
}

/// Sends the words as one line to the recorder of this host, prints its reply, and tells the exit status: 0 where the order was
/// done, that of the refusal where it was refused, 6 where no recorder listens or it hung up, with their lines.
pub fn order<R: AllocGlobal + Net<Stream = TcpStream> + Print>(rt: &R, words: &[String]) -> u8 {
    match ask(rt, words) {
        Ok(()) => 0,
        Err(ended) => {
            let _ = rt.print(ended.line());
            ended.code()
        }
    }
}
