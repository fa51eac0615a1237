//! The program of the voyage data recorder.
#![tactic(auto)]

use std::alloc::AllocError;
use std::io::ErrorKind;
use std::process::ExitCode;
use std::{env, io};
use vdr_live::{Alarm, Streams, command_line, last_heard, no_memory, tcp_desk, udp_lanes};

// The words behind the program's name. One that is no text is a faulty command line, as no words at all are.
fn words_of(rt: &HostRuntime) -> Result<Vec<String>, AllocError> {
    let mut words = Vec::new(rt.alloc());
    match env::args(rt) {
        Ok(all) => {
            for word in all.skip(1) {
                words.push(word)?;
            }
        }
        Err(error) if error.kind() == ErrorKind::OutOfMemory => return Err(AllocError),
        Err(_) => {}
    }
    Ok(words)
}

fn main(rt: HostRuntime) -> ExitCode {
    let Ok(words) = words_of(&rt) else {
        return ExitCode::from(no_memory(&rt, io::writer(&rt)));
    };
    // Once a medium has failed nothing more can be recorded: the ports and the link end.
    let alarm = Alarm::new();
    let heard = last_heard(&rt);
    let Ok(mut lanes) = udp_lanes(&rt, rt.alloc(), &alarm, &heard) else {
        return ExitCode::from(no_memory(&rt, io::writer(&rt)));
    };
    let Ok(desk) = tcp_desk(&rt, rt.alloc(), &alarm) else {
        return ExitCode::from(no_memory(&rt, io::writer(&rt)));
    };
    let mut desks = [desk];
    let code = command_line(
        &rt,
        &rt,
        words.as_slice(),
        Streams {
            input: rt.stdin(),
            output: io::writer(&rt),
            errors: &rt,
        },
        lanes.as_mut_slice(),
        &mut desks,
        &alarm,
        &heard,
    );
    ExitCode::from(code)
}
