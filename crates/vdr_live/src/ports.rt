// The lanes of a recording.
//
// A clock that can't be read stops no recording: `received` then counts from the clock's own beginning.
ghost use Rattle.std.specs.Prelude.{◌≡◌, ◌<◌, ℕ, length, get_or, IfOk};

use std::alloc::{AllocError, Global};
use std::fs::{File, Files};
use std::net::Net;
use std::time::{Clock, Duration};
use vdr_capture::Lane;
use vdr_sockets::{Alarm, LastHeard, UdpPort};

/// When the groups are last heard in a capture that begins now.
pub fn last_heard<R: Clock>(rt: &R) -> LastHeard {
    LastHeard::new(rt.monotonic().unwrap_or(Duration::ZERO))
}

/// A lane for each transmission group, over its UDP port, which is bound when it is first asked, tells when it was heard, and ends once the alarm
/// is raised. Where the clock can't be read, capture counts from the clock's own beginning.
pub fn udp_lanes<'a, R: Net + Files<File = File> + Clock + Eprint>(
    rt: &'a R,
    alloc: Global,
    alarm: &'a Alarm,
    heard: &'a LastHeard,
) -> Result<Vec<Lane<UdpPort<'a, &'a R>>>, AllocError>
    ensures sixteen { IfOk result (λ lanes. length lanes.items ≡ 16) }
    ensures groups { IfOk result (λ lanes. (g : ℕ) (d : _) → g < 16 → (get_or lanes.items g d).group ≡ g) }
{
    let mut lanes = Vec::with_capacity(alloc, 16)?;
    for group in 0..16u8 {
        let port = UdpPort::new(rt, group, heard.began)
            .until(alarm)
            .telling(heard);
        lanes.push(Lane::new(port, group))?;
    }
    Ok(lanes)
}
