// A reply is sent to a peer, for as long as the peer's patience lasts.
ghost use Rattle.std.specs.Prelude.{◌≡◌, ◌≤◌, true, length, take, IfSome};
ghost use Rattle.std.specs.Io.KnownBytes.{Appends};

use crate::hosts::Peer;
use crate::patience::Patience;
use crate::tcp::LOOK;
use crate::udp::is_no_fault;
use std::thread;
use std::time::{Clock, Duration};

// Sends a front of the bytes, or waits for room. None where the peer is to be hung up on.
fn send_some<P: Peer>(
    rt: &impl Clock,
    peer: &mut P,
    bytes: &[u8],
    patience: &mut Patience,
) -> Option<usize>
    ensures bound { IfSome result (λ n. n ≤ length bytes.now) }
    ensures sent { IfSome result (λ n. Appends (P.sent peer.old) (P.sent peer.new) (take n bytes.now)) }
{
    match peer.write(bytes) {
        Ok(0) => None,
        Ok(count) => {
            patience.takes(count);
            Some(count)
        }
        Err(error) if is_no_fault(&error) && patience.lasts() => {
            thread::sleep(rt, Duration::from_millis(LOOK));
            Some(0)
        }
        Err(_) => None,
    }
}

/// Sends the bytes, and tells whether the peer took them all.
pub(crate) fn send_all<P: Peer>(
    rt: &impl Clock,
    peer: &mut P,
    bytes: &[u8],
    patience: &mut Patience,
) -> bool
    ensures { result ≡ true → Appends (P.sent peer.old) (P.sent peer.new) bytes.now }
{
    let mut done = 0;
    for _ in 0..u64::MAX {
        if done >= bytes.len() {
            return true;
        }
        match send_some(rt, peer, &bytes[done..], patience) {
            Some(count) => done += count,
            None => return false,
        }
    }
    false
}
