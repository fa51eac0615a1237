// What is told of a port on the standard error while it is captured, and so stands in the journal.
use crate::hosts::HasPorts;
use crate::silence::Silence;
use vdr_terms::group_name;

/// How often it is looked whether the host dropped datagrams, in milliseconds.
const MINUTE: u64 = 60_000;

/// What was told of a port.
#[derive(Drop)]
pub(crate) struct Journal {
    silence: Silence,
    // How many datagrams the host had dropped as it was looked last.
    dropped: u64,
    // When it is to be looked again, in milliseconds since capture began.
    next_look: u64,
}

// The name of the transmission group of this number, if it is one.
fn name_of(group: u16) -> &'static str {
    match u8::try_from(group) {
        Ok(group) if group <= 15 => group_name(group),
        _ => "UDP",
    }
}

impl Journal {
    /// Nothing was told.
    pub(crate) fn new() -> Journal {
        Journal {
            silence: Silence::new(),
            dropped: 0,
            next_look: MINUTE,
        }
    }

    /// Tells what is due as a datagram of the group came, or none did.
    pub(crate) fn tell<R: HasPorts + Eprint>(
        &mut self,
        rt: &R,
        came: bool,
        group: u16,
        number: u16,
        now: u64,
    ) {
        if came {
            self.hear(rt, group, now);
        } else {
            self.wait(rt, group, now);
        }
        self.look(rt, group, number, now);
    }

    // A datagram of the group came.
    fn hear<R: Eprint>(&mut self, rt: &R, group: u16, now: u64) {
        if self.silence.ends(now) {
            let name = name_of(group);
            let _ = eprintln!(rt; "vdr: {name}: heard again");
        }
    }

    // None came.
    fn wait<R: Eprint>(&mut self, rt: &R, group: u16, now: u64) {
        if self.silence.begins(now) {
            let name = name_of(group);
            let _ = eprintln!(rt; "vdr: {name}: silent for ten seconds");
        }
    }

    // Tells once a minute at most that the host dropped datagrams of the group.
    fn look<R: HasPorts + Eprint>(&mut self, rt: &R, group: u16, number: u16, now: u64) {
        if now < self.next_look {
            return;
        }
        self.next_look = now.saturating_add(MINUTE);
        let Some(dropped) = rt.dropped(number) else {
            return;
        };
        let more = dropped.saturating_sub(self.dropped);
        self.dropped = dropped;
        if more > 0 {
            let name = name_of(group);
            let _ = eprintln!(rt;
                "vdr: {name}: the host dropped {more} datagrams, {dropped} in all"
            );
        }
    }
}
