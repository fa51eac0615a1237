// What an operator is told of the host: what it dropped, when each group was last heard, and how long the media took.
//
// No proof speaks of these numbers, and nothing that is recorded rests on them.
ghost use Rattle.std.specs.Prelude.{◌<◌};

use arrayvec::ArrayVec;
use std::str;
use std::time::{Clock, Duration};
use vdr_adapters::{FileMedia, SystemFile};
use vdr_config::Config;
use vdr_health::{Gauged, GroupGauge};
use vdr_outside::Media;
use vdr_recorder::{Turn, Watch};
use vdr_reply::Gauge;
use vdr_sockets::{HasPorts, LastHeard, port_of};
use vdr_terms::group_name;

/// Room for the names of all groups, each behind a space, in bytes.
const ROOM: usize = 80;

/// Gauges the host on which media are recorded on, and tells the standard error as a recording begins.
#[derive(Drop)]
pub(crate) struct HostGauge<'a> {
    pub host: &'a HostRuntime,
    pub heard: &'a LastHeard,
    /// The folder of the media.
    pub folder: &'a str,
}

impl<'a, M: Media> Watch<M> for HostGauge<'a> {
    ghost use Rattle.vdr_recorder.specs.Watched.{nothing_told};

    ghost hears = { ⊥ };

    ghost seen = { λ _. nothing_told };

    fn found(&mut self, _media: &M) {}

    fn opened(&mut self, _media: &M) {}

    fn turned(&mut self, _media: &M, _did: Turn<'_>) {}
}

// The names of the groups that are configured, each behind a space.
fn names_of(config: &Config) -> ArrayVec<u8, ROOM> {
    let mut names = ArrayVec::new();
    for group in 0..16u8 {
        if config.groups[usize::from(group)].is_some() {
            let _ = names.try_push(b' ');
            let _ = names.try_extend_from_slice(group_name(group).as_bytes());
        }
    }
    names
}

impl<'a> HostGauge<'a> {
    // What is gauged of a group.
    fn gauge_of(&self, group: u8, now: Duration) -> GroupGauge
        requires { group < 16 }
    {
        GroupGauge {
            kernel: self.host.dropped(port_of(group)),
            ago: self.heard.ago(group, now),
        }
    }
}

impl<'a, 'b> Gauge<FileMedia<'b, SystemFile<HostRuntime>>> for HostGauge<'a> {
    fn begins(&self, config: &Config, place: u64) {
        let names = names_of(config);
        let names = str::from_utf8(names.as_slice()).unwrap_or("");
        let folder = self.folder;
        let _ = eprintln!(self.host; "vdr: records{names} on {folder} from place {place} on");
    }

    fn gauge(&self, media: &FileMedia<'b, SystemFile<HostRuntime>>) -> Gauged {
        let now = self.host.monotonic().unwrap_or(Duration::ZERO);
        let mut gauged = Gauged::nothing();
        for group in 0..16u8 {
            gauged.groups[usize::from(group)] = self.gauge_of(group, now);
        }
        let (capsule, long_term) = media.longest_syncs();
        gauged.capsule_sync = capsule;
        gauged.long_term_sync = long_term;
        gauged
    }
}
