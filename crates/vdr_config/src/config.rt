// The configuration of a recorder, with the ranges that its type keeps, and its channels and windows.
ghost use Rattle.std.specs.Prelude.{◌≡◌, ◌<◌, ◌≤◌, ℕ, length, replicate, [], Some, IfSome, bytes_eq, position, slice_get};
ghost use Rattle.vdr_config.specs.Sizes.{window_of};

use crate::channel::Channel;
use crate::profile::Profile;
use crate::reading::SHIP_CAPSULE_SECONDS;
use std::alloc::Global;
use std::marker::Model;
use vdr_terms::Rate;

/// A configuration of a recorder. Its type keeps the ranges below, that a channel's group is configured, and that no two
/// channels have one name.
#[derive(Drop)]
pub struct Config {
    /// Which windows the configuration has to have.
    pub profile: Profile,
    /// The window of the capsule, the fixed medium: 1 to 31,536,000 seconds.
    pub capsule_seconds: u64,
    /// The window of the long-term medium: 1 to 31,536,000 seconds.
    pub long_seconds: u64,
    /// The window of the float-free medium, in seconds: 1 to the greater of `capsule_seconds` and `long_seconds`. It is
    /// `capsule_seconds` where the text gives none.
    pub float_seconds: u64,
    /// Whether the text gives the window of the float-free medium.
    pub float_given: bool,
    /// The window of a saved incident: 1 to `long_seconds` seconds.
    pub incident_seconds: u64,
    /// How many incidents may be saved at a time: 1 to 32.
    pub incident_slots: u8,
    /// The bytes of a segment: 8,192 to 16,777,216, and at least four times `batch`.
    pub segment: u32,
    /// The most bytes of a batch's records: 2,048 to 1,048,576.
    pub batch: u32,
    /// The items that a group's queue holds: 1 to 65,536.
    pub queue: u32,
    /// The rate of each transmission group by its number, None where the group is not configured. At least one is.
    /// 1 to 10,000 datagrams and 6 to 10,000,000 bytes a second.
    pub groups: [Option<Rate>; 16],
    /// The channels, at most 64. Channel k has bit k in a record.
    pub channels: Vec<Channel>,
}

impl Model for Config {
    ghost use Rattle.vdr_config.specs.Configuration.{Configuration, IsConfiguration};

    ghost Value = { Configuration };

    ghost view = { λ c. record { profile = c.profile; capsule_seconds = c.capsule_seconds; long_seconds = c.long_seconds; float_seconds = c.float_seconds; float_given = c.float_given; incident_seconds = c.incident_seconds; incident_slots = c.incident_slots; segment = c.segment; batch = c.batch; queue = c.queue; groups = c.groups; channels = c.channels.items } };

    ghost invariant = { λ c. IsConfiguration (record { profile = c.profile; capsule_seconds = c.capsule_seconds; long_seconds = c.long_seconds; float_seconds = c.float_seconds; float_given = c.float_given; incident_seconds = c.incident_seconds; incident_slots = c.incident_slots; segment = c.segment; batch = c.batch; queue = c.queue; groups = c.groups; channels = c.channels.items }) };
}

impl Config {
    ghost use Rattle.vdr_config.specs.Configuration.{IsRate, Selector};

    /// A bench configuration with this rate for each of the sixteen groups and no channel, as a review takes.
    pub fn with_rate(alloc: Global, rate: Rate) -> Config
        requires { IsRate rate }
        ensures groups { result.groups ≡ replicate 16 (Some rate) }
        ensures channels { result.channels ≡ [] }
    {
        Config {
            profile: Profile::Bench,
            capsule_seconds: SHIP_CAPSULE_SECONDS,
            long_seconds: 2_592_000,
            float_seconds: SHIP_CAPSULE_SECONDS,
            float_given: false,
            incident_seconds: 1,
            incident_slots: 1,
            segment: 8_192,
            batch: 2_048,
            queue: 1,
            groups: [Some(rate); 16],
            channels: Vec::new(alloc),
        }
    }

    /// The index of the channel of this name, None where there is none.
    pub fn channel_of(&self, name: &[u8]) -> Option<u8>
        ensures index { result ≡ position (λ c. bytes_eq c.name name.now) self.now.channels }

        // No two channels have one name, so that each is found by its own.
        ensures own_name { (i : ℕ) (c : Selector)
            → slice_get self.now.channels i ≡ Some c → name.now ≡ c.name → result ≡ Some i }
    {
        match index_of(&self.channels, name) {
            Some(index) => Some(index as u8),
            None => None,
        }
    }

    /// The window of a medium, in seconds, 1 to 31,536,000: medium 0 is the capsule, 1 the long-term medium, and 2 the
    /// float-free medium.
    pub fn window(&self, m: u8) -> u64
        ensures window { result ≡ window_of self.now m }
        ensures low { 1 ≤ result }
        ensures high { result ≤ 31_536_000 }
    {
        match m {
            0 => self.capsule_seconds,
            1 => self.long_seconds,
            _ => self.float_seconds,
        }
    }
}

fn index_of(channels: &[Channel], name: &[u8]) -> Option<usize>
    ensures index { result ≡ position (λ c. bytes_eq c.name name.now) channels.now }
    ensures within { IfSome result (λ i. i < length channels.now) }
{
    channels.iter().position(|c| c.name.as_slice() == name)
}
