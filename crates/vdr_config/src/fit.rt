// What a configuration needs of its media, and whether media of some sizes have it.
ghost use Rattle.std.specs.Prelude.{◌≡◌, ◌≤◌, ◌<◌, ◌+◌, ◌*◌, ◌/◌, ℕ, length, get_or, All, IfSome, OnOk, sum_by};
ghost use Rattle.vdr_terms.specs.Needs.{group_cost, cost, usable, needed_slots, Fits};
ghost use Rattle.vdr_config.specs.Configuration.{IsRate};
ghost use Rattle.vdr_config.specs.Sizes.{sizes_of, fitting};

use crate::config::Config;
use crate::media::{Needs, TooSmall};
use vdr_terms::{Rate, slot_count};

fn cost_of_group(rate: &Option<Rate>) -> u64
    requires { IfSome rate.now IsRate }
    ensures value { result ≡ group_cost rate.now }
    ensures small { result ≤ 11_400_090 }
{
    match rate {
        None => 0,
        Some(rate) => 90 + 140 * rate.datagrams as u64 + rate.bytes as u64,
    }
}

fn cost_of_groups(groups: &[Option<Rate>]) -> u64
    requires few { length groups.now ≡ 16 }
    requires rates { All (λ g. IfSome g IsRate) groups.now }
    ensures value { result ≡ 128 + sum_by group_cost groups.now }
    ensures small { result ≤ 182_401_568 }
{
    let mut cost = 128;
    for rate in groups {
        cost += cost_of_group(rate);
    }
    cost
}

// The segments that so many seconds fill.
fn segments(seconds: u64, cost: u64, usable: u64) -> u64
    requires seconds { seconds ≤ 31_536_000 }
    requires cost { cost ≤ 182_401_568 }
    requires usable { 1 ≤ usable }
    ensures value { result ≡ (seconds + 1) * cost / usable }
    ensures small { result ≤ 5_752_216_031_008_000 }
{
    (seconds + 1) * cost / usable
}

// The usable bytes of a segment.
fn usable_of(config: &Config) -> u64
    ensures value { result ≡ usable (sizes_of config.now) }
    ensures some { 1 ≤ result }
{
    config.segment as u64 - 64 - (config.batch as u64 + 6)
}

/// The slots in which medium m keeps its window, the long-term medium also its saved incidents (this project's profile).
pub fn needed_slots(config: &Config, m: u8) -> u64
    ensures { result ≡ needed_slots (sizes_of config.now) m }
{
    let cost = cost_of_groups(&config.groups);
    let usable = usable_of(config);
    let window = segments(config.window(m), cost, usable) + 4;
    if m == 1 {
        let incident = segments(config.incident_seconds, cost, usable) + 2;
        window + config.incident_slots as u64 * incident
    } else {
        window
    }
}

/// What the configuration needs of its media: the cost of a second and the usable bytes of a segment, and from them the
/// slots of each medium.
pub fn needs(config: &Config) -> Needs
    ensures cost { result.cost ≡ cost (sizes_of config.now) }
    ensures usable { result.usable ≡ usable (sizes_of config.now) }
    ensures capsule { result.capsule_slots ≡ needed_slots (sizes_of config.now) 0 }
    ensures long { result.long_slots ≡ needed_slots (sizes_of config.now) 1 }
    ensures float { result.float_slots ≡ needed_slots (sizes_of config.now) 2 }
{
    Needs {
        cost: cost_of_groups(&config.groups),
        usable: usable_of(config),
        capsule_slots: needed_slots(config, 0),
        long_slots: needed_slots(config, 1),
        float_slots: needed_slots(config, 2),
    }
}

// The first of the media of these sizes that has fewer slots than it needs.
fn tested(config: &Config, sizes: &[u64]) -> Result<(), TooSmall>
    requires few { length sizes.now ≤ 3 }
    ensures { result ≡ fitting (sizes_of config.now) sizes.now }
{
    let mut m = 0;
    for size in sizes {
        let need = needed_slots(config, m);
        let have = slot_count(config.segment, *size) as u64;
        if have < need {
            return Err(TooSmall {
                medium: m,
                need,
                have,
            });
        }
        m += 1;
    }
    Ok(())
}

/// Whether media of these sizes, in bytes and in the order of the media, have the slots that the configuration needs.
/// `TooSmall` names the first that has fewer.
pub fn fits(config: &Config, sizes: &[u64]) -> Result<(), TooSmall>
    requires few { length sizes.now ≤ 3 }
    ensures exact { result ≡ fitting (sizes_of config.now) sizes.now }
    ensures each { OnOk result ((m : ℕ) → m < length sizes.now → Fits (sizes_of config.now) m (get_or sizes.now m 0)) }
{
    tested(config, sizes)
}
