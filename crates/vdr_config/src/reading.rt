// A configuration from its text.
//
// That want of memory comes only where a growth was refused no clause can say; the paths of keys are made as they
// are refused.
ghost use Rattle.std.specs.Prelude.{◌≡◌, ◌≤◌, ◌*◌, max, length, true, None, IfOk, OnOk, All};
ghost use Rattle.serde_json.specs.View.{view};
ghost use Rattle.vdr_config.specs.Configuration.{is_selection, is_ship, HasShipWindows};
ghost use Rattle.vdr_config.specs.Names.{is_channel_name};
ghost use Rattle.vdr_config.specs.Grammar.{Gives, has_group, top_of, agreement, first_repeat, same_name, configuration_from, configuration_of, configuration};
ghost use Rattle.vdr_config.specs.Entries.{IsEntry, IsTop};

use crate::bad::ConfigBad;
use crate::channel::Channel;
use crate::channels::{channels, repeated_channel};
use crate::config::Config;
use crate::form::Shape;
use crate::groups::{GroupEntry, group_entries, rate_table, repeated_group};
use crate::keys::{array, number, only_keys, optional_number, profile};
use crate::profile::Profile;
use crate::scope::Scope;
use serde_json::Value;
use std::alloc::Global;

/// The longest text of a configuration, in bytes: it has its place in the superblock of a medium (this project's profile).
pub const LONGEST_TEXT: usize = 16_380;

/// The shortest window of a ship's capsule and of its float-free medium, in seconds: 48 hours (IEC 61996-1, IMO MSC.333(90)).
pub const SHIP_CAPSULE_SECONDS: u64 = 172_800;

// 30 days (IEC 61996-1, IMO MSC.333(90)).
const SHIP_LONG_SECONDS: u64 = 2_592_000;

/// The single values of the top level.
#[derive(Clone, Copy, Drop)]
pub(crate) struct TopEntry {
    profile: Profile,
    capsule_seconds: u64,
    long_seconds: u64,
    float_seconds: u64,
    float_given: bool,
    incident_seconds: u64,
    incident_slots: u8,
    segment: u32,
    batch: u32,
    queue: u32,
}

// The longer of two windows.
fn longer(a: u64, b: u64) -> u64
    ensures { result ≡ max a b }
{
    if a < b { b } else { a }
}

#[tactic(auto, unfolding(crate::specs::Grammar::top_of))]
fn top_entry(alloc: Global, value: &Value) -> Result<TopEntry, ConfigBad>
    ensures exact { Gives (λ t. t) result (top_of (view value.now)) }
    ensures in_range { IfOk result IsTop }
{
    let scope = Scope::Top;
    let profile = profile(alloc, scope, "profile", value)?;
    let capsule_seconds = number(alloc, scope, "capsule_seconds", 1, 31_536_000, value)?;
    let long_seconds = number(alloc, scope, "long_seconds", 1, 31_536_000, value)?;
    let longest = longer(capsule_seconds, long_seconds);
    let float_seconds = optional_number(alloc, scope, "float_seconds", 1, longest, value)?;
    let incident_seconds = number(alloc, scope, "incident_seconds", 1, long_seconds, value)?;
    let incident_slots = number(alloc, scope, "incident_slots", 1, 32, value)?;
    let segment = number(alloc, scope, "segment", 8_192, 16_777_216, value)?;
    let batch = number(alloc, scope, "batch", 2_048, 1_048_576, value)?;
    let queue = number(alloc, scope, "queue", 1, 65_536, value)?;
    Ok(TopEntry {
        profile,
        capsule_seconds,
        long_seconds,
        float_seconds: float_seconds.unwrap_or(capsule_seconds),
        float_given: float_seconds.is_some(),
        incident_seconds,
        incident_slots: incident_slots as u8,
        segment: segment as u32,
        batch: batch as u32,
        queue: queue as u32,
    })
}

#[tactic(auto, unfolding(crate::specs::Grammar::agreement))]
fn agree(
    alloc: Global,
    top: &TopEntry,
    groups: &[GroupEntry],
    channels: &[Channel],
) -> Result<(), ConfigBad>
    ensures exact { Gives (λ _. tt) result (agreement top.now groups.now channels.now) }
    ensures ship { OnOk result (is_ship top.now.profile ≡ true
        → (172_800 ≤ top.now.capsule_seconds) × (2_592_000 ≤ top.now.long_seconds) × (172_800 ≤ top.now.float_seconds)) }
    ensures four_batches { OnOk result (4 * top.now.batch ≤ top.now.segment) }
    ensures names_differ { OnOk result (first_repeat same_name channels.now ≡ None) }
{
    if let Some(i) = repeated_group(groups) {
        return Err(ConfigBad::Repeated(Scope::Group(i).path(alloc, "name")?));
    }
    if let Some(i) = repeated_channel(channels) {
        return Err(ConfigBad::Repeated(Scope::Channel(i).path(alloc, "name")?));
    }
    let ship = top.profile.is_ship();
    if ship && top.capsule_seconds < SHIP_CAPSULE_SECONDS {
        return Err(ConfigBad::ShortWindow(Scope::Top.path(alloc, "capsule_seconds")?));
    }
    if ship && top.long_seconds < SHIP_LONG_SECONDS {
        return Err(ConfigBad::ShortWindow(Scope::Top.path(alloc, "long_seconds")?));
    }
    if (top.segment as u64) < 4 * top.batch as u64 {
        return Err(ConfigBad::SmallSegment(Scope::Top.path(alloc, "segment")?));
    }
    if ship && top.float_seconds < SHIP_CAPSULE_SECONDS {
        return Err(ConfigBad::ShortWindow(Scope::Top.path(alloc, "float_seconds")?));
    }
    Ok(())
}

/// The configuration of values that are each in their ranges and agree.
fn assemble(top: TopEntry, groups: &[GroupEntry], channels: Vec<Channel>) -> Config
    requires top { IsTop top }
    requires four_batches { 4 * top.batch ≤ top.segment }
    requires some_group { 1 ≤ length groups.now }
    requires groups { All IsEntry groups.now }
    requires few { length channels.items ≤ 64 }
    requires names { All (λ c. is_channel_name c.name ≡ true) channels.items }
    requires selections { All (λ c. is_selection c.kind ≡ true) channels.items }
    requires configured { All (λ c. has_group groups.now c.group ≡ true) channels.items }
    requires names_differ { first_repeat same_name channels.items ≡ None }
    ensures { result ≡ configuration_from top groups.now channels.items }
{
    let table = rate_table(groups);
    Config {
        profile: top.profile,
        capsule_seconds: top.capsule_seconds,
        long_seconds: top.long_seconds,
        float_seconds: top.float_seconds,
        float_given: top.float_given,
        incident_seconds: top.incident_seconds,
        incident_slots: top.incident_slots,
        segment: top.segment,
        batch: top.batch,
        queue: top.queue,
        groups: table,
        channels,
    }
}

#[tactic(auto, unfolding(crate::specs::Grammar::configuration_of))]
fn config_of(alloc: Global, value: &Value) -> Result<Config, ConfigBad>
    ensures exact { Gives (λ c. c) result (configuration_of (view value.now)) }
    ensures ship { IfOk result (λ c. is_ship c.profile ≡ true → HasShipWindows c) }
{
    only_keys(alloc, Scope::Top, Shape::Top, value)?;
    let top = top_entry(alloc, value)?;
    let values = array(alloc, Scope::Top, "groups", 1, 16, value)?;
    let groups = group_entries(alloc, values)?;
    let values = array(alloc, Scope::Top, "channels", 0, 64, value)?;
    let channels = channels(alloc, &groups, values)?;
    agree(alloc, &top, &groups, &channels)?;
    Ok(assemble(top, &groups, channels))
}

/// The configuration of this text, else the first refusal of the grammar. Bytes that are no UTF-8 are no JSON. Of a key
/// given twice the last value counts.
#[tactic(auto, unfolding(crate::specs::Grammar::configuration))]
pub fn read_config(alloc: Global, bytes: &[u8]) -> Result<Config, ConfigBad>
    ensures exact { Gives (λ c. c) result (configuration bytes.now) }
    ensures ship { IfOk result (λ c. is_ship c.profile ≡ true → HasShipWindows c) }
{
    if bytes.len() > LONGEST_TEXT {
        return Err(ConfigBad::TooLong);
    }
    match Value::from_slice(alloc, bytes) {
        Ok(value) => {
            if value.is_object() {
                config_of(alloc, &value)
            } else {
                Err(ConfigBad::Json)
            }
        }
        Err(e) => if e.is_memory() {
            Err(ConfigBad::NoMemory)
        } else {
            Err(ConfigBad::Json)
        },
    }
}
