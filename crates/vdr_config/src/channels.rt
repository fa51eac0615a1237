// The channels of the text.
ghost use Rattle.std.specs.Prelude.{◌≡◌, length, true, IfOk, All};
ghost use Rattle.std.specs.List.{list_any};
ghost use Rattle.serde_json.specs.View.{view, items_view};
ghost use Rattle.vdr_config.specs.Kinds.{selection_of};
ghost use Rattle.vdr_config.specs.Configuration.{is_selection};
ghost use Rattle.vdr_config.specs.Names.{is_channel_name};
ghost use Rattle.vdr_config.specs.Grammar.{Gives, each_element, has_group, selection_at, channel_at, first_repeat, same_name};

use crate::bad::ConfigBad;
use crate::channel::{Channel, ChannelKind};
use crate::form::{KindName, Shape};
use crate::groups::{GroupEntry, configured_group};
use crate::keys::{channel_name, formatter, kind, number, only_keys, source};
use crate::scope::Scope;
use serde_json::Value;
use std::alloc::Global;

#[tactic(auto, unfolding(crate::specs::Grammar::selection_at))]
fn channel_kind(
    alloc: Global,
    scope: Scope,
    kind: KindName,
    value: &Value,
) -> Result<ChannelKind, ConfigBad>
    ensures exact { Gives selection_of result (selection_at scope kind (view value.now)) }
    ensures form { IfOk result (λ k. is_selection (selection_of k) ≡ true) }
{
    match kind {
        KindName::Sentence => {
            let formatter = formatter(alloc, scope, "formatter", value)?;
            let source = source(alloc, scope, "source", value)?;
            Ok(ChannelKind::Sentence { formatter, source })
        }
        KindName::Image => {
            let source = source(alloc, scope, "source", value)?;
            Ok(ChannelKind::Image { source })
        }
        KindName::Pcm => {
            let microphone = number(alloc, scope, "microphone", 0, 255, value)?;
            Ok(ChannelKind::Pcm {
                microphone: microphone as u8,
            })
        }
        KindName::Opaque => Ok(ChannelKind::Opaque),
    }
}

#[tactic(auto, unfolding(crate::specs::Grammar::channel_at))]
fn channel(
    alloc: Global,
    groups: &[GroupEntry],
    index: usize,
    value: &Value,
) -> Result<Channel, ConfigBad>
    ensures exact { Gives (λ c. c) result (channel_at groups.now index (view value.now)) }
    ensures found { IfOk result (λ c. has_group groups.now c.group ≡ true) }
    ensures name { IfOk result (λ c. is_channel_name c.name ≡ true) }
    ensures form { IfOk result (λ c. is_selection c.kind ≡ true) }
{
    let scope = Scope::Channel(index);
    only_keys(alloc, scope, Shape::Channel, value)?;
    let name = channel_name(alloc, scope, "name", value)?;
    let group = configured_group(alloc, scope, "group", groups, value)?;
    let kind = kind(alloc, scope, "kind", value)?;
    only_keys(alloc, scope, kind.shape(), value)?;
    let kind = channel_kind(alloc, scope, kind, value)?;
    Ok(Channel { name, group, kind })
}

/// The channels of the array's elements, in order.
pub(crate) fn channels(
    alloc: Global,
    groups: &[GroupEntry],
    values: &[Value],
) -> Result<Vec<Channel>, ConfigBad>
    ensures exact { Gives (λ v. v.items) result
        (each_element (channel_at groups.now) 0 (items_view values.now)) }
    ensures found { IfOk result (λ v. All (λ c. has_group groups.now c.group ≡ true) v.items) }
    ensures names { IfOk result (λ v. All (λ c. is_channel_name c.name ≡ true) v.items) }
    ensures forms { IfOk result (λ v. All (λ c. is_selection c.kind ≡ true) v.items) }
    ensures count { IfOk result (λ v. length v.items ≡ length values.now) }
{
    let mut channels = Vec::new(alloc);
    for (i, value) in values.iter().enumerate() {
        let channel = channel(alloc, groups, i, value)?;
        channels.push(channel)?;
    }
    Ok(channels)
}

fn is_among(channel: &Channel, channels: &[Channel]) -> bool
    ensures { result ≡ list_any (same_name channel.now) channels.now }
{
    let name = channel.name.as_slice();
    channels.iter().any(|c| name == c.name.as_slice())
}

/// The index of the first channel whose name an earlier one has.
pub(crate) fn repeated_channel(channels: &[Channel]) -> Option<usize>
    ensures { result ≡ first_repeat same_name channels.now }
{
    for (i, channel) in channels.iter().enumerate() {
        if is_among(channel, &channels[..i]) {
            return Some(i);
        }
    }
    None
}
