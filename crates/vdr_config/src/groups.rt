// The groups of the text.
ghost use Rattle.std.specs.Prelude.{◌≡◌, replicate, length, true, None, IfOk, All, nat_eq};
ghost use Rattle.std.specs.List.{list_any};
ghost use Rattle.serde_json.specs.View.{view, items_view};
ghost use Rattle.vdr_config.specs.Forms.{choice};
ghost use Rattle.vdr_config.specs.Grammar.{Gives, needed_key, each_element, has_group, configured_number, group_at, table_of, first_repeat, same_group};
ghost use Rattle.vdr_config.specs.Entries.{IsEntry};

use crate::bad::ConfigBad;
use crate::form::Shape;
use crate::keys::{group, number, only_keys};
use crate::scope::Scope;
use serde_json::Value;
use std::alloc::Global;
use vdr_terms::{Rate, group_number};

/// A group as the text gives it.
#[derive(Clone, Copy, Drop)]
pub(crate) struct GroupEntry {
    number: u8,
    rate: Rate,
}

#[tactic(auto, unfolding(crate::specs::Grammar::group_at))]
fn group_entry(alloc: Global, index: usize, value: &Value) -> Result<GroupEntry, ConfigBad>
    ensures exact { Gives (λ g. g) result (group_at index (view value.now)) }
    ensures in_range { IfOk result IsEntry }
{
    let scope = Scope::Group(index);
    only_keys(alloc, scope, Shape::Group, value)?;
    let number = group(alloc, scope, "name", value)?;
    let datagrams = self::number(alloc, scope, "datagrams", 1, 10_000, value)?;
    let bytes = self::number(alloc, scope, "bytes", 6, 10_000_000, value)?;
    let rate = Rate {
        datagrams: datagrams as u32,
        bytes: bytes as u32,
    };
    Ok(GroupEntry { number, rate })
}

/// The groups of the array's elements, in order.
pub(crate) fn group_entries(alloc: Global, values: &[Value]) -> Result<Vec<GroupEntry>, ConfigBad>
    ensures exact { Gives (λ v. v.items) result (each_element group_at 0 (items_view values.now)) }
    ensures in_range { IfOk result (λ v. All IsEntry v.items) }
    ensures count { IfOk result (λ v. length v.items ≡ length values.now) }
{
    let mut groups = Vec::new(alloc);
    for (i, value) in values.iter().enumerate() {
        let group = group_entry(alloc, i, value)?;
        groups.push(group)?;
    }
    Ok(groups)
}

fn is_configured(groups: &[GroupEntry], number: u8) -> bool
    ensures { result ≡ has_group groups.now number }
{
    groups.iter().any(|g| number == g.number)
}

/// The number of the configured group that a key names, which must be there.
#[tactic(auto, unfolding(crate::specs::Grammar::needed_key))]
pub(crate) fn configured_group(
    alloc: Global,
    scope: Scope,
    key: &str,
    groups: &[GroupEntry],
    object: &Value,
) -> Result<u8, ConfigBad>
    ensures exact { Gives (λ n. n) result
        (needed_key scope key.now (choice (configured_number groups.now)) (view object.now)) }
    ensures found { IfOk result (λ n. has_group groups.now n ≡ true) }
{
    match object.get(key) {
        None => Err(ConfigBad::MissingKey(scope.path(alloc, key)?)),
        Some(value) => match value.as_str() {
            None => Err(ConfigBad::Range(scope.path(alloc, key)?)),
            Some(name) => match group_number(name) {
                None => Err(ConfigBad::Range(scope.path(alloc, key)?)),
                Some(number) => {
                    if is_configured(groups, number) {
                        Ok(number)
                    } else {
                        Err(ConfigBad::Range(scope.path(alloc, key)?))
                    }
                }
            },
        },
    }
}

/// The index of the first group that an earlier one names.
pub(crate) fn repeated_group(groups: &[GroupEntry]) -> Option<usize>
    ensures { result ≡ first_repeat same_group groups.now }
{
    for (i, group) in groups.iter().enumerate() {
        if is_configured(&groups[..i], group.number) {
            return Some(i);
        }
    }
    None
}

/// The rate of each group by its number.
pub(crate) fn rate_table(groups: &[GroupEntry]) -> [Option<Rate>; 16]
    requires { All IsEntry groups.now }
    ensures { result ≡ table_of (replicate 16 None) groups.now }
{
    let mut table = [None; 16];
    for group in groups {
        table[group.number as usize] = Some(group.rate);
    }
    table
}
