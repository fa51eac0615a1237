// A key of an object in its form, or the refusal with its path.
ghost use Rattle.std.specs.Prelude.{◌≡◌, ◌≤◌, ◌<◌, not, IfOk, IfSome, length, option_map, string_bytes, option_copied, find, true};
ghost use Rattle.std.specs.BTreeMap.{keys, IsOrdered};
ghost use Rattle.std.specs.String.{string_cmp};
ghost use Rattle.serde_json.specs.View.{view, items_view};
ghost use Rattle.vdr_terms.specs.Groups.{group_numbered};
ghost use Rattle.vdr_config.specs.Names.{is_channel_name, is_formatter, is_source};
ghost use Rattle.vdr_config.specs.Configuration.{if_given};
ghost use Rattle.vdr_config.specs.Forms.{whole, text, choice, list, is_key, profile_named, kind_named};
ghost use Rattle.vdr_config.specs.Grammar.{Gives, needed_key, optional_key, only_keys};

use crate::bad::ConfigBad;
use crate::form::{
    KindName, Shape, has_key, kind_of, names_channel, names_formatter, names_source, profile_of,
};
use crate::profile::Profile;
use crate::scope::Scope;
use arrayvec::ArrayVec;
use serde_json::{Map, Value};
use std::alloc::Global;
use vdr_terms::group_number;

fn whole_of(value: &Value, least: u64, most: u64) -> Option<u64>
    ensures { result ≡ whole least most (view value.now) }
{
    match value.as_u64() {
        Some(n) => if least <= n && n <= most {
            Some(n)
        } else {
            None
        },
        None => None,
    }
}

/// A whole number that must be there.
#[tactic(auto, unfolding(crate::specs::Grammar::needed_key))]
pub(crate) fn number(
    alloc: Global,
    scope: Scope,
    key: &str,
    least: u64,
    most: u64,
    object: &Value,
) -> Result<u64, ConfigBad>
    ensures exact { Gives (λ n. n) result (needed_key scope key.now (whole least most) (view object.now)) }
    ensures low { IfOk result (λ n. least ≤ n) }
    ensures high { IfOk result (λ n. n ≤ most) }
{
    match object.get(key) {
        None => Err(ConfigBad::MissingKey(scope.path(alloc, key)?)),
        Some(value) => match whole_of(value, least, most) {
            Some(n) => Ok(n),
            None => Err(ConfigBad::Range(scope.path(alloc, key)?)),
        },
    }
}

/// A whole number, where it is there.
#[tactic(auto, unfolding(crate::specs::Grammar::optional_key))]
pub(crate) fn optional_number(
    alloc: Global,
    scope: Scope,
    key: &str,
    least: u64,
    most: u64,
    object: &Value,
) -> Result<Option<u64>, ConfigBad>
    ensures exact { Gives (λ o. o) result (optional_key scope key.now (whole least most) (view object.now)) }
    ensures low { IfOk result (λ o. IfSome o (λ n. least ≤ n)) }
    ensures high { IfOk result (λ o. IfSome o (λ n. n ≤ most)) }
{
    match object.get(key) {
        None => Ok(None),
        Some(value) => match whole_of(value, least, most) {
            Some(n) => Ok(Some(n)),
            None => Err(ConfigBad::Range(scope.path(alloc, key)?)),
        },
    }
}

/// The profile that a key names, which must be there. What is no text is out of range, as an unknown name is.
#[tactic(auto, unfolding(crate::specs::Grammar::needed_key))]
pub(crate) fn profile(
    alloc: Global,
    scope: Scope,
    key: &str,
    object: &Value,
) -> Result<Profile, ConfigBad>
    ensures { Gives (λ p. p) result (needed_key scope key.now (choice profile_named) (view object.now)) }
{
    match object.get(key) {
        None => Err(ConfigBad::MissingKey(scope.path(alloc, key)?)),
        Some(value) => match value.as_str().and_then(profile_of) {
            Some(profile) => Ok(profile),
            None => Err(ConfigBad::Range(scope.path(alloc, key)?)),
        },
    }
}

/// The kind of channel that a key names, which must be there.
#[tactic(auto, unfolding(crate::specs::Grammar::needed_key))]
pub(crate) fn kind(
    alloc: Global,
    scope: Scope,
    key: &str,
    object: &Value,
) -> Result<KindName, ConfigBad>
    ensures { Gives (λ p. p) result (needed_key scope key.now (choice kind_named) (view object.now)) }
{
    match object.get(key) {
        None => Err(ConfigBad::MissingKey(scope.path(alloc, key)?)),
        Some(value) => match value.as_str().and_then(kind_of) {
            Some(kind) => Ok(kind),
            None => Err(ConfigBad::Range(scope.path(alloc, key)?)),
        },
    }
}

/// The number of the transmission group that a key names, which must be there.
#[tactic(auto, unfolding(crate::specs::Grammar::needed_key))]
pub(crate) fn group(alloc: Global, scope: Scope, key: &str, object: &Value) -> Result<u8, ConfigBad>
    ensures exact { Gives (λ n. n) result
        (needed_key scope key.now (choice group_numbered) (view object.now)) }
    ensures sixteen { IfOk result (λ n. n < 16) }
{
    match object.get(key) {
        None => Err(ConfigBad::MissingKey(scope.path(alloc, key)?)),
        Some(value) => match value.as_str().and_then(|name| group_number(name)) {
            Some(number) => Ok(number),
            None => Err(ConfigBad::Range(scope.path(alloc, key)?)),
        },
    }
}

/// The array of a key that must be there.
#[tactic(auto, using(crate::proofs::Members::items_view_len), unfolding(crate::specs::Grammar::needed_key))]
pub(crate) fn array<'v>(
    alloc: Global,
    scope: Scope,
    key: &str,
    least: usize,
    most: usize,
    object: &'v Value,
) -> Result<&'v [Value], ConfigBad>
    ensures exact { Gives (λ v. items_view v.now) result (needed_key scope key.now (list least most) (view object.now)) }
    ensures many { IfOk result (λ v. least ≤ length v.now) }
    ensures few { IfOk result (λ v. length v.now ≤ most) }
{
    match object.get(key) {
        None => Err(ConfigBad::MissingKey(scope.path(alloc, key)?)),
        Some(value) => match value.as_array() {
            None => Err(ConfigBad::Range(scope.path(alloc, key)?)),
            Some(values) => {
                if least <= values.len() && values.len() <= most {
                    Ok(values.as_slice())
                } else {
                    Err(ConfigBad::Range(scope.path(alloc, key)?))
                }
            }
        },
    }
}

/// The name of a channel, which must be there.
#[tactic(auto, unfolding(crate::specs::Grammar::needed_key))]
pub(crate) fn channel_name(
    alloc: Global,
    scope: Scope,
    key: &str,
    object: &Value,
) -> Result<ArrayVec<u8, 32>, ConfigBad>
    ensures exact { Gives (λ v. v.items) result
        (needed_key scope key.now (text is_channel_name) (view object.now)) }
    ensures form { IfOk result (λ v. is_channel_name v.items ≡ true) }
{
    match object.get(key) {
        None => Err(ConfigBad::MissingKey(scope.path(alloc, key)?)),
        Some(value) => match value.as_str() {
            None => Err(ConfigBad::Range(scope.path(alloc, key)?)),
            Some(name) => {
                let mut found = ArrayVec::new();
                if names_channel(name.as_bytes())
                    && found.try_extend_from_slice(name.as_bytes()).is_ok()
                {
                    Ok(found)
                } else {
                    Err(ConfigBad::Range(scope.path(alloc, key)?))
                }
            }
        },
    }
}

/// The formatter of a sentence, where it is there.
#[tactic(auto, unfolding(crate::specs::Grammar::optional_key))]
pub(crate) fn formatter(
    alloc: Global,
    scope: Scope,
    key: &str,
    object: &Value,
) -> Result<Option<[u8; 3]>, ConfigBad>
    ensures exact { Gives (λ o. o) result
        (optional_key scope key.now (text is_formatter) (view object.now)) }
    ensures form { IfOk result (λ o. if_given is_formatter o ≡ true) }
{
    match object.get(key) {
        None => Ok(None),
        Some(value) => match value.as_str() {
            None => Err(ConfigBad::Range(scope.path(alloc, key)?)),
            Some(name) => {
                let bytes = name.as_bytes();
                if names_formatter(bytes) {
                    Ok(Some([bytes[0], bytes[1], bytes[2]]))
                } else {
                    Err(ConfigBad::Range(scope.path(alloc, key)?))
                }
            }
        },
    }
}

/// A source, where it is there.
#[tactic(auto, unfolding(crate::specs::Grammar::optional_key))]
pub(crate) fn source(
    alloc: Global,
    scope: Scope,
    key: &str,
    object: &Value,
) -> Result<Option<ArrayVec<u8, 15>>, ConfigBad>
    ensures exact { Gives (λ s. option_map (λ v. v.items) s) result
        (optional_key scope key.now (text is_source) (view object.now)) }
    ensures form { IfOk result (λ s. if_given is_source (option_map (λ v. v.items) s) ≡ true) }
{
    match object.get(key) {
        None => Ok(None),
        Some(value) => match value.as_str() {
            None => Err(ConfigBad::Range(scope.path(alloc, key)?)),
            Some(name) => {
                let mut found = ArrayVec::new();
                if names_source(name.as_bytes())
                    && found.try_extend_from_slice(name.as_bytes()).is_ok()
                {
                    Ok(Some(found))
                } else {
                    Err(ConfigBad::Range(scope.path(alloc, key)?))
                }
            }
        },
    }
}

// The keys come in the order of their bytes, so the first is the least.
fn unknown_of(shape: Shape, members: &Map<String, Value>) -> Option<&String>
    ensures first { option_copied result
        ≡ find (λ k. not (is_key shape (string_bytes k))) (keys members.now) }
    ensures ordered { IsOrdered string_cmp members.now }
{
    members.keys().find(|key| !has_key(shape, key.as_str()))
}

/// That the object has keys of the shape alone.
#[tactic(auto, using(crate::proofs::Members::unknown_from_entries), unfolding(crate::specs::Grammar::only_keys))]
pub(crate) fn only_keys(
    alloc: Global,
    scope: Scope,
    shape: Shape,
    object: &Value,
) -> Result<(), ConfigBad>
    ensures { Gives (λ _. tt) result (only_keys scope shape (view object.now)) }
{
    match object.as_object() {
        None => Err(ConfigBad::Range(scope.element_path(alloc)?)),
        Some(members) => match unknown_of(shape, members) {
            Some(key) => Err(ConfigBad::UnknownKey(scope.path(alloc, key.as_str())?)),
            None => Ok(()),
        },
    }
}
