// The forms of texts, and the keys of objects.
ghost use Rattle.std.specs.Prelude.{◌≡◌, bytes_eq};
ghost use Rattle.std.specs.List.{list_all, list_any};
ghost use Rattle.vdr_config.specs.Names.{is_name_byte, is_formatter_byte, is_source_byte, is_channel_name, is_formatter, is_source};
ghost use Rattle.vdr_config.specs.Forms.{profile_named, kind_named, is_key, shape_of};

use crate::profile::Profile;

/// Which keys an object may have.
#[derive(Clone, Copy, Drop)]
pub(crate) enum Shape {
    Top,
    Group,
    /// Of any kind.
    Channel,
    Sentence,
    Image,
    Pcm,
    Opaque,
}

/// The kinds of channels.
#[derive(Clone, Copy, Drop)]
pub(crate) enum KindName {
    Sentence,
    Image,
    Pcm,
    Opaque,
}

impl KindName {
    /// The keys that a channel of this kind may have.
    pub(crate) fn shape(self) -> Shape
        ensures { result ≡ shape_of self }
    {
        match self {
            KindName::Sentence => Shape::Sentence,
            KindName::Image => Shape::Image,
            KindName::Pcm => Shape::Pcm,
            KindName::Opaque => Shape::Opaque,
        }
    }
}

/// The profile of this name.
pub(crate) fn profile_of(name: &str) -> Option<Profile>
    ensures { result ≡ profile_named name.now }
{
    if name == "ship" {
        Some(Profile::Ship)
    } else if name == "bench" {
        Some(Profile::Bench)
    } else {
        None
    }
}

/// The kind of this name.
pub(crate) fn kind_of(name: &str) -> Option<KindName>
    ensures { result ≡ kind_named name.now }
{
    if name == "sentence" {
        Some(KindName::Sentence)
    } else if name == "image" {
        Some(KindName::Image)
    } else if name == "pcm" {
        Some(KindName::Pcm)
    } else if name == "opaque" {
        Some(KindName::Opaque)
    } else {
        None
    }
}

fn are_name_bytes(name: &[u8]) -> bool
    ensures { result ≡ list_all is_name_byte name.now }
{
    name.iter().all(|b| (b'a' <= *b && *b <= b'z') || (b'0' <= *b && *b <= b'9') || *b == b'_')
}

/// 1 to 32 lower-case letters, digits and `_`, not `all`.
pub(crate) fn names_channel(name: &[u8]) -> bool
    ensures { result ≡ is_channel_name name.now }
{
    1 <= name.len() && name.len() <= 32 && are_name_bytes(name) && name != b"all".as_slice()
}

fn are_formatter_bytes(name: &[u8]) -> bool
    ensures { result ≡ list_all is_formatter_byte name.now }
{
    name.iter().all(|b| (b'A' <= *b && *b <= b'Z') || (b'0' <= *b && *b <= b'9'))
}

/// Three capital letters or digits.
pub(crate) fn names_formatter(name: &[u8]) -> bool
    ensures { result ≡ is_formatter name.now }
{
    name.len() == 3 && are_formatter_bytes(name)
}

fn are_source_bytes(name: &[u8]) -> bool
    ensures { result ≡ list_all is_source_byte name.now }
{
    name.iter().all(|b| 0x21 <= *b && *b <= 0x7E)
}

/// 1 to 15 bytes of 0x21 to 0x7E.
pub(crate) fn names_source(name: &[u8]) -> bool
    ensures { result ≡ is_source name.now }
{
    1 <= name.len() && name.len() <= 15 && are_source_bytes(name)
}

const TOP_KEYS: [&str; 11] = [
    "profile",
    "capsule_seconds",
    "long_seconds",
    "float_seconds",
    "incident_seconds",
    "incident_slots",
    "segment",
    "batch",
    "queue",
    "groups",
    "channels",
];

const GROUP_KEYS: [&str; 3] = ["name", "datagrams", "bytes"];

const CHANNEL_KEYS: [&str; 6] = ["name", "group", "kind", "formatter", "source", "microphone"];

const SENTENCE_KEYS: [&str; 5] = ["name", "group", "kind", "formatter", "source"];

const IMAGE_KEYS: [&str; 4] = ["name", "group", "kind", "source"];

const PCM_KEYS: [&str; 4] = ["name", "group", "kind", "microphone"];

const OPAQUE_KEYS: [&str; 3] = ["name", "group", "kind"];

fn is_among(key: &str, keys: &[&str]) -> bool
    ensures { result ≡ list_any (λ k. bytes_eq key.now k.now) keys.now }
{
    keys.iter().any(|k| key == *k)
}

/// Whether an object of this shape may have the key.
#[tactic(auto, unfolding(crate::specs::Forms::is_key))]
pub(crate) fn has_key(shape: Shape, key: &str) -> bool
    ensures { result ≡ is_key shape key.now }
{
    match shape {
        Shape::Top => is_among(key, &TOP_KEYS),
        Shape::Group => is_among(key, &GROUP_KEYS),
        Shape::Channel => is_among(key, &CHANNEL_KEYS),
        Shape::Sentence => is_among(key, &SENTENCE_KEYS),
        Shape::Image => is_among(key, &IMAGE_KEYS),
        Shape::Pcm => is_among(key, &PCM_KEYS),
        Shape::Opaque => is_among(key, &OPAQUE_KEYS),
    }
}
