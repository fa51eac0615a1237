// Configurations, what they need, and why a text is none.

use crate::printing::{number, word};
use vdr_config::{Config, ConfigBad, KeyPath, fits, needs};
use vdr_memory::MemorySink;

/// What a configuration needs: cost, usable bytes of a segment, slots of the capsule and of the long-term medium, and of the
/// float-free medium where its window is given.
pub(crate) fn put_needs(config: &Config, out: &mut MemorySink) {
    let needs = needs(config);
    number(out, needs.cost);
    number(out, needs.usable);
    number(out, needs.capsule_slots);
    number(out, needs.long_slots);
    if config.float_given {
        number(out, needs.float_slots);
    }
}

// The word of a refusal, and the key.
fn parts_of(bad: &ConfigBad) -> (&'static str, Option<&KeyPath>) {
    match bad {
        ConfigBad::NoMemory => ("memory", None),
        ConfigBad::Json => ("json", None),
        ConfigBad::MissingKey(path) => ("missing", Some(path)),
        ConfigBad::UnknownKey(path) => ("unknown", Some(path)),
        ConfigBad::Range(path) => ("range", Some(path)),
        ConfigBad::Repeated(path) => ("repeated", Some(path)),
        ConfigBad::ShortWindow(path) => ("short", Some(path)),
        ConfigBad::SmallSegment(path) => ("small", Some(path)),
        ConfigBad::TooLong => ("long", None),
    }
}

/// Why a text is no configuration.
pub(crate) fn put_refusal(bad: &ConfigBad, out: &mut MemorySink) {
    let (reason, path) = parts_of(bad);
    word(out, reason.as_bytes());
    if let Some(path) = path {
        word(out, path.text.as_str().as_bytes());
    }
}

/// Whether two media of these sizes are large enough: else the medium that is too small, the slots that it needs
/// and those that it has.
pub(crate) fn put_fit(config: &Config, capsule: u64, long: u64, out: &mut MemorySink) {
    match fits(config, &[capsule, long]) {
        Ok(()) => word(out, b"fits"),
        Err(small) => {
            number(out, u64::from(small.medium));
            number(out, small.need);
            number(out, small.have);
        }
    }
}
