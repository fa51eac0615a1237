// Why a text is no configuration: the refusals in the order of the grammar, with the path of the key.
use std::alloc::{AllocError, AllocFailed};
use std::marker::Model;

/// The path of a key in the text of a configuration, as `groups.0.datagrams`.
#[derive(Debug, Drop)]
pub struct KeyPath {
    /// The keys and the indices of elements, from the outermost inward, joined by points.
    pub text: String,
}

impl Model for KeyPath {
    ghost use Rattle.std.specs.Prelude.{ℕ, List, string_bytes};

    ghost Value = { List ℕ };

    ghost view = { λ p. string_bytes p.text };
}

/// Why a text is no configuration: the first refusal in the order of the grammar.
#[derive(Debug, Drop)]
pub enum ConfigBad {
    /// Memory ran out.
    NoMemory,
    /// The text is no JSON, or no object.
    Json,
    /// This mandatory key is not there.
    MissingKey(KeyPath),
    /// The object may not have this key.
    UnknownKey(KeyPath),
    /// The value is of another type, not whole, or out of its range.
    Range(KeyPath),
    /// The name was given to a group, or to a channel, before.
    Repeated(KeyPath),
    /// The window is shorter than a ship's has to be.
    ShortWindow(KeyPath),
    /// A segment has less than four batches.
    SmallSegment(KeyPath),
    /// The text has more than 16,380 bytes.
    TooLong,
}

impl From<AllocError> for ConfigBad {
    ghost use Rattle.std.specs.Prelude.{◌≡◌};
    ghost use Rattle.vdr_config.specs.declared.bad.ConfigBad.TheVariants.{NoMemory};

    ghost from_gives = { λ _ e. e ≡ NoMemory };

    fn from(_e: AllocError) -> ConfigBad {
        ConfigBad::NoMemory
    }
}

impl<T: Drop> From<AllocFailed<T>> for ConfigBad {
    ghost use Rattle.std.specs.Prelude.{◌≡◌};
    ghost use Rattle.vdr_config.specs.declared.bad.ConfigBad.TheVariants.{NoMemory};

    ghost from_gives = { λ _ e. e ≡ NoMemory };

    fn from(_e: AllocFailed<T>) -> ConfigBad {
        ConfigBad::NoMemory
    }
}
