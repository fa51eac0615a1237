// Why media were not formatted.
use vdr_config::{ConfigBad, TooSmall};
use vdr_outside::{Failed, Fault};

/// Why media were not formatted.
#[derive(Drop)]
pub enum FormatRefused {
    /// There was no memory to read the configuration. No call was made on the media.
    NoMemory,
    /// The text is no configuration. No call was made on the media.
    Config(ConfigBad),
    /// The media are formatted, and were not to be formatted again. They are as before.
    AlreadyFormatted,
    /// A medium has fewer slots than the configuration needs. They are as before.
    TooSmall(TooSmall),
    /// A call on the media failed, and their count of faults rose.
    Fault,
}

impl From<ConfigBad> for FormatRefused {
    ghost use Rattle.std.specs.Prelude.{◌≡◌};
    ghost use Rattle.vdr_media.specs.Answers.{refusal_by};

    ghost from_gives = { λ bad refused. refused ≡ refusal_by bad };

    fn from(bad: ConfigBad) -> FormatRefused {
        match bad {
            ConfigBad::NoMemory => FormatRefused::NoMemory,
            bad => FormatRefused::Config(bad),
        }
    }
}

impl From<TooSmall> for FormatRefused {
    ghost use Rattle.std.specs.Prelude.{◌≡◌};
    ghost use Rattle.vdr_media.specs.declared.refused.FormatRefused.TheVariants as refusals;

    ghost from_gives = { λ small refused. refused ≡ refusals.TooSmall small };

    fn from(small: TooSmall) -> FormatRefused {
        FormatRefused::TooSmall(small)
    }
}

impl From<Fault> for FormatRefused {
    ghost use Rattle.std.specs.Prelude.{◌≡◌};
    ghost use Rattle.vdr_media.specs.declared.refused.FormatRefused.TheVariants as refusals;

    ghost from_gives = { λ _ refused. refused ≡ refusals.Fault };

    fn from(_: Fault) -> FormatRefused {
        FormatRefused::Fault
    }
}

impl From<Failed> for FormatRefused {
    ghost use Rattle.std.specs.Prelude.{◌≡◌};
    ghost use Rattle.vdr_media.specs.declared.refused.FormatRefused.TheVariants as refusals;

    ghost from_gives = { λ _ refused. refused ≡ refusals.Fault };

    fn from(_: Failed) -> FormatRefused {
        FormatRefused::Fault
    }
}
