// The sizes of the media that a text asks for, or why it asks for none.
ghost use Rattle.std.specs.Prelude.{◌≡◌, ◌≤◌, ℕ, List, IfErr, IfOk, OnOk};
ghost use Rattle.vdr_config.specs.Grammar.{Refuses, configuration};
ghost use Rattle.vdr_live.specs.Makes.{AsksSizes};
ghost use Rattle.vdr_live.specs.MakeParts.{AsksNone, unasked_status};

use crate::sizes::least_sizes;
use std::alloc::Global;
use vdr_command::{Status, number_of, report_refusal};
use vdr_config::{ConfigBad, TooSmall, read_config};
use vdr_outside::Sink;

/// Why a text asks for no media.
#[derive(Clone, Copy, Drop)]
pub(crate) enum Unasked {
    /// There was no memory to read it.
    NoMemory,
    /// It is no configuration, and this is the number of its refusal.
    Config { number: u8 },
    /// It is a configuration for which no medium has enough slots.
    Small(TooSmall),
}

impl Unasked {
    /// The status with which the command ends.
    pub(crate) fn status(self) -> Status
        ensures { result ≡ unasked_status self }
    {
        match self {
            Unasked::NoMemory => Status::NoMemory,
            Unasked::Config { number } => Status::Config { number },
            Unasked::Small(small) => Status::Small(small),
        }
    }
}

// Why a text is no configuration, which is written, unless there was no memory to read it.
fn refused_by<O: Sink>(bad: &ConfigBad, output: &mut O) -> Unasked
    ensures refused { (text : List ℕ) → Refuses bad.now (configuration text)
        → AsksNone text (record { taken = O.taken output.old; faults = O.faults output.old }) (record { taken = O.taken output.new; faults = O.faults output.new }) result }
    ensures later { O.faults output.old ≤ O.faults output.new }
{
    match bad {
        ConfigBad::NoMemory => Unasked::NoMemory,
        bad => {
            report_refusal(bad, output);
            Unasked::Config {
                number: number_of(bad),
            }
        }
    }
}

/// The least sizes of the capsule and of the long-term medium, in bytes, for the configuration that this text is. Its refusal is written, with the
/// key.
pub(crate) fn sizes_in<O: Sink>(
    alloc: Global,
    text: &[u8],
    output: &mut O,
) -> Result<(u64, u64), Unasked>
    ensures asked { IfOk result (λ sizes. AsksSizes text.now sizes.0 sizes.1) }
    ensures silent { OnOk result (output.new ≡ output.old) }
    ensures refused { IfErr result (λ why. AsksNone text.now (record { taken = O.taken output.old; faults = O.faults output.old }) (record { taken = O.taken output.new; faults = O.faults output.new }) why) }
    ensures later { O.faults output.old ≤ O.faults output.new }
{
    let config = match read_config(alloc, text) {
        Ok(config) => config,
        Err(bad) => return Err(refused_by(&bad, output)),
    };
    match least_sizes(&config) {
        Ok(sizes) => Ok(sizes),
        Err(small) => Err(Unasked::Small(small)),
    }
}
