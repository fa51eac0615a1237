// Formatting the media.
ghost use Rattle.std.specs.Prelude.{◌≡◌, ◌≤◌, ◌⊎◌, length, Err, ⊤};
ghost use Rattle.std.specs.Io.KnownBytes.{IsAtEnd};
ghost use Rattle.vdr_outside.specs.Causes.{Rose};
ghost use Rattle.vdr_feed.specs.Reader.{IfKnown};
ghost use Rattle.vdr_config.specs.declared.bad.ConfigBad.{ConfigBad as Bad};
ghost use Rattle.vdr_config.specs.Grammar.{configuration};
ghost use Rattle.vdr_command.specs.Refusals.{number_of, refusal_line};
ghost use Rattle.vdr_command.specs.Endings.{ending};
ghost use Rattle.vdr_tool.specs.Formats.{FormatEnds, Formats, IfBad, IfConfiguration, status_of};
ghost use Rattle.vdr_command.specs.StatusLine.{IfConfig, IsConfig, Wrote};
ghost use Rattle.vdr_command.specs.declared.status.Status.TheVariants.{Done, InputFault, Words};

use crate::checking::ENOUGH;
use std::alloc::Global;
use vdr_command::{Outer, Status, World, number_of, report_refusal};
use vdr_media::{FormatRefused, format};
use vdr_outside::{Media, Sink, Source, fill};

// How a refusal ends the command. That of the configuration is written, with its key.
fn told<O: Sink>(refused: &FormatRefused, output: &mut O) -> Status
    ensures status { result ≡ status_of refused.now }
    ensures line { IfBad refused.now (λ bad. Wrote (refusal_line bad) (O.taken output.old) (O.taken output.new) (O.faults output.old) (O.faults output.new)) }
    ensures silent { IsConfig result ⊎ (output.new ≡ output.old) }
    ensures later { O.faults output.old ≤ O.faults output.new }
{
    match refused {
        FormatRefused::NoMemory => Status::NoMemory,
        FormatRefused::Config(bad) => {
            report_refusal(bad, output);
            Status::Config {
                number: number_of(bad),
            }
        }
        FormatRefused::AlreadyFormatted => Status::Formatted,
        FormatRefused::TooSmall(small) => Status::Small(*small),
        FormatRefused::Fault => Status::MediaFault,
    }
}

// Formats the media with the configuration that the input is, which is read to its end unless it is too long.
fn format_media<I: Source + Drop, O: Sink + Drop, M: Media + Drop>(
    alloc: Global,
    again: bool,
    world: &mut World<I, O, M>,
) -> Result<(), Status>
    requires two { 2 ≤ length (M.disk world.old.media).sizes }
    requires three { length (M.disk world.old.media).sizes ≤ 3 }
    ensures done { ending result ≡ Done → IsAtEnd (I.left world.new.input) × IfConfiguration (I.left world.old.input) (λ c bytes. ⊤) }
    ensures config { IfConfig (ending result) (λ number. (bad : Bad) × (number_of bad ≡ number) × IfKnown (I.left world.old.input) (λ bytes. configuration bytes ≡ Err bad)
        × Wrote (refusal_line bad) (O.taken world.old.output) (O.taken world.new.output) (O.faults world.old.output) (O.faults world.new.output)) }
    ensures input { ending result ≡ InputFault → Rose (I.faults world.old.input) (I.faults world.new.input) }
    ensures silent { IsConfig (ending result) ⊎ (world.new.output ≡ world.old.output) }
    ensures later { O.faults world.old.output ≤ O.faults world.new.output }
    ensures media { let at = ⟦<World<I, O, M> as Outer>⟧.outside in FormatEnds again (I.left world.old.input) (at world.old).media (at world.new).media (ending result) }
    ensures sizes { (M.disk world.new.media).sizes ≡ (M.disk world.old.media).sizes }
{
    let mut text = [0; ENOUGH];
    let Ok(count) = fill(&mut world.input, &mut text) else {
        return Err(Status::InputFault);
    };
    let Err(refused) = format(alloc, &mut world.media, &text[..count], again) else {
        return Ok(());
    };
    Err(told(&refused, &mut world.output))
}

/// Formats the media with the configuration that the input is, also where they are formatted already if it is to be done again.
pub(crate) fn answer_format<I: Source + Drop, O: Sink + Drop, M: Media + Drop>(
    alloc: Global,
    again: bool,
    world: &mut World<I, O, M>,
) -> Result<(), Status>
    requires two { 2 ≤ length (M.disk world.old.media).sizes }
    requires three { length (M.disk world.old.media).sizes ≤ 3 }
    ensures owed { let at = ⟦<World<I, O, M> as Outer>⟧.outside in Formats again (at world.old) (at world.new) (ending result) }
    ensures known { ending result ≡ Words → ⊥ }
    ensures later { O.faults world.old.output ≤ O.faults world.new.output }
    ensures sizes { (M.disk world.new.media).sizes ≡ (M.disk world.old.media).sizes }
{
    format_media(alloc, again, world)
}
