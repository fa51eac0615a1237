// What both media say of the same places: `compare`.
ghost use Rattle.std.specs.Prelude.{◌≡◌, ◌≤◌, length};
ghost use Rattle.vdr_command.specs.Endings.{ending};
ghost use Rattle.vdr_command.specs.declared.status.Status.TheVariants.{Words};
ghost use Rattle.vdr_readout.specs.Compares.{ComparesBoth, status_of_comparison};

use crate::rescuing::status_of_part;
use std::alloc::Global;
use vdr_command::{Outer, Status, World};
use vdr_compare::{CompareRefused, MediaRefused, Verdict, compare_media};
use vdr_media::TEXT_FROM;
use vdr_outside::{Media, Sink, Source};

// How a comparison ends the command.
fn ended_as(ended: Result<Verdict, MediaRefused>) -> Result<(), Status>
    ensures { ending result ≡ status_of_comparison ended }
{
    match ended {
        Ok(Verdict::Same) => Ok(()),
        Ok(Verdict::Configuration) => Err(Status::Damaged {
            medium: 1,
            offset: TEXT_FROM,
        }),
        Ok(Verdict::Damaged { medium, offset }) => Err(Status::Damaged { medium, offset }),
        Ok(Verdict::Differs { place }) => Err(Status::Missing(place)),
        Ok(Verdict::Lacks { place }) => Err(Status::Missing(place)),
        Err(MediaRefused::Opening(refused)) => Err(status_of_part(refused)),
        Err(MediaRefused::Comparing(CompareRefused::Fault)) => Err(Status::MediaFault),
        Err(MediaRefused::Comparing(CompareRefused::Output)) => Err(Status::OutputFault),
    }
}

/// Compares both media, each opened alone and whatever its bytes are: the lines of `vdr_compare::compare_media`. Nothing is written to any
/// medium.
///
/// `Damaged`: a medium can't be opened alone; at 12,288 of medium 1 also where the texts of the configurations differ; else the first damage
/// that is found of them, of the capsule first. `Missing`: nothing is damaged, and this is the first place that differs or that one of them
/// lacks.
pub fn answer_compare<I: Source + Drop, O: Sink + Drop, M: Media + Drop>(
    alloc: Global,
    world: &mut World<I, O, M>,
) -> Result<(), Status>
    requires two { 2 ≤ length (M.disk world.old.media).sizes }
    ensures owed { let at = ⟦<World<I, O, M> as Outer>⟧.outside in ComparesBoth (at world.old) (at world.new) (ending result) }
    ensures known { ending result ≡ Words → ⊥ }
    ensures later { O.faults world.old.output ≤ O.faults world.new.output }
    ensures sizes { (M.disk world.new.media).sizes ≡ (M.disk world.old.media).sizes }
    ensures unread { world.new.input ≡ world.old.input }
{
    let ended = compare_media(alloc, &mut world.media, &mut world.output);
    ended_as(ended)
}
