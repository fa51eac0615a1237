// What media are: the line of each, the live incidents, and the configuration.
//
// Everything is read before anything is printed, and printed by one write.
ghost use Rattle.std.specs.Prelude.{◌≡◌, ◌≤◌, ◌⊎◌, ◌++◌, List, Option, length, option_copied, IfOk, OnOk};
ghost use Rattle.vdr_core.specs.Histories.{Incident, live};
ghost use Rattle.vdr_command.specs.Endings.{ending};
ghost use Rattle.vdr_command.specs.declared.status.Status.TheVariants.{Words};
ghost use Rattle.vdr_teller.specs.Incidents.{row_if};
ghost use Rattle.vdr_readout.specs.Informs.{Informs, below_text, info_text};

use std::alloc::{AllocError, Global};
use vdr_command::{Outer, Status, World, law_of_openings};
use vdr_incident::{Save, Table};
use vdr_info::{Info, medium_line, push_config, read_info};
use vdr_opening::law_of_parts;
use vdr_outside::{Media, Sink, Source, write_all};
use vdr_rescue::Alone;
use vdr_teller::row_of;
use vdr_terms::MOST_INCIDENTS;

/// What has incidents, saved under their ids.
pub(crate) trait Saves {
    /// Its incidents by their slots.
    ghost table: { Self → List (Option Incident) };

    /// The live save of an id.
    fn saved(&self, id: u32) -> Option<&Save>
        ensures { option_copied result ≡ live (table self.now) id };
}

impl Saves for Table {
    ghost table = { λ t. t };

    fn saved(&self, id: u32) -> Option<&Save> {
        self.live(id)
    }
}

impl Saves for Alone {
    ghost table = { λ a. a.saves.table };

    fn saved(&self, id: u32) -> Option<&Save> {
        self.live(id)
    }
}

// Appends the row of an id, if a save is live under it.
fn push_row<S: Saves>(below: &mut Vec<u8>, saves: &S, id: u32) -> Result<(), AllocError>
    ensures { OnOk result (below.new.items ≡ below.old.items ++ row_if id (live (S.table saves.now) id)) }
{
    let Some(saved) = saves.saved(id) else {
        return Ok(());
    };
    below.extend_from_slice(row_of(id, saved).as_slice())?;
    Ok(())
}

/// The rows of the live saves, and the configuration whose text this is.
pub(crate) fn below_of<S: Saves>(
    alloc: Global,
    saves: &S,
    text: &[u8],
) -> Result<Vec<u8>, AllocError>
    ensures { IfOk result (λ below. below.items ≡ below_text (S.table saves.now) text.now) }
{
    let mut below = Vec::new(alloc);
    for before in 0..MOST_INCIDENTS {
        push_row(&mut below, saves, before + 1)?;
    }
    push_config(&mut below, text)?;
    Ok(below)
}

// The line of each medium, and what stands below.
fn text_of(alloc: Global, info: &Info) -> Result<Vec<u8>, AllocError>
    ensures { IfOk result (λ text. text.items ≡ info_text info.now) }
{
    let below = below_of(alloc, &info.table, &info.text)?;
    let mut text = Vec::new(alloc);
    text.extend_from_slice(medium_line(&info.capsule).as_slice())?;
    text.extend_from_slice(medium_line(&info.long_term).as_slice())?;
    text.extend_from_slice(&below)?;
    Ok(text)
}

/// Tells what both media are. Nothing is written to them.
pub fn answer_info<I: Source + Drop, O: Sink + Drop, M: Media + Drop>(
    alloc: Global,
    world: &mut World<I, O, M>,
) -> Result<(), Status>
    requires two { 2 ≤ length (M.disk world.old.media).sizes }
    requires three { length (M.disk world.old.media).sizes ≤ 3 }
    ensures owed { let at = ⟦<World<I, O, M> as Outer>⟧.outside in Informs (at world.old) (at world.new) (ending result) }
    ensures known { ending result ≡ Words → ⊥ }
    ensures later { O.faults world.old.output ≤ O.faults world.new.output }
    ensures sizes { (M.disk world.new.media).sizes ≡ (M.disk world.old.media).sizes }
    ensures unread { world.new.input ≡ world.old.input }
{
    law_of_openings();
    law_of_parts();
    let info = read_info(alloc, &mut world.media)?;
    let Ok(text) = text_of(alloc, &info) else {
        return Err(Status::NoMemory);
    };
    match write_all(&mut world.output, &text) {
        Ok(()) => Ok(()),
        Err(_) => Err(Status::OutputFault),
    }
}
