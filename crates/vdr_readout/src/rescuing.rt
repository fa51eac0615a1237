// Reading records out of one medium alone: `rescue`.
//
// What the medium gives is printed as a play prints it, and then what was found: what is missing, damaged or closed. A
// file is written with none of these lines; its status alone tells.
ghost use Rattle.std.specs.Prelude.{◌≡◌, ◌≤◌, ◌<◌, [], length};
ghost use Rattle.vdr_durability.specs.Playback.{medium_of};
ghost use Rattle.vdr_entry.specs.Queries.{asked_medium};
ghost use Rattle.vdr_segment.specs.Areas.{HasRoom};
ghost use Rattle.vdr_rescue.specs.Alones.{account_of};
ghost use Rattle.vdr_command.specs.Endings.{ending};
ghost use Rattle.vdr_readout.specs.Reads.{number_asked, plain_play};
ghost use Rattle.vdr_readout.specs.Rescues.{IsOpenedSince, Rescues, since, status_found};
ghost use Rattle.vdr_readout.specs.Telling.{TellsAlone, status_of_part};

use crate::reading::{Wanted, query_in, stopped_as};
use std::alloc::{AllocError, Global};
use vdr_command::{Outer, Status, World, report_channel};
use vdr_entry::Medium;
use vdr_outside::{Media, PartRefused, Sink, Source};
use vdr_rescue::{Alone, Found, found_of, law_of_alone, print_findings};
use vdr_visit::{Visitor, visit_buffered};

/// The number of the medium on which this stands: an incident's records stand on the long-term medium.
pub fn number_of(medium: Medium) -> u8
    ensures number { result ≡ medium_of (asked_medium medium) }
    ensures few { result < 2 }
{
    match medium {
        Medium::Capsule => 0,
        Medium::LongTerm | Medium::Incident(_) => 1,
    }
}

/// How the opening of one medium ends a command.
pub(crate) fn status_of_part(refused: PartRefused) -> Status
    ensures { result ≡ status_of_part refused }
{
    match refused {
        PartRefused::NoMemory => Status::NoMemory,
        PartRefused::Damaged { medium, offset } => Status::Damaged { medium, offset },
        PartRefused::Fault => Status::MediaFault,
    }
}

/// How what was found ends a command that was done.
pub(crate) fn ended_as(found: Found, m: u8) -> Result<(), Status>
    ensures { ending result ≡ status_found m found }
{
    match found {
        Found::Whole => Ok(()),
        Found::Damaged { offset } => Err(Status::Damaged { medium: m, offset }),
        Found::Missing { place } => Err(Status::Missing(place)),
    }
}

// Prints what was found, and ends the command so.
fn tell<O: Sink>(alloc: Global, alone: &Alone, out: &mut O) -> Result<(), Status>
    ensures told { TellsAlone (account_of alone.now) alone.now.cursor.area.medium (record { taken = O.taken out.old; faults = O.faults out.old }) (record { taken = O.taken out.new; faults = O.faults out.new }) (ending result) }
    ensures later { O.faults out.old ≤ O.faults out.new }
{
    let Ok(findings) = alone.findings(alloc) else {
        return Err(Status::NoMemory);
    };
    match print_findings(findings.as_slice(), out) {
        Ok(()) => ended_as(found_of(findings.as_slice()), alone.medium()),
        Err(_) => Err(Status::OutputFault),
    }
}

/// Hands the records that are wanted of a medium that was opened alone to the visitor, and prints what was found. What is said of this
/// goes back to the media as they were before it was opened.
pub(crate) fn rescue_opened<
    I: Source + Drop,
    O: Sink + Drop,
    M: Media + Drop,
    V: Visitor<Reason = AllocError>,
>(
    alloc: Global,
    opened: Alone,
    wanted: Wanted<'_>,
    visitor: &mut V,
    world: &mut World<I, O, M>,
) -> Result<(), Status>
    requires room { HasRoom opened.cursor.area (M.disk world.old.media).sizes }
    ensures rescues { let at = ⟦<World<I, O, M> as Outer>⟧.outside in (first : V) → V.has first [] visitor.old
        → (before : M) → IsOpenedSince M.Media (number_asked (plain_play wanted.entry)) before world.old.media opened
        → Rescues (plain_play wanted.entry) (V.line first) (V.last first) (since M.Media before (at world.old)) (at world.new) (ending result) }
    ensures later { O.faults world.old.output ≤ O.faults world.new.output }
    ensures sizes { (M.disk world.new.media).sizes ≡ (M.disk world.old.media).sizes }
    ensures unread { world.new.input ≡ world.old.input }
{
    law_of_alone();
    let mut alone = opened;
    let Some(query) = query_in(alone.config(), wanted) else {
        report_channel(wanted.channel, &mut world.output);
        return Err(Status::NoChannel);
    };
    let ended = visit_buffered(
        &mut alone,
        &mut world.media,
        &query,
        visitor,
        &mut world.output,
    );
    if let Err(stop) = ended {
        return Err(stopped_as(stop, wanted.medium));
    }
    tell(alloc, &alone, &mut world.output)
}

/// Opens the medium that is wanted alone, and hands its records that are wanted to the visitor; then prints what was found. Only the line
/// of a channel that is not configured is written besides, by `NoChannel`. Nothing is written to any medium, and no other one is read.
///
/// `Damaged` and want of memory come of opening; then `NoChannel`, and then `NoIncident`, before anything is read. Where all was read,
/// `Damaged` and `Missing` tell what was found.
pub(crate) fn rescue_out<
    I: Source + Drop,
    O: Sink + Drop,
    M: Media + Drop,
    V: Visitor<Reason = AllocError>,
>(
    alloc: Global,
    wanted: Wanted<'_>,
    visitor: &mut V,
    world: &mut World<I, O, M>,
) -> Result<(), Status>
    requires two { 2 ≤ length (M.disk world.old.media).sizes }
    ensures rescues { let at = ⟦<World<I, O, M> as Outer>⟧.outside in (first : V) → V.has first [] visitor.old
        → Rescues (plain_play wanted.entry) (V.line first) (V.last first) (at world.old) (at world.new) (ending result) }
    ensures later { O.faults world.old.output ≤ O.faults world.new.output }
    ensures sizes { (M.disk world.new.media).sizes ≡ (M.disk world.old.media).sizes }
    ensures unread { world.new.input ≡ world.old.input }
{
    law_of_alone();
    let m = number_of(wanted.medium);
    match Alone::open(alloc, &mut world.media, m) {
        Ok(alone) => rescue_opened(alloc, alone, wanted, visitor, world),
        Err(refused) => Err(status_of_part(refused)),
    }
}
