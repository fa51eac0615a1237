// What was recorded, as a file that others can check.
//
// The configuration's text is read of the capsule: all media hold the same.
ghost use Rattle.std.specs.Prelude.{◌≡◌, ◌≤◌, [], ℕ, List, length, Err, IfOk};
ghost use Rattle.vdr_outside.specs.Disk.{Unchanged, content};
ghost use Rattle.vdr_outside.specs.declared.fault.PartRefused.TheVariants.{Damaged};
ghost use Rattle.vdr_directory.specs.Opening.{HasFaultCause};
ghost use Rattle.vdr_media.specs.Medium.{HoldsText};
ghost use Rattle.vdr_opening.specs.Parts.{HasRoomBefore};
ghost use Rattle.vdr_evidence.specs.Writing.{HasWritten};
ghost use Rattle.vdr_command.specs.Endings.{ending};
ghost use Rattle.vdr_command.specs.declared.status.Status.TheVariants.{Words};
ghost use Rattle.vdr_readout.specs.Evidences.{Evidences, heading_asked, label_in};
ghost use Rattle.vdr_readout.specs.Reads.{plain_play};

use crate::reading::{Wanted, ended_by, id_of, query_of};
use crate::rescuing::status_of_part;
use std::alloc::{AllocError, Global};
use std::convert::Infallible;
use vdr_command::{Outer, Status, World, law_of_openings, report_channel};
use vdr_entry::Medium;
use vdr_evidence::{EvidenceWriter, heading_of, law_of_evidence};
use vdr_info::read_text;
use vdr_outside::{Media, PartRefused, Sink, Source};
use vdr_recorder::Recorder;
use vdr_vault::law_of_meeting;

// The label of the incident that is asked for.
fn label_in(recorder: &Recorder, medium: Medium) -> &[u8]
    ensures { result.now ≡ label_in recorder.now.vault.table medium }
{
    let Medium::Incident(id) = medium else {
        return b"";
    };
    match recorder.live(id) {
        Some(saved) => saved.label.as_slice(),
        None => b"",
    }
}

// The heading for what is wanted of the media that were opened, with this text.
#[tactic(auto, unfolding(crate::specs::Evidences::heading_asked))]
fn heading_with(
    alloc: Global,
    recorder: &Recorder,
    wanted: Wanted<'_>,
    text: &[u8],
) -> Result<Vec<u8>, AllocError>
    ensures { IfOk result (λ heading. heading.items ≡ heading_asked text.now recorder.now.vault.table (plain_play wanted.entry)) }
{
    heading_of(
        alloc,
        text,
        wanted.medium,
        label_in(recorder, wanted.medium),
        wanted.channel,
        wanted.from,
        wanted.to,
    )
}

// What writes the records that are wanted of the media that were opened, before it has written any.
fn writer_for<M: Media>(
    alloc: Global,
    recorder: &Recorder,
    media: &mut M,
    wanted: Wanted<'_>,
) -> Result<EvidenceWriter, PartRefused>
    requires { HasRoomBefore 0 (M.disk media.old).sizes }
    ensures new { IfOk result (λ writer. HasWritten writer writer.heading.items []) }
    ensures heading { IfOk result (λ writer. M.tells → (text : List ℕ) × HoldsText text (content (M.disk media.old).reads 0) × (length text ≤ 16380)
        × (writer.heading.items ≡ heading_asked text recorder.now.vault.table (plain_play wanted.entry))) }
    ensures damaged { (k offset : ℕ) → result ≡ Err (Damaged k offset) → M.tells → (text : List ℕ) → length text ≤ 16380 → HoldsText text (content (M.disk media.old).reads 0) → ⊥ }
    ensures unchanged { Unchanged (M.disk media.old) (M.disk media.new) }
    ensures cause { HasFaultCause 0 (M.faults media.old) (M.faults media.new) result }
{
    let text = read_text(alloc, media, 0)?;
    let Ok(heading) = heading_with(alloc, recorder, wanted, &text) else {
        return Err(PartRefused::NoMemory);
    };
    Ok(EvidenceWriter::new(heading))
}

/// Writes what is wanted as an evidence file, each record as it is read. Memory is taken to open the media, and for what stands before the
/// records.
///
/// `Unformatted`, `Damaged` and want of memory come of opening; then `NoChannel`, and then `NoIncident`, before anything is read.
pub fn answer_evidence<I: Source + Drop, O: Sink + Drop, M: Media + Drop>(
    alloc: Global,
    wanted: Wanted<'_>,
    world: &mut World<I, O, M>,
) -> Result<(), Status>
    requires two { 2 ≤ length (M.disk world.old.media).sizes }
    requires three { length (M.disk world.old.media).sizes ≤ 3 }
    ensures owed { let at = ⟦<World<I, O, M> as Outer>⟧.outside in Evidences (plain_play wanted.entry) (at world.old) (at world.new) (ending result) }
    ensures known { ending result ≡ Words → ⊥ }
    ensures later { O.faults world.old.output ≤ O.faults world.new.output }
    ensures sizes { (M.disk world.new.media).sizes ≡ (M.disk world.old.media).sizes }
    ensures unread { world.new.input ≡ world.old.input }
{
    law_of_openings();
    law_of_evidence();
    let mut recorder = Recorder::open(alloc, &mut world.media)?;
    law_of_meeting();
    let Some(query) = query_of(&recorder, wanted) else {
        report_channel(wanted.channel, &mut world.output);
        return Err(Status::NoChannel);
    };
    let Ok(()) = recorder.accept::<Infallible>(&query) else {
        return Err(Status::NoIncident(id_of(wanted.medium)));
    };
    let mut writer = match writer_for(alloc, &recorder, &mut world.media, wanted) {
        Ok(writer) => writer,
        Err(refused) => return Err(status_of_part(refused)),
    };
    let ended = recorder.visit(&mut world.media, &query, &mut writer, &mut world.output);
    ended_by(ended, wanted.medium)
}
