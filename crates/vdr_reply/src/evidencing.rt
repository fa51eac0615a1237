// The evidence of an incident, over a link.
//
// The configuration's text is read of the capsule: all media hold the same. That read and the visit are one look.
ghost use Rattle.std.specs.Prelude.{◌≡◌, ◌≤◌, [], ℕ, List, false, length, sum, Err, IfOk};
ghost use Rattle.vdr_core.specs.Histories.{Event, Opening};
ghost use Rattle.vdr_outside.specs.Causes.{Rose};
ghost use Rattle.vdr_outside.specs.Disk.{Unchanged, content};
ghost use Rattle.vdr_outside.specs.declared.fault.PartRefused.TheVariants.{Damaged};
ghost use Rattle.vdr_directory.specs.Opening.{HasFaultCause};
ghost use Rattle.vdr_entry.specs.Queries.{asked};
ghost use Rattle.vdr_media.specs.Medium.{HoldsText};
ghost use Rattle.vdr_opening.specs.Parts.{HasRoomBefore};
ghost use Rattle.vdr_media.specs.Formatted.{members};
ghost use Rattle.vdr_vault.specs.Calls.{SameElsewhere};
ghost use Rattle.vdr_vault.specs.Vaults.{AreRings};
ghost use Rattle.vdr_base64.specs.Lines.{left_over};
ghost use Rattle.vdr_control.specs.Orders.PlainOrder.{Evidence as EvidenceOrder};
ghost use Rattle.vdr_evidence.specs.Writing.{HasWritten};
ghost use Rattle.vdr_recorder.specs.Recordings.{HasRecorded};
ghost use Rattle.vdr_recorder.specs.Watched.{IsWatched};
ghost use Rattle.vdr_teller.specs.Evidence.{save_heading, save_query};
ghost use Rattle.vdr_reply.specs.Answers.{HasAnswered, HasOrderCause, LeavesRest};
ghost use Rattle.vdr_reply.specs.Texts.{part_line};

use crate::lines::{DAMAGED, FAULT, NO_MEMORY, NOT_THERE};
use crate::telling::{is_there, tell};
use std::alloc::Global;
use vdr_base64::{Base64Printer, law_of_printing};
use vdr_desk::Reply;
use vdr_entry::{Medium, Query};
use vdr_evidence::{EvidenceWriter, law_of_evidence};
use vdr_info::read_text;
use vdr_outside::{Media, PartRefused};
use vdr_recorder::{Recorder, Watch};
use vdr_teller::save_heading;
use vdr_terms::LAST_STAMP;

// All records of an incident.
fn save_query(id: u32) -> Query
    ensures { asked result ≡ save_query id }
{
    Query {
        medium: Medium::Incident(id),
        channel: None,
        from: 0,
        to: LAST_STAMP,
    }
}

// What prints the evidence of an incident, before it has printed any of it.
fn printer_of<M: Media>(
    alloc: Global,
    recorder: &Recorder,
    media: &mut M,
    id: u32,
) -> Result<Base64Printer<EvidenceWriter>, PartRefused>
    requires { HasRoomBefore 0 (M.disk media.old).sizes }
    ensures new { IfOk result (λ printer. HasWritten printer.visitor printer.visitor.heading.items [] × (printer.pending.bytes.items ≡ left_over [])) }
    ensures heading { IfOk result (λ printer. M.tells → (text : List ℕ) × HoldsText text (content (M.disk media.old).reads 0) × (length text ≤ 16380)
        × (printer.visitor.heading.items ≡ save_heading text recorder.now.vault.table id)) }
    ensures damaged { (k offset : ℕ) → result ≡ Err (Damaged k offset) → M.tells → (text : List ℕ) → length text ≤ 16380 → HoldsText text (content (M.disk media.old).reads 0) → ⊥ }
    ensures unchanged { Unchanged (M.disk media.old) (M.disk media.new) }
    ensures cause { HasFaultCause 0 (M.faults media.old) (M.faults media.new) result }
{
    let text = read_text(alloc, media, 0)?;
    let Ok(heading) = save_heading(alloc, recorder, id, &text) else {
        return Err(PartRefused::NoMemory);
    };
    let writer = EvidenceWriter::new(heading);
    Ok(Base64Printer::new(alloc, writer))
}

// The line for a text that could not be read.
fn of_part(refused: PartRefused) -> Reply
    ensures { result ≡ part_line refused }
{
    match refused {
        PartRefused::NoMemory => Reply::of_line(NO_MEMORY),
        PartRefused::Damaged { .. } => Reply::of_line(DAMAGED),
        PartRefused::Fault => Reply::of_line(FAULT),
    }
}

/// Answers with the evidence of an incident, on media that have not failed. It is `FAULT 9` too where there is no memory for what stands in
/// the file before its records.
pub(crate) fn answer_evidence<M: Media, W: Watch<M>>(
    alloc: Global,
    recorder: &mut Recorder,
    media: &mut M,
    watch: &mut W,
    id: u32,
) -> Reply
    requires rings { AreRings recorder.old.vault (M.disk media.old).sizes }
    requires works { recorder.old.vault.failed ≡ false }
    requires watched { IsWatched W.hears (W.seen watch.old) recorder.old (M.disk media.old) }
    ensures answered { (opening : Opening) (events : List Event) (t0 : ℕ) → M.tells → HasRecorded opening events t0 recorder.old (M.disk media.old)
        → HasAnswered recorder.old.vault.config.channels (Rose (sum (M.faults media.old)) (sum (M.faults media.new))) opening events t0
        (EvidenceOrder id) result recorder.old recorder.new (M.disk media.old) (M.disk media.new) W.hears (W.seen watch.old) (W.seen watch.new) }
    ensures rest { LeavesRest recorder.old recorder.new }
    ensures rings { AreRings recorder.new.vault (M.disk media.new).sizes }
    ensures others { M.tells → SameElsewhere members (M.disk media.old).reads (M.disk media.new).reads }
    ensures sizes { (M.disk media.new).sizes ≡ (M.disk media.old).sizes }
    ensures watched { IsWatched W.hears (W.seen watch.new) recorder.new (M.disk media.new) }
    ensures cause { HasOrderCause recorder.old.vault.failed recorder.new.vault.failed (M.faults media.old) (M.faults media.new) }
{
    law_of_evidence();
    law_of_printing();
    let query = save_query(id);
    if !is_there(recorder, &query) {
        recorder.look_watched(media, watch);
        return Reply::of_line(NOT_THERE);
    }
    match printer_of(alloc, recorder, media, id) {
        Ok(mut printer) => tell(alloc, recorder, media, watch, &query, &mut printer),
        Err(refused) => {
            recorder.look_watched(media, watch);
            of_part(refused)
        }
    }
}
