// What stands in the evidence of a save before its records.
ghost use Rattle.std.specs.Prelude.{◌≡◌, IfOk};
ghost use Rattle.vdr_core.specs.Histories.{live};
ghost use Rattle.vdr_teller.specs.Evidence.{label_of, save_heading};

use std::alloc::{AllocError, Global};
use vdr_entry::Medium;
use vdr_evidence::heading_of;
use vdr_recorder::Recorder;
use vdr_terms::LAST_STAMP;

// The label of the save that is live under an id; nothing where none is.
fn label_of(recorder: &Recorder, id: u32) -> &[u8]
    ensures { result.now ≡ label_of (live recorder.now.vault.table id) }
{
    match recorder.live(id) {
        Some(saved) => saved.label.as_slice(),
        None => b"",
    }
}

/// What stands in the evidence of the save of this id before its records, where this is the configuration's text: what the command
/// `evidence` writes there for all records of the incident.
#[tactic(auto, unfolding(crate::specs::Evidence::save_heading))]
pub fn save_heading(
    alloc: Global,
    recorder: &Recorder,
    id: u32,
    text: &[u8],
) -> Result<Vec<u8>, AllocError>
    ensures { IfOk result (λ heading. heading.items ≡ save_heading text.now recorder.now.vault.table id) }
{
    let label = label_of(recorder, id);
    heading_of(
        alloc,
        text,
        Medium::Incident(id),
        label,
        b"all",
        0,
        LAST_STAMP,
    )
}
