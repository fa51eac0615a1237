// The media of a vault are brought up, one after another.
//
// Missing summaries are written by the first commit behind an opening, before it appends, so that commands that only
// read write nothing. A medium to which opening appended is brought up behind a later one.
ghost use Rattle.std.specs.Prelude.{◌<◌, ℕ, List, length};
ghost use Rattle.vdr_config.specs.Configuration.{Configuration};
ghost use Rattle.vdr_directory.specs.Sequence.{Placed};
ghost use Rattle.vdr_ring.specs.Rings.{Reads};
ghost use Rattle.vdr_opening.specs.Answers.{AreJudgedOn, AreRingsOf, ring_at};
ghost use Rattle.vdr_vault.specs.Passes.{HasCauseFrom, KeepsBeside};
ghost use Rattle.vdr_vault.specs.Bringing.{BringsAllUp};

use vdr_outside::{Fault, Media};
use vdr_ring::Ring;

/// Writes the summary of each segment that opening found to lack one, on one medium after the other. Where none lacks it, nothing is
/// called.
pub(crate) fn bring_up_all<M: Media>(rings: &mut [Ring], media: &mut M) -> Result<(), Fault>
    requires rings { (c : Configuration) × AreRingsOf c (M.disk media.old).sizes rings.old }
    ensures brought { (placed : ℕ → List Placed) → M.tells → ((k : ℕ) → k < length rings.old → Reads (ring_at rings.old k) (placed k) (M.disk media.old))
        → BringsAllUp rings.old rings.new placed (M.disk media.old) (M.disk media.new) result }
    ensures keeps { KeepsBeside M.Media 0 rings.old rings.new media.old media.new }
    ensures judged { AreJudgedOn rings.old (M.disk media.old) → AreJudgedOn rings.new (M.disk media.new) }
    ensures cause { HasCauseFrom 0 (length rings.old) (M.faults media.old) (M.faults media.new) result }
{
    for m in 0..rings.len() {
        rings[m].bring_up(media)?;
    }
    Ok(())
}
