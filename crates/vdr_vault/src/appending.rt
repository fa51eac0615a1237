// A batch goes to the media of a vault, one after another.
//
// A free function over the rings, since in a loop of a method a struct is opened and its model is not at hand.
ghost use Rattle.std.specs.Prelude.{◌≡◌, ◌+◌, ◌<◌, ◌≤◌, ℕ, Bool, List, [], length};
ghost use Rattle.vdr_terms.specs.Needs.{Sizes};
ghost use Rattle.vdr_terms.specs.Records.{Record as ARecord};
ghost use Rattle.vdr_terms.specs.Sizes.{batch_size};
ghost use Rattle.vdr_config.specs.Configuration.{Configuration};
ghost use Rattle.vdr_directory.specs.Sequence.{Placed};
ghost use Rattle.vdr_opening.specs.Answers.{AreJudgedOn, AreRingsOf, ring_at};
ghost use Rattle.vdr_ring.specs.Taking.{Waits};
ghost use Rattle.vdr_vault.specs.Passes.{HasCauseFrom, KeepsBeside, Passed, pins_at};

use vdr_entry::Record;
use vdr_incident::LONG_TERM;
use vdr_outside::{Fault, Media};
use vdr_ring::{Pins, Ring};

// The pins that medium m keeps: those of the long-term medium, and of each other none.
fn pins_at<'a>(m: usize, pins: &'a Pins, none: &'a Pins) -> &'a Pins
    requires { none.now ≡ [] }
    ensures { result.now ≡ pins_at m pins.now }
{
    if m == LONG_TERM as usize { pins } else { none }
}

/// Appends the batch to the media from a number on, in their order. Only the long-term medium keeps the pins.
pub(crate) fn append_from<M: Media>(
    rings: &mut [Ring],
    from: usize,
    media: &mut M,
    records: &[Record],
    pins: &Pins,
) -> Result<(), Fault>
    requires few { from ≤ length rings.old }
    requires rings { (c : Configuration) × AreRingsOf c (M.disk media.old).sizes rings.old × (64 + batch_size records.now + 1 ≤ c.segment) }
    requires some { 0 < length records.now }
    ensures passed { (ordered : Bool) (sizes : Sizes) (placed : ℕ → List Placed) (first : ℕ) (all : ℕ → List ARecord) → M.tells
        → ((k : ℕ) → from ≤ k → k < length rings.old → Waits ordered sizes (ring_at rings.old k) (pins_at k pins.now) (placed k) first (all k) records.now (M.disk media.old))
        → Passed ordered from rings.old rings.new pins.now placed first records.now (M.disk media.old) (M.disk media.new) result }
    ensures keeps { KeepsBeside M.Media from rings.old rings.new media.old media.new }
    ensures judged { AreJudgedOn rings.old (M.disk media.old) → AreJudgedOn rings.new (M.disk media.new) }
    ensures counts { M.bytes_read media.new ≡ M.bytes_read media.old }
    ensures cause { HasCauseFrom from (length rings.old) (M.faults media.old) (M.faults media.new) result }
{
    let none = Pins::new();
    for m in from..rings.len() {
        rings[m].append(media, records, pins_at(m, pins, &none))?;
    }
    Ok(())
}
