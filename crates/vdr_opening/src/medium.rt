// The media, but for the incident slots: the superblock of each, its configuration and its segments.
ghost use Rattle.std.specs.Prelude.{◌≡◌, ◌-◌, ◌<◌, ◌≤◌, ℕ, List, length, Ok, Err, None, IfOk, IfSome, All};
ghost use Rattle.vdr_outside.specs.Disk.{Durable, Unchanged, content};
ghost use Rattle.vdr_outside.specs.declared.fault.PartRefused.TheVariants.{Damaged};
ghost use Rattle.vdr_config.specs.Grammar.{configuration};
ghost use Rattle.vdr_directory.specs.Costs.{ReadsAtMost};
ghost use Rattle.vdr_directory.specs.Opening.{HasFaultCause};
ghost use Rattle.vdr_directory.specs.Sequence.{Placed};
ghost use Rattle.vdr_ring.specs.Rings.{HoldsNewest};
ghost use Rattle.vdr_ring.specs.Visits.{HasJudged};
ghost use Rattle.vdr_opening.specs.Media.{members_in, members_with, further_in};
ghost use Rattle.vdr_opening.specs.Costs.{ReadsParts, opening_bytes};
ghost use Rattle.vdr_opening.specs.Refusals.{RefusesFrom, RefusesMedium};
ghost use Rattle.vdr_opening.specs.Answers.{AreJudgedOn, AreRingsOf, ring_at};
ghost use Rattle.vdr_ring.specs.Openings.{IsRingOf};
ghost use Rattle.vdr_opening.specs.Parts.{HasPartCause, KnowsMedium, ReadsLegal, text_of};

use crate::superblock::read_superblock;
use crate::text::{Configured, read_configuration};
use std::alloc::Global;
use vdr_outside::{Media, PartRefused};
use vdr_ring::Ring;

/// What one of them holds.
#[derive(Drop)]
pub(crate) struct Medium {
    pub(crate) configured: Configured,
    pub(crate) ring: Ring,
}

/// What they all hold: one configuration, and the segments of each.
#[derive(Drop)]
pub(crate) struct AllMedia {
    pub(crate) configured: Configured,
    // One for each medium, in order of number.
    pub(crate) rings: Vec<Ring>,
}

// Reads medium m, which has the configuration of the medium before, where there is one. `Damaged` names its first
// part that is not legal.
fn open_medium<M: Media>(
    alloc: Global,
    media: &mut M,
    m: u8,
    before: Option<Configured>,
) -> Result<Medium, PartRefused>
    requires two { 2 ≤ length (M.disk media.old).sizes }
    requires few { m < 2 }
    requires before { IfSome before (λ first. configuration first.text.items ≡ Ok first.config) }
    ensures reads { IfOk result (λ medium. M.tells → Durable m (M.disk media.old)
        → ReadsLegal m medium.configured.config medium.configured.text.items medium.ring (M.disk media.new)) }
    ensures parts { IfOk result (λ medium. M.tells
        → (known : List Placed) × KnowsMedium m medium.configured.config medium.configured.text.items known medium.ring (M.disk media.new)
        × ReadsAtMost m (opening_bytes 16408 medium.ring.segment medium.ring.slots known) (M.bytes_read media.old) (M.bytes_read media.new)) }
    ensures held { IfOk result (λ medium. M.tells → HoldsNewest medium.ring) }
    ensures judged { IfOk result (λ medium. HasJudged medium.ring (M.disk media.new)) }
    ensures configured { IfOk result (λ medium. configuration medium.configured.text.items ≡ Ok medium.configured.config) }
    ensures same { IfOk result (λ medium. IfSome before (λ first. medium.configured ≡ first)) }
    ensures ring { IfOk result (λ medium. IsRingOf medium.configured.config (M.disk media.old).sizes m medium.ring) }
    ensures damaged { (k offset : ℕ) → result ≡ Err (Damaged k offset) → (k ≡ m)
        × (M.tells → RefusesMedium m (text_of before) (content (M.disk media.old).reads m) offset) }
    ensures unchanged { Unchanged (M.disk media.old) (M.disk media.new) }
    ensures cause { HasFaultCause m (M.faults media.old) (M.faults media.new) result }
{
    let segment = read_superblock(media, m)?;
    let configured = read_configuration(alloc, media, m, segment, before)?;
    let ring = Ring::open(alloc, media, m, &configured.config)?;
    Ok(Medium { configured, ring })
}

/// Reads the media in order of number, of a segment whose header has a summary that alone. The configuration is that of
/// them all. `Damaged` names the first part that is read and not legal.
pub(crate) fn open_media<M: Media>(
    alloc: Global,
    media: &mut M,
    count: u8,
) -> Result<AllMedia, PartRefused>
    requires two { 2 ≤ count }
    requires few { count ≤ 2 }
    requires there { count ≤ length (M.disk media.old).sizes }
    requires version { M.tells → count - 2 ≡ further_in (M.disk media.old).reads }
    ensures reads { IfOk result (λ all. M.tells → All (λ m. Durable m (M.disk media.old)) (members_in (M.disk media.old).reads)
        → All (λ m. ReadsLegal m all.configured.config all.configured.text.items (ring_at all.rings.items m) (M.disk media.new)) (members_with (count - 2))) }
    ensures parts { IfOk result (λ all. M.tells → (known : ℕ → List Placed)
        × All (λ m. KnowsMedium m all.configured.config all.configured.text.items (known m) (ring_at all.rings.items m) (M.disk media.new)) (members_with (count - 2))
        × ReadsParts (count - 2) 16408 all.configured.config.segment known (M.disk media.old).sizes (M.bytes_read media.old) (M.bytes_read media.new)) }
    ensures held { IfOk result (λ all. M.tells → All (λ m. HoldsNewest (ring_at all.rings.items m)) (members_with (count - 2))) }
    ensures judged { IfOk result (λ all. AreJudgedOn all.rings.items (M.disk media.new)) }
    ensures count { IfOk result (λ all. length all.rings.items ≡ count) }
    ensures rings { IfOk result (λ all. AreRingsOf all.configured.config (M.disk media.old).sizes all.rings.items) }
    ensures damaged { (m offset : ℕ) → result ≡ Err (Damaged m offset) → M.tells → All (λ k. Durable k (M.disk media.old)) (members_in (M.disk media.old).reads)
        → RefusesFrom None (members_in (M.disk media.old).reads) (M.disk media.old).reads m offset }
    ensures unchanged { Unchanged (M.disk media.old) (M.disk media.new) }
    ensures cause { HasPartCause (members_with (count - 2)) (M.faults media.old) (M.faults media.new) result }
{
    let mut rings = Vec::new(alloc);
    let mut before = None;
    for m in 0..count {
        let Medium { configured, ring } = open_medium(alloc, media, m, before)?;
        let Ok(_) = rings.push(ring) else {
            return Err(PartRefused::NoMemory);
        };
        before = Some(configured);
    }
    let Some(configured) = before else {
        unreachable!()
    };
    Ok(AllMedia { configured, rings })
}
