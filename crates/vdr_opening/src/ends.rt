// Whether the ends of the media meet, and which batch some of them lack.
//
// Ends are compared record by record, and not by place: a medium that ends at the same place with another batch is
// damaged.
ghost use Rattle.std.specs.Prelude.{◌≡◌, ◌≢◌, ◌+◌, ◌<◌, ◌≤◌, ℕ, List, [], length, All, Err, IfOk};
ghost use Rattle.vdr_terms.specs.Records.{last};
ghost use Rattle.vdr_terms.specs.Sizes.{batch_size};
ghost use Rattle.vdr_durability.specs.Readings.{EndsMeet, EndsOff, comes_next};
ghost use Rattle.vdr_config.specs.Configuration.{Configuration};
ghost use Rattle.vdr_outside.specs.declared.fault.PartRefused.TheVariants.{Damaged};
ghost use Rattle.vdr_directory.specs.Telling.{TellsBy};
ghost use Rattle.vdr_ring.specs.Rings.{HoldsNewest, Knows};
ghost use Rattle.vdr_ring.specs.Lasts.{batch_or_none};
ghost use Rattle.vdr_directory.specs.Sequence.{Placed, all_records, batches_in};
ghost use Rattle.vdr_opening.specs.Media.{Contents, reading_of};
ghost use Rattle.vdr_opening.specs.Answers.{AreRingsOf, IsMissing, members_on, ring_at};
ghost use Rattle.vdr_opening.specs.Parts.{AreKnownTo, HasPartCause, KeepsRings};

use crate::same::same_records;
use std::alloc::Global;
use vdr_entry::Record;
use vdr_outside::{Media, PartRefused};
use vdr_ring::Ring;

// Whether a batch may come next on the ring's medium: it begins at the place after the last record, at place 0 where there
// is none, and no earlier than that record.
fn follows(batch: &[Record], ring: &Ring) -> bool
    ensures { (known : List Placed) → TellsBy ring.now.slots known ring.now.directory → result ≡ comes_next (last (all_records known)) batch.now }
{
    let Some(first) = batch.first() else {
        return false;
    };
    match ring.last() {
        None => first.place == 0,
        Some((place, tick, _)) => first.place.checked_sub(1) == Some(place) && tick <= first.tick,
    }
}

// Reads the last batch of medium m.
fn read_end<M: Media>(
    alloc: Global,
    media: &mut M,
    rings: &mut [Ring],
    m: u8,
) -> Result<Vec<Record>, PartRefused>
    requires there { m < length rings.old }
    requires rings { (c : Configuration) × AreRingsOf c (M.disk media.old).sizes rings.old }
    ensures batch { IfOk result (λ batch. M.tells → (known : List Placed) → Knows (ring_at rings.old m) known (M.disk media.old) → batch_or_none batch.items ≡ last (batches_in known)) }
    ensures fits { IfOk result (λ batch. batch.items ≢ [] → 64 + batch_size batch.items + 1 ≤ (ring_at rings.old m).segment) }
    ensures undamaged { (k offset : ℕ) → result ≡ Err (Damaged k offset) → M.tells → (known : List Placed) → Knows (ring_at rings.old m) known (M.disk media.old) → ⊥ }
    ensures kept { KeepsRings rings.old rings.new (M.disk media.old) (M.disk media.new) }
    ensures others { (k : ℕ) → k ≢ m → ring_at rings.new k ≡ ring_at rings.old k }
    ensures counts { HoldsNewest (ring_at rings.old m) → M.bytes_read media.new ≡ M.bytes_read media.old }
    ensures cause { HasPartCause (members_on rings.old) (M.faults media.old) (M.faults media.new) result }
{
    let ring = &mut rings[m as usize];
    ring.read_last_batch(alloc, media)
}

/// The batch that some media lack.
#[derive(Drop)]
pub(crate) struct Missing {
    // Its records, none where no medium lacks it.
    pub(crate) batch: Vec<Record>,
    // The media from this number on lack it.
    pub(crate) lacking: u8,
}

/// Reads the last batch of each medium, and gives the one that some lack, behind those that have it. `Damaged` names
/// the first medium at which the ends no longer meet. It ends neither with the first one's batch, as all before it, nor
/// directly before that batch, so that it could come next there.
pub(crate) fn missing_batch<M: Media>(
    alloc: Global,
    media: &mut M,
    rings: &mut [Ring],
) -> Result<Missing, PartRefused>
    requires rings { (c : Configuration) × AreRingsOf c (M.disk media.old).sizes rings.old }
    requires few { length rings.old ≤ 255 }
    ensures missing { IfOk result (λ missing. M.tells → (x : Contents) → AreKnownTo rings.old x.placed (M.disk media.old)
        → EndsMeet (members_on rings.old) (reading_of x) × IsMissing (members_on rings.old) missing.batch.items missing.lacking (reading_of x)) }
    ensures fits { IfOk result (λ missing. missing.batch.items ≢ [] → 64 + batch_size missing.batch.items + 1 ≤ (ring_at rings.old 0).segment) }
    ensures behind { IfOk result (λ missing. missing.batch.items ≢ [] → (0 < missing.lacking) × (missing.lacking < length rings.old)) }
    ensures damaged { (m offset : ℕ) → result ≡ Err (Damaged m offset) → M.tells → (x : Contents) → AreKnownTo rings.old x.placed (M.disk media.old)
        → (offset ≡ 0) × EndsOff (members_on rings.old) (reading_of x) m }
    ensures kept { KeepsRings rings.old rings.new (M.disk media.old) (M.disk media.new) }
    ensures counts { All (λ m. HoldsNewest (ring_at rings.old m)) (members_on rings.old) → M.bytes_read media.new ≡ M.bytes_read media.old }
    ensures cause { HasPartCause (members_on rings.old) (M.faults media.old) (M.faults media.new) result }
{
    let count = rings.len() as u8;
    let batch = read_end(alloc, media, rings, 0)?;
    let mut lacking = 1;
    for m in 1..count {
        let other = read_end(alloc, media, rings, m)?;
        if lacking == m && same_records(&batch, &other) {
            lacking += 1;
        } else if !follows(&batch, &rings[m as usize]) {
            return Err(PartRefused::Damaged {
                medium: m,
                offset: 0,
            });
        }
    }
    if lacking == count {
        return Ok(Missing {
            batch: Vec::new(alloc),
            lacking,
        });
    }
    Ok(Missing { batch, lacking })
}
