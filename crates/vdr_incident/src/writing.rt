// Writing an incident slot, and closing its gate.
//
// A save writes 97 bytes behind its gate, zeros behind a short label, so that each makes the same calls. A release
// writes the gate alone.
ghost use Rattle.std.specs.Prelude.{◌≡◌, ◌<◌, ℕ, List, set, slice_get, Option, None, Some, OnOk};
ghost use Rattle.vdr_core.specs.Histories.{Incident};
ghost use Rattle.vdr_outside.specs.Disk.{content};
ghost use Rattle.vdr_outside.specs.Frames.{WritesTo};
ghost use Rattle.vdr_outside.specs.Moments.{ChangesOnly, Settled};
ghost use Rattle.vdr_incident.specs.Tables.{HasIncidents, HoldsTable, HoldsBeside, HoldsEither, place_of};

use crate::Save;
use vdr_outside::{Fault, Media, write_through};
use vdr_segment::{CLOSED_GATE, OPEN_GATE};
use vdr_terms::{INCIDENT_SIZE, INCIDENTS_FROM};

/// The number of the long-term medium, which has the incident slots.
pub const LONG_TERM: u8 = 1;

/// Where an incident slot begins on its medium, in bytes.
pub(crate) fn place_of(slot: u8) -> u64
    ensures { result ≡ place_of slot }
{
    INCIDENTS_FROM + slot as u64 * INCIDENT_SIZE
}

/// Writes a save into a closed slot: what stands behind the gate, and syncs; then the open gate, and syncs.
pub(crate) fn write_save<M: Media>(media: &mut M, slot: u8, save: &Save) -> Result<(), Fault>
    requires incidents { HasIncidents (M.disk media.old).sizes }
    requires within { slot < 32 }
    ensures moments { (slots : ℕ) (table : List (Option Incident)) → Settled 1 (HoldsTable slots table) (M.disk media.old) → slice_get table slot ≡ Some None
        → ChangesOnly 1 (HoldsEither slot slots table (set table slot (Some save.now)) (content (M.disk media.old).reads 1)) (M.disk media.old) (M.disk media.new) }
    ensures settled { (slots : ℕ) (table : List (Option Incident)) → Settled 1 (HoldsTable slots table) (M.disk media.old) → slice_get table slot ≡ Some None
        → OnOk result (Settled 1 (HoldsBeside slot slots (set table slot (Some save.now)) (content (M.disk media.old).reads 1)) (M.disk media.new)) }
    ensures writes { WritesTo M.Media 1 media.old media.new result }
{
    let place = place_of(slot);
    write_through(media, LONG_TERM, place + 1, &save.body())?;
    write_through(media, LONG_TERM, place, &[OPEN_GATE])
}

/// Closes the gate of an open slot, and syncs.
pub(crate) fn close_slot<M: Media>(media: &mut M, slot: u8) -> Result<(), Fault>
    requires incidents { HasIncidents (M.disk media.old).sizes }
    requires within { slot < 32 }
    ensures moments { (slots : ℕ) (table : List (Option Incident)) (x : Incident) → Settled 1 (HoldsTable slots table) (M.disk media.old) → slice_get table slot ≡ Some (Some x)
        → ChangesOnly 1 (HoldsEither slot slots table (set table slot None) (content (M.disk media.old).reads 1)) (M.disk media.old) (M.disk media.new) }
    ensures settled { (slots : ℕ) (table : List (Option Incident)) (x : Incident) → Settled 1 (HoldsTable slots table) (M.disk media.old) → slice_get table slot ≡ Some (Some x)
        → OnOk result (Settled 1 (HoldsBeside slot slots (set table slot None) (content (M.disk media.old).reads 1)) (M.disk media.new)) }
    ensures writes { WritesTo M.Media 1 media.old media.new result }
{
    write_through(media, LONG_TERM, place_of(slot), &[CLOSED_GATE])
}
