// The incident slots, and whether the places of each live incident are there.
ghost use Rattle.std.specs.Prelude.{◌≡◌, ◌⊎◌, ◌↔◌, ℕ, suc, List, length, Err, IfOk, IfSome, IfNone, IsTrue};
ghost use Rattle.vdr_core.specs.Histories.{live};
ghost use Rattle.vdr_outside.specs.Disk.{Unchanged, content};
ghost use Rattle.vdr_outside.specs.declared.fault.PartRefused.TheVariants.{Damaged};
ghost use Rattle.vdr_directory.specs.Costs.{ReadsAtMost};
ghost use Rattle.vdr_directory.specs.Opening.{HasFaultCause};
ghost use Rattle.vdr_directory.specs.Knowns.{AreInOrderBy};
ghost use Rattle.vdr_directory.specs.Telling.{TellsBy};
ghost use Rattle.vdr_directory.specs.Sequence.{Placed};
ghost use Rattle.vdr_incident.specs.Tables.{HasIncidents, HoldsTable, Refuses, place_of};
ghost use Rattle.vdr_opening.specs.Media.{AreThereBy};
ghost use Rattle.vdr_opening.specs.Parts.{IsThere, LacksPlaces, LacksPlacesAt};

use vdr_config::Config;
use vdr_incident::Table;
use vdr_outside::{Media, PartRefused};
use vdr_ring::Ring;
use vdr_terms::{INCIDENT_SIZE, INCIDENTS_FROM};

// Whether an incident slot is free, or all places of its incident stand in segments of the ring.
fn is_there(table: &Table, slot: u8, long_term: &Ring) -> bool
    ensures { (known : List Placed) → TellsBy long_term.now.slots known long_term.now.directory → AreInOrderBy known
        → IsTrue result ↔ IsThere known (live table.now (suc slot)) }
{
    match table.live(slot as u32 + 1) {
        Some(save) => long_term.holds(save.a, save.b),
        None => true,
    }
}

// The first of so many incident slots whose places are not all there.
fn first_without_places(table: &Table, slots: u8, long_term: &Ring) -> Option<u8>
    requires { length table.now ≡ slots }
    ensures none { IfNone result ((known : List Placed) → TellsBy long_term.now.slots known long_term.now.directory → AreInOrderBy known → AreThereBy table.now known) }
    ensures some { IfSome result (λ slot. (known : List Placed) → TellsBy long_term.now.slots known long_term.now.directory → AreInOrderBy known
        → LacksPlaces table.now known slot) }
{
    for slot in 0..slots {
        if !is_there(table, slot, long_term) {
            return Some(slot);
        }
    }
    None
}

/// Reads the incident slots of the long-term medium. `Damaged` names the first slot that is not legal, or else the first
/// whose places do not all stand in segments of that medium, by what is known of those.
pub(crate) fn read_incidents<M: Media>(
    media: &mut M,
    config: &Config,
    long_term: &Ring,
) -> Result<Table, PartRefused>
    requires { HasIncidents (M.disk media.old).sizes }
    ensures table { IfOk result (λ table. M.tells → HoldsTable config.now.incident_slots table (content (M.disk media.old).reads 1)) }
    ensures size { IfOk result (λ table. length table ≡ config.now.incident_slots) }
    ensures there { IfOk result (λ table. (known : List Placed) → TellsBy long_term.now.slots known long_term.now.directory → AreInOrderBy known → AreThereBy table known) }
    ensures damaged { (k offset : ℕ) → result ≡ Err (Damaged k offset) → (k ≡ 1)
        × (M.tells → Refuses config.now.incident_slots (content (M.disk media.old).reads 1) offset
        ⊎ ((known : List Placed) → TellsBy long_term.now.slots known long_term.now.directory → AreInOrderBy known
        → LacksPlacesAt config.now.incident_slots known (content (M.disk media.old).reads 1) offset)) }
    ensures unchanged { Unchanged (M.disk media.old) (M.disk media.new) }
    ensures counts { ReadsAtMost 1 8192 (M.bytes_read media.old) (M.bytes_read media.new) }
    ensures cause { HasFaultCause 1 (M.faults media.old) (M.faults media.new) result }
{
    let table = Table::read(media, config.incident_slots)?;
    let Some(slot) = first_without_places(&table, config.incident_slots, long_term) else {
        return Ok(table);
    };
    Err(PartRefused::Damaged {
        medium: 1,
        offset: INCIDENTS_FROM + slot as u64 * INCIDENT_SIZE,
    })
}
