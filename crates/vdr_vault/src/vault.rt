// Both media as they were opened, without the media themselves.
ghost use Rattle.std.specs.Prelude.{◌≡◌, ◌<◌, ℕ, List, option_map};
ghost use Rattle.vdr_terms.specs.Records.{last};
ghost use Rattle.vdr_durability.specs.Readings.{next_after};
ghost use Rattle.vdr_directory.specs.Sequence.{Placed, all_records};
ghost use Rattle.vdr_directory.specs.Holds.{HoldsPlaced, Tells};
ghost use Rattle.vdr_directory.specs.Opening.{AreKnown};
ghost use Rattle.vdr_directory.specs.Telling.{TellsBy};
ghost use Rattle.vdr_vault.specs.Vaults.{ring_of, tick_utc};

use std::marker::Model;
use vdr_config::Config;
use vdr_incident::Table;
use vdr_ring::Ring;

/// The capsule and the long-term medium as they were opened, without the media themselves: the configuration, a ring on each, and the
/// table of incident saves. After a fault of a write all its calls answer `Fault` and touch nothing, until the media are opened again.
#[derive(Drop)]
pub struct Vault {
    pub(crate) config: Config,
    // One for each medium: its index is the number of the medium. The first one leads.
    pub(crate) rings: Vec<Ring>,
    pub(crate) table: Table,
    // The place after the last record that all media have.
    pub(crate) next_place: u64,
    // Its tick and its stamp.
    pub(crate) last: Option<(u64, i64)>,
    pub(crate) failed: bool,
}

impl Model for Vault {
    ghost use Rattle.std.specs.Prelude.{◌≡◌, length};
    ghost use Rattle.vdr_media.specs.Formatted.{members};
    ghost use Rattle.vdr_vault.specs.Vaults.{VaultState};

    ghost Value = { VaultState };

    ghost view = { λ s. record { config = s.config; rings = s.rings.items; table = s.table; next_place = s.next_place; last = s.last; failed = s.failed } };

    ghost invariant = { λ s. (length s.rings.items ≡ length members) × (length s.table ≡ s.config.incident_slots) };
}

impl Vault {
    /// The ring on medium m.
    pub(crate) fn ring(&self, m: u8) -> &Ring
        requires { m < 2 }
        ensures { result.now ≡ ring_of self.now m }
    {
        &self.rings[m as usize]
    }
}

/// Where a ring ends: the place after its last record, and tick and stamp of that record.
pub(crate) fn ending(ring: &Ring) -> (u64, Option<(u64, i64)>)
    ensures next_place { (placed : List Placed) (bytes : List ℕ) → Tells ring.now.slots placed ring.now.directory
        → HoldsPlaced ring.now.segment ring.now.slots placed bytes → result.0 ≡ next_after (last (all_records placed)) }
    ensures last { (placed : List Placed) → Tells ring.now.slots placed ring.now.directory → result.1 ≡ option_map tick_utc (last (all_records placed)) }
    ensures next_known { (known : List Placed) (bytes : List ℕ) → TellsBy ring.now.slots known ring.now.directory
        → AreKnown ring.now.segment ring.now.slots bytes known → result.0 ≡ next_after (last (all_records known)) }
    ensures known { (known : List Placed) → TellsBy ring.now.slots known ring.now.directory → result.1 ≡ option_map tick_utc (last (all_records known)) }
{
    match ring.last() {
        Some((place, tick, utc)) => (place.saturating_add(1), Some((tick, utc))),
        None => (0, None),
    }
}
