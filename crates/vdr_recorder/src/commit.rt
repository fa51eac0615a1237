// A commit of what a run has made.
ghost use Rattle.std.specs.Prelude.{◌≡◌, ◌≤◌, ◌<◌, ℕ, List, length, true, false, OnErr, OnOk};
ghost use Rattle.vdr_terms.specs.Sizes.{records_size};
ghost use Rattle.vdr_core.specs.Histories.{Event, Opening};
ghost use Rattle.vdr_core.specs.Histories.Act.{Commit};
ghost use Rattle.vdr_core.specs.RunStates.{state_left};
ghost use Rattle.vdr_core.specs.Taken.{Captured};
ghost use Rattle.vdr_durability.specs.Commits.{IsDoneIn, closing_size};
ghost use Rattle.vdr_media.specs.Formatted.{members_with};
ghost use Rattle.vdr_vault.specs.Calls.{HasVaultCause, SameElsewhere};
ghost use Rattle.vdr_vault.specs.Vaults.{AreRings};
ghost use Rattle.vdr_recorder.specs.Recordings.{HasKept, KeepsEvent};

use vdr_entry::Record;
use vdr_outside::{Fault, Media};
use vdr_vault::Vault;

/// Commits these records as one batch; where there are none, nothing is called.
pub(crate) fn commit<M: Media>(
    vault: &mut Vault,
    media: &mut M,
    records: &[Record],
) -> Result<(), Fault>
    requires rings { AreRings vault.old (M.disk media.old).sizes }
    requires short { records_size records.now ≤ vault.old.config.batch }
    requires works { vault.old.failed ≡ false }
    ensures event { (opening : Opening) (events : List Event) (t0 : ℕ) (taken : List Captured) → M.tells → HasKept opening events t0 vault.old (M.disk media.old)
        → closing_size ≤ vault.old.config.batch → IsDoneIn opening.settings.limits vault.old.config.batch (state_left opening events) (Commit records.now taken)
        → KeepsEvent opening events t0 (Commit records.now taken) vault.new (M.disk media.old) (M.disk media.new) }
    ensures nothing { length records.now ≡ 0 → (vault.new ≡ vault.old) × (media.new ≡ media.old) }
    ensures fails { OnErr result (vault.new.failed ≡ true) }
    ensures works { OnOk result (vault.new.failed ≡ false) }
    ensures kept { OnErr result ((vault.new.next_place ≡ vault.old.next_place) × (vault.new.last ≡ vault.old.last)) }
    ensures config { vault.new.config ≡ vault.old.config }
    ensures table { vault.new.table ≡ vault.old.table }
    ensures rings { AreRings vault.new (M.disk media.new).sizes }
    ensures others { M.tells → SameElsewhere (members_with 0) (M.disk media.old).reads (M.disk media.new).reads }
    ensures sizes { (M.disk media.new).sizes ≡ (M.disk media.old).sizes }
    ensures counts { M.bytes_read media.new ≡ M.bytes_read media.old }
    ensures cause { HasVaultCause (members_with 0) vault.old.failed (M.faults media.old) (M.faults media.new) result }
{
    if records.is_empty() {
        return Ok(());
    }
    vault.commit(media, records)
}
