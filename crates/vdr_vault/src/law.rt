// The laws of a vault: what a stop leaves of it at rest, which media are sound, and which segments meet a query.
ghost use Rattle.std.specs.Prelude.{◌≡◌, ◌∷◌, ◌++◌, ℕ, List, []};
ghost use Rattle.vdr_core.specs.Histories.{Event, Opening, all_records, incidents, records_of_act, table_after};
ghost use Rattle.vdr_durability.specs.Readings.{EndsMeet};
ghost use Rattle.vdr_outside.specs.Disk.{Image, Unchanged};
ghost use Rattle.vdr_config.specs.Configuration.{Configuration};
ghost use Rattle.vdr_durability.specs.Playback.{medium_of};
ghost use Rattle.vdr_terms.specs.Queries.{Query};
ghost use Rattle.vdr_directory.specs.Knowns.{AreInOrderBy};
ghost use Rattle.vdr_directory.specs.Sequence.{Placed};
ghost use Rattle.vdr_directory.specs.Telling.{TellsBy};
ghost use Rattle.vdr_opening.specs.Media.{Contents, HoldsContents, members_with, nothing_on, reading_of};
ghost use Rattle.vdr_vault.specs.Plays.{KnowsToMeet, ring_for};
ghost use Rattle.vdr_vault.specs.Regularity.{AreSound};
ghost use Rattle.vdr_vault.specs.Vaults.{VaultState, ShowsHistory, Stands};

use vdr_outside::Media;

/// What a stop may leave of a vault at rest shows all its events. It stands on over calls that only read, and with an event that
/// records nothing and changes no incident.
pub fn law_of_vaults<M: Media>(old: &M, new: &M)
    ensures shows { (opening : Opening) (events : List Event) (vault : VaultState) (placed : ℕ → List Placed) → Stands opening events vault placed (M.disk new.now)
        → (image : Image) → (M.disk new.now).now image → ShowsHistory opening events image }
    ensures still { (opening : Opening) (events : List Event) (vault : VaultState) (placed : ℕ → List Placed) → Unchanged (M.disk old.now) (M.disk new.now)
        → Stands opening events vault placed (M.disk old.now) → Stands opening events vault placed (M.disk new.now) }
    ensures silent { (opening : Opening) (events : List Event) (e : Event) (vault : VaultState) (placed : ℕ → List Placed) → records_of_act e.act ≡ []
        → table_after (all_records opening 1 events) (incidents opening events) e.act ≡ incidents opening events
        → Stands opening events vault placed (M.disk new.now) → Stands opening (events ++ e ∷ []) vault placed (M.disk new.now) }
{}

/// Media that were just formatted are sound. Soundness is a fact of an image: of what it holds, all is sound or nothing is.
pub fn law_of_sound_media()
    ensures empty { (c : Configuration) (text : List ℕ) → AreSound (nothing_on 0 c text) }
    ensures same { (image : Image) (x y : Contents) → HoldsContents image x → HoldsContents image y → EndsMeet (members_with x.further) (reading_of x) × AreSound x → EndsMeet (members_with y.further) (reading_of y) × AreSound y }
{}

/// A ring that tells of the segments of a query's medium, as opening knows them, knows just those of them to meet the query that do.
pub fn law_of_meeting()
    ensures { (query : Query) (vault : VaultState) (known : ℕ → List Placed) → TellsBy (ring_for vault query).slots (known (medium_of query.medium)) (ring_for vault query).directory
        → AreInOrderBy (known (medium_of query.medium)) → KnowsToMeet query vault known }
{}
