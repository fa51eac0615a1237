// The laws of a life: what media hold that were formatted once, over any number of runs and stops.
ghost use Rattle.std.specs.Prelude.{◌≡◌, ◌++◌, ℕ, List, Contains, Some};
ghost use Rattle.vdr_terms.specs.Windows.{window};
ghost use Rattle.vdr_core.specs.Histories.{Event, Incident, incidents, recorded};
ghost use Rattle.vdr_durability.specs.Retention.{at_places};
ghost use Rattle.vdr_durability.specs.Keeping.{ShowsPrefix};
ghost use Rattle.vdr_durability.specs.Readings.{EndsMeet};
ghost use Rattle.vdr_outside.specs.Disk.{Image};
ghost use Rattle.vdr_config.specs.Configuration.{Configuration};
ghost use Rattle.vdr_config.specs.Sizes.{window_of};
ghost use Rattle.vdr_media.specs.Formatted.{IsUnformatted};
ghost use Rattle.vdr_opening.specs.Media.{Contents, HoldsContents, members_with, opening_of, reading_of};
ghost use Rattle.vdr_vault.specs.Regularity.{AreSound};
ghost use Rattle.vdr_vault.specs.Vaults.{ShowsHistory};
ghost use Rattle.vdr_vault.specs.Lives.{IsRun, Life, first_opening};
ghost use Rattle.vdr_vault.specs.Ours.{AreOurs, IsOurs, RestAs, StayOurs};

use vdr_outside::Media;

/// Media of this product stay so: over a call that leaves them so, and over a stop at any moment of it and a start on what it left.
/// What such media hold is sound, and its ends meet.
pub fn law_of_ours<M: Media>(before: &M, after: &M, started: &M)
    ensures on { StayOurs (M.disk before.now) (M.disk after.now) → AreOurs (M.disk after.now) }
    ensures stopped { (image : Image) → StayOurs (M.disk before.now) (M.disk after.now) → (M.disk after.now).since (M.disk before.now).clock image
        → RestAs image (M.disk started.now) → AreOurs (M.disk started.now) }
    ensures begun { (image : Image) → IsUnformatted image → RestAs image (M.disk started.now) → AreOurs (M.disk started.now) }
    ensures sound { (x : Contents) → M.tells_images → AreOurs (M.disk started.now) → HoldsContents (M.disk started.now).reads x → EndsMeet (members_with x.further) (reading_of x) × AreSound x }
{}

/// A run over media with a life, and a stop at any moment of it, leaves media whose life has the first of the run's events more. What
/// media hold that were formatted and then used, over any number of runs and stops: in each medium's window just the records of
/// all that was ever recorded, of each live incident just its records, and the incidents that were saved and not released.
pub fn law_of_lives()
    ensures stopped { (c : Configuration) (text : List ℕ) (all events : List Event) (before after : Image) (x : Contents) → Life c text all before → HoldsContents before x → IsRun x events
        → ShowsPrefix (ShowsHistory (opening_of x)) events 0 after → (more : List Event) × (rest : List Event) × (events ≡ more ++ rest) × Life c text (all ++ more) after }
    ensures ours { (c : Configuration) (text : List ℕ) (all : List Event) (image : Image) → Life c text all image → IsOurs image }
    ensures windows { (c : Configuration) (text : List ℕ) (all : List Event) (image : Image) (x : Contents) (m : ℕ) → Life c text all image → HoldsContents image x → Contains (members_with x.further) m
        → window (window_of c m) ((opening_of x).records m) ≡ window (window_of c m) (recorded all) }
    ensures incidents { (c : Configuration) (text : List ℕ) (all : List Event) (image : Image) (x : Contents) → Life c text all image → HoldsContents image x
        → x.table ≡ incidents (first_opening c text) all }
    ensures places { (c : Configuration) (text : List ℕ) (all : List Event) (image : Image) (x : Contents) (incident : Incident) → Life c text all image → HoldsContents image x
        → Contains x.table (Some incident) → at_places incident.a incident.b ((opening_of x).records 1) ≡ at_places incident.a incident.b (recorded all) }
{}
