// The laws of one medium alone.
ghost use Rattle.std.specs.Prelude.{◌≡◌, ℕ, List, [], Contains, drop};
ghost use Rattle.vdr_terms.specs.Records.{Record as Entry};
ghost use Rattle.vdr_terms.specs.Order.{RunOn};
ghost use Rattle.vdr_core.specs.Histories.{Event};
ghost use Rattle.vdr_durability.specs.Playback.{medium_of, selected};
ghost use Rattle.vdr_outside.specs.Disk.{Image, content};
ghost use Rattle.vdr_config.specs.Configuration.{Configuration};
ghost use Rattle.vdr_config.specs.Sizes.{window_of};
ghost use Rattle.vdr_ring.specs.Whole.{KeepsAll};
ghost use Rattle.vdr_vault.specs.Lives.{Life};
ghost use Rattle.vdr_vault.specs.Ours.{IsOurs};
ghost use Rattle.vdr_segment.specs.Segments.{AreBatches};
ghost use Rattle.vdr_index.specs.Extents.{records_in};
ghost use Rattle.vdr_rescue.specs.declared.findings.Finding.{Finding as AFinding};
ghost use Rattle.vdr_rescue.specs.declared.told.Told.{Told as ATold};
ghost use Rattle.vdr_terms.specs.Queries.{Query};
ghost use Rattle.vdr_rescue.specs.Alones.{AloneState, IsAloneOn, IsReadThrough, IsSameMedium, RefusesAlone, Rescue, Rescued, Selects, account_of, selected_of};
ghost use Rattle.vdr_opening.specs.Media.{Contents, HoldsContents, members_with, opening_of, slots_on};
ghost use Rattle.vdr_rescue.specs.Findings.{AreFindings};
ghost use Rattle.vdr_rescue.specs.Given.{GivenBy};
ghost use Rattle.vdr_rescue.specs.Legible.{FindsNothing, GivesAll};
ghost use Rattle.vdr_rescue.specs.Lives.{EndsWithLast, HasNoOlder, RescuesLife};

/// A segment gives one list of records. One whose batches are legal and whose places run on from its first one gives all its records.
pub fn law_of_given()
    ensures one { (segment : List ℕ) (first : ℕ) (rs qs : List Entry) → GivenBy segment first rs → GivenBy segment first qs → rs ≡ qs }
    ensures whole { (segment : List ℕ) (first : ℕ) (batches : List (List Entry)) → AreBatches (drop 64 segment) batches → RunOn first (records_in batches)
        → GivenBy segment first (records_in batches) }
{}

/// What was read of one medium to its end, with what is told behind it, is what the medium gives.
pub fn law_of_rescued()
    ensures { (m : ℕ) (bytes : List ℕ) (alone : AloneState) (given : List Entry) (findings : List AFinding) → IsAloneOn m bytes alone
        → IsReadThrough bytes alone.cursor alone.cursor.told given → AreFindings (account_of alone) findings
        → Rescued m bytes (record { config = alone.config; table = alone.saves.table; given = given; findings = findings }) }
{}

/// One medium of any bytes is refused at one offset, or gives one answer: what was opened has its configuration and its saves,
/// reads its records, selects of them, and in the end finds what it finds.
pub fn law_of_alone()
    ensures same { (m : ℕ) (bytes : List ℕ) (a : AloneState) (x : Rescue) → IsAloneOn m bytes a → Rescued m bytes x → (a.config ≡ x.config) × (a.saves.table ≡ x.table) }
    ensures refused { (m offset : ℕ) (bytes : List ℕ) (a : AloneState) → RefusesAlone m bytes offset → IsAloneOn m bytes a → ⊥ }
    ensures never { (m offset : ℕ) (bytes : List ℕ) (x : Rescue) → RefusesAlone m bytes offset → Rescued m bytes x → ⊥ }
    ensures one { (m p q : ℕ) (bytes : List ℕ) → RefusesAlone m bytes p → RefusesAlone m bytes q → p ≡ q }
    ensures read { (m : ℕ) (bytes : List ℕ) (a : AloneState) (x : Rescue) → IsAloneOn m bytes a → Rescued m bytes x → (told : List ATold) × IsReadThrough bytes a.cursor told x.given }
    ensures given { (m : ℕ) (bytes : List ℕ) (a : AloneState) (x : Rescue) (query : Query) → IsAloneOn m bytes a → Rescued m bytes x → Selects bytes a query (selected_of x query) }
    ensures found { (m : ℕ) (bytes : List ℕ) (a b : AloneState) (x : Rescue) (given : List Entry) (findings : List AFinding) → IsAloneOn m bytes a → IsSameMedium a b
        → IsReadThrough bytes a.cursor b.cursor.told given → Rescued m bytes x → AreFindings (account_of b) findings → findings ≡ x.findings }
{}

/// Legible media, each medium alone: none is refused, and each gives all that stands on it. Nothing
/// is missing or damaged on one that lacks nothing of what it is to keep.
pub fn law_of_legible()
    ensures opens { (image : Image) (y : Contents) (m offset : ℕ) → HoldsContents image y
        → Contains (members_with y.further) m → RefusesAlone m (content image m) offset → ⊥ }
    ensures gives { (image : Image) (y : Contents) (m : ℕ) (x : Rescue) → HoldsContents image y
        → Contains (members_with y.further) m → Rescued m (content image m) x → GivesAll y m x }
    ensures finds { (image : Image) (y : Contents) (m : ℕ) (x : Rescue) → HoldsContents image y
        → Contains (members_with y.further) m → Rescued m (content image m) x
        → KeepsAll (window_of y.config m) (slots_on y.config image m) (y.placed m) → FindsNothing x }
{}

/// Media of this product, each read alone, over any number of runs and stops: what one gives has in
/// its window just the records of all that was ever recorded, but for a last batch that did not
/// reach it, and of each live incident just its records. Nothing is missing or damaged on any, with
/// that batch or without. Where it has that batch and nothing from before its window, a query selects
/// what it selects in a play.
pub fn law_of_rescue()
    ensures gives { (c : Configuration) (text : List ℕ) (all : List Event) (image : Image)
        (y : Contents) (m : ℕ) (x : Rescue) → Life c text all image → HoldsContents image y
        → Contains (members_with y.further) m → Rescued m (content image m) x → RescuesLife c text all y m x }
    ensures finds { (image : Image) (y : Contents) (m : ℕ) (x : Rescue) → IsOurs image
        → HoldsContents image y → Contains (members_with y.further) m → Rescued m (content image m) x
        → FindsNothing x }
    ensures plays { (image : Image) (y : Contents) (x : Rescue) (query : Query) → IsOurs image
        → HoldsContents image y → Contains (members_with y.further) (medium_of query.medium)
        → Rescued (medium_of query.medium) (content image (medium_of query.medium)) x
        → EndsWithLast y (medium_of query.medium) → HasNoOlder y.config x.given query.medium
        → selected_of x query ≡ selected (opening_of y) [] query }
{}
