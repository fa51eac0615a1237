// The laws of comparisons.
ghost use Rattle.std.specs.Prelude.{ℕ, List};
ghost use Rattle.vdr_terms.specs.Records.{Record as Entry};
ghost use Rattle.vdr_rescue.specs.Alones.{Rescue, Rescued};
ghost use Rattle.vdr_compare.specs.declared.standing.Windows.{Windows as AWindows};
ghost use Rattle.vdr_compare.specs.Conditions.{Condition as ACondition};
ghost use Rattle.vdr_compare.specs.Laws.{PlacesRise, SaysAll, SaysNothing, SaysOneHistory, SaysSo};

/// What is said of a place is so of the records that the media give. Of media that give the same records nothing is said but between
/// which places they are the same.
///
/// The places of the records that a medium gives rise, whatever its bytes are. Of such records just the places are told to differ that do,
/// and just those to lack that do. Where both media give records of one history none differs, and where each one holds its window of it
/// nothing is said.
pub fn law_of_comparison()
    ensures so { (w : AWindows) (rs ss : List Entry) → SaysSo w rs ss }
    ensures same { (c : ACondition) (w : AWindows) (records : List Entry) → SaysNothing c w records records }
    ensures rise { (m : ℕ) (bytes : List ℕ) (x : Rescue) → Rescued m bytes x → PlacesRise x.given }
    ensures all { (w : AWindows) (rs ss : List Entry) → PlacesRise rs → PlacesRise ss → SaysAll w rs ss }
    ensures history { (whole rs ss : List Entry) → PlacesRise whole → PlacesRise rs → PlacesRise ss → SaysOneHistory whole rs ss }
{}
