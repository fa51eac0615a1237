// The laws of opening: an image holds one list of contents, opening reads it, and it has one answer.
ghost use Rattle.std.specs.Prelude.{◌≡◌, ◌+◌, ◌<◌, ◌↔◌, ℕ, List};
ghost use Rattle.vdr_durability.specs.Readings.{EndsMeet};
ghost use Rattle.vdr_outside.specs.Disk.{Image};
ghost use Rattle.vdr_config.specs.Configuration.{Configuration};
ghost use Rattle.vdr_media.specs.Formatted.{IsEmptyHistory, IsUnformatted};
ghost use Rattle.vdr_opening.specs.Media.{Contents, HoldsContents, HoldsParts, further_in, members_with, nothing_on, opening_of, parts_of, reading_of};
ghost use Rattle.vdr_opening.specs.Refusals.{IsRefused};

/// An image holds one list of contents at most: the configuration, its text, the segments of each medium, the incidents,
/// and whether each medium is filled.
pub fn law_of_contents()
    ensures config { (image : Image) (x y : Contents) → HoldsContents image x → HoldsContents image y → (x.config ≡ y.config) × (x.text ≡ y.text) }
    ensures further { (image : Image) (x y : Contents) → HoldsContents image x → HoldsContents image y → x.further ≡ y.further }
    ensures placed { (image : Image) (x y : Contents) → HoldsContents image x → HoldsContents image y → (m : ℕ) → m < 2 + x.further → x.placed m ≡ y.placed m }
    ensures table { (image : Image) (x y : Contents) → HoldsContents image x → HoldsContents image y → x.table ≡ y.table }
    ensures filled { (image : Image) (x y : Contents) → HoldsContents image x → HoldsContents image y → (m : ℕ) → m < 2 + x.further → x.filled m ≡ y.filled m }
    ensures formatted { (image : Image) (x : Contents) → HoldsContents image x → IsUnformatted image → ⊥ }
{}

/// What opening reads of an image is one: the configuration, its text, what is known of the segments of each medium, and
/// the incidents. Of legible media it is so much of their contents, and those end as it does.
pub fn law_of_parts()
    ensures legible { (image : Image) (x : Contents) → HoldsContents image x → HoldsParts image (parts_of x) }
    ensures config { (image : Image) (x y : Contents) → HoldsParts image x → HoldsParts image y → (x.config ≡ y.config) × (x.text ≡ y.text) }
    ensures further { (image : Image) (x y : Contents) → HoldsParts image x → HoldsParts image y → x.further ≡ y.further }
    ensures known { (image : Image) (x y : Contents) → HoldsParts image x → HoldsParts image y → (m : ℕ) → m < 2 + x.further → x.placed m ≡ y.placed m }
    ensures table { (image : Image) (x y : Contents) → HoldsParts image x → HoldsParts image y → x.table ≡ y.table }
    ensures formatted { (image : Image) (x : Contents) → HoldsParts image x → IsUnformatted image → ⊥ }
    ensures meet { (image : Image) (x : Contents) → HoldsContents image x → EndsMeet (members_with x.further) (reading_of (parts_of x)) ↔ EndsMeet (members_with x.further) (reading_of x) }
    ensures last { (image : Image) (x : Contents) → HoldsContents image x → (opening_of (parts_of x)).last ≡ (opening_of x).last }
{}

/// Media that were just formatted are legible: they hold no segment and no incident, and their ends meet.
pub fn law_of_empty_media()
    ensures holds { (further : ℕ) (image : Image) (c : Configuration) (text : List ℕ) → further ≡ further_in image → IsEmptyHistory (members_with further) c text image
        → HoldsContents image (nothing_on further c text) }
    ensures meet { (further : ℕ) (c : Configuration) (text : List ℕ) → EndsMeet (members_with further) (reading_of (nothing_on further c text)) }
{}

/// Opening has one answer: media of which all parts that it reads are legal and whose ends meet are not refused, and
/// those that are refused are refused at one offset of one medium.
pub fn law_of_refusals()
    ensures parts { (image : Image) (x : Contents) (m offset : ℕ) → HoldsParts image x → EndsMeet (members_with x.further) (reading_of x) → IsRefused image m offset → ⊥ }
    ensures either { (image : Image) (x : Contents) (m offset : ℕ) → HoldsContents image x → EndsMeet (members_with x.further) (reading_of x) → IsRefused image m offset → ⊥ }
    ensures one { (image : Image) (m offset k other : ℕ) → IsRefused image m offset → IsRefused image k other → (m ≡ k) × (offset ≡ other) }
{}
