// The law of reading: TAG blocks at a front have the values that are read, or the refusal that is answered.
ghost use Rattle.std.specs.Prelude.{◌≡◌, ◌↔◌, ℕ, List, Ok, Err};
ghost use Rattle.vdr_tag.specs.declared.bad.BadTag.{BadTag};
ghost use Rattle.vdr_tag.specs.Values.{TagValues};
ghost use Rattle.vdr_tag.specs.Fronts.{HasFront, IsRefused, reading};

/// Bytes read as the values of the TAG blocks at their front exactly where they have this front, and as a refusal exactly where a
/// block is refused so.
pub fn law_of_reading()
    ensures front { (bytes : List ℕ) (values : TagValues) (n : ℕ) → (reading bytes ≡ Ok (values, n)) ↔ HasFront bytes values n }
    ensures refused { (bytes : List ℕ) (bad : BadTag) → (reading bytes ≡ Err bad) ↔ IsRefused bytes bad }
{}
