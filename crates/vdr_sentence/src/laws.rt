// The law of reading: bytes are the sentence that is read, or have the refusal that is answered.
ghost use Rattle.std.specs.Prelude.{◌≡◌, ◌↔◌, ℕ, List, Ok, Err, Some};
ghost use Rattle.vdr_sentence.specs.declared.bad.Bad.{Bad};
ghost use Rattle.vdr_sentence.specs.Refusals.{first_refusal, reading};
ghost use Rattle.vdr_sentence.specs.Sentences.{IsSentence};

/// Bytes read as a start and a content exactly where they are the sentence with this start and content, and as a refusal exactly where
/// it is their first.
pub fn law_of_reading()
    ensures sentence { (bytes : List ℕ) (start : ℕ) (content : List ℕ) → (reading bytes ≡ Ok (record { start = start; content = content })) ↔ IsSentence bytes start content }
    ensures refused { (bytes : List ℕ) (bad : Bad) → (reading bytes ≡ Err bad) ↔ (first_refusal bytes ≡ Some bad) }
{}
