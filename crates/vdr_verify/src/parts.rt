// What may stand in the parts of a heading.
ghost use Rattle.std.specs.Prelude.{◌≡◌, ◌<◌, ◌^◌, ◌∷◌, [], ℕ, true, false, IfSome, IfNone};
ghost use Rattle.vdr_bytes.specs.Numbers.{le_u32};
ghost use Rattle.vdr_verify.specs.Heads.{IsIdOn};
ghost use Rattle.vdr_verify.specs.Legal.{IsLabelOf, IsMedium};

use crate::reader::number_in;
use vdr_incident::is_label;

/// The number of a medium: 0 the capsule, 1 the long-term medium.
pub(crate) fn medium_in(bytes: &[u8]) -> Option<u8>
    ensures found { IfSome result (λ medium. IsMedium bytes.now × (bytes.now ≡ medium ∷ [])) }
    ensures none { IfNone result (IsMedium bytes.now → ⊥) }
{
    match bytes {
        [0] => Some(0),
        [1] => Some(1),
        _ => None,
    }
}

// Whether this may be the id of an incident on this medium, or 0 for none.
fn is_id_on(medium: u8, slots: u8, id: u32) -> bool
    ensures legal { result ≡ true → IsIdOn medium slots id }
    ensures other { result ≡ false → IsIdOn medium slots id → ⊥ }
{
    if id == 0 {
        return true;
    }
    medium == 1 && id <= slots as u32
}

/// The id of an incident on this medium, 0 for none, where there are so many slots.
pub(crate) fn incident_in(bytes: &[u8], medium: u8, slots: u8) -> Option<u32>
    ensures found { IfSome result (λ id. IsIdOn medium slots id × (bytes.now ≡ le_u32 id)) }
    ensures none { IfNone result ((id : ℕ) → id < 2 ^ 32 → bytes.now ≡ le_u32 id → IsIdOn medium slots id → ⊥) }
{
    if bytes.len() != 4 {
        return None;
    }
    let id = number_in(bytes);
    if is_id_on(medium, slots, id) {
        Some(id)
    } else {
        None
    }
}

/// Whether the bytes are the label of this incident, which is nothing where there is none.
pub(crate) fn is_label_of(incident: u32, bytes: &[u8]) -> bool
    ensures legal { result ≡ true → IsLabelOf (le_u32 incident) bytes.now }
    ensures other { result ≡ false → IsLabelOf (le_u32 incident) bytes.now → ⊥ }
{
    if incident == 0 {
        bytes.is_empty()
    } else {
        is_label(bytes)
    }
}
