// The sizes of the media that a configuration asks for.
ghost use Rattle.std.specs.Prelude.{◌≡◌, ◌≤◌, ◌<◌, ℕ, Err, IfNone, IfOk, IfSome};
ghost use Rattle.vdr_terms.specs.Slots.{slot_count};
ghost use Rattle.vdr_config.specs.declared.media.TooSmall.{TooSmall as Small};
ghost use Rattle.vdr_live.specs.Making.{IsFirstLacking, IsLeast};

use vdr_config::{Config, TooSmall, needs};
use vdr_terms::SLOTS_FROM;

/// The most slots that a medium has.
const MOST_SLOTS: u64 = 1_000_000;

// The least size of a medium that has so many slots of segments of this size. None where no medium has.
fn least_size(slots: u64, segment: u32) -> Option<u64>
    requires slots { 0 < slots }
    requires segment { 0 < segment }
    ensures fits { IfSome result (λ size. slots ≤ slot_count segment size) }
    ensures least { IfSome result (λ size. (other : ℕ) → slots ≤ slot_count segment other → size ≤ other) }
    ensures none { IfNone result ((size : ℕ) → slots ≤ slot_count segment size → ⊥) }
{
    if slots > MOST_SLOTS {
        return None;
    }
    Some(SLOTS_FROM + slots * segment as u64)
}

/// The sizes of the capsule and of the long-term medium, in bytes, that the configuration asks for: of each the least that has the slots that it
/// needs. `TooSmall` names the first of which no medium has so many, and that it has none.
pub fn least_sizes(config: &Config) -> Result<(u64, u64), TooSmall>
    ensures capsule { IfOk result (λ sizes. IsLeast config.now 0 sizes.0) }
    ensures long_term { IfOk result (λ sizes. IsLeast config.now 1 sizes.1) }
    ensures refused { (small : Small) → result ≡ Err small → IsFirstLacking config.now small }
{
    let needs = needs(config);
    let Some(capsule) = least_size(needs.capsule_slots, config.segment) else {
        return Err(TooSmall {
            medium: 0,
            need: needs.capsule_slots,
            have: 0,
        });
    };
    let Some(long_term) = least_size(needs.long_slots, config.segment) else {
        return Err(TooSmall {
            medium: 1,
            need: needs.long_slots,
            have: 0,
        });
    };
    Ok((capsule, long_term))
}
