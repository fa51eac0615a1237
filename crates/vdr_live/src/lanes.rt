// The lanes of the transmission groups.
ghost use Rattle.std.specs.Prelude.{◌≡◌, ◌<◌, ℕ, length, slice_index_or, true};

use vdr_capture::Lane;

/// Whether these are lanes of the 16 transmission groups, each at the number of its group.
pub fn are_lanes<P>(lanes: &[Lane<P>]) -> bool
    ensures sixteen { result ≡ true → length lanes.now ≡ 16 }
    ensures groups { result ≡ true → (g : ℕ) (d : _) → g < 16 → (slice_index_or lanes.now g d).group ≡ g }
{
    if lanes.len() != 16 {
        return false;
    }
    for group in 0..16 {
        if usize::from(lanes[group].group) != group {
            return false;
        }
    }
    true
}
