// The law of ranges: what holds of each text that is a configuration.
ghost use Rattle.std.specs.Prelude.{◌≡◌, ◌≤◌, ℕ, List, Ok};
ghost use Rattle.vdr_config.specs.Configuration.{Configuration};
ghost use Rattle.vdr_config.specs.Grammar.{configuration};

/// A text that is a configuration has 32 incident slots at most, and incidents no longer than the long-term window.
pub fn law_of_ranges()
    ensures slots { (text : List ℕ) (c : Configuration) → configuration text ≡ Ok c → c.incident_slots ≤ 32 }
    ensures incident { (text : List ℕ) (c : Configuration) → configuration text ≡ Ok c → c.incident_seconds ≤ c.long_seconds }
{}
