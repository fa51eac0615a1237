// What a session needs of a configuration.
ghost use Rattle.std.specs.Prelude.{◌≡◌, ◌≤◌, ◌<◌, ℕ, false, length, get_or};
ghost use Rattle.vdr_terms.specs.Rates.{is_configured};
ghost use Rattle.vdr_config.specs.Configuration.{IsConfiguration};
ghost use Rattle.vdr_config.specs.Sizes.{limits_in};
ghost use Rattle.vdr_durability.specs.Commits.{largest_item};

use vdr_config::Config;

/// What a session needs of a configuration.
#[derive(Drop)]
pub(crate) struct Plan {
    /// Which groups are configured.
    pub configured: [bool; 16],
    /// How many items each queue has room for.
    pub capacity: u32,
    /// How many bytes a batch may have.
    pub room: usize,
}

impl Plan {
    pub fn new(config: &Config) -> Plan
        ensures legal { IsConfiguration config.now }
        ensures sixteen { length result.configured ≡ 16 }
        ensures configured { (g : ℕ) → g < 16 → get_or result.configured g false ≡ is_configured (limits_in config.now.groups g) }
        ensures capacity { (result.capacity ≡ config.now.queue) × (0 < result.capacity) × (result.capacity ≤ 65536) }
        ensures room { (result.room ≡ config.now.batch) × (largest_item ≤ result.room) }
    {
        let mut configured = [false; 16];
        for group in 0..16 {
            configured[group] = config.groups[group].is_some();
        }
        Plan {
            configured,
            capacity: config.queue,
            room: config.batch as usize,
        }
    }
}
