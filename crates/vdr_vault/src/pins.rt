// The places that the long-term medium keeps besides its window.
ghost use Rattle.std.specs.Prelude.{◌≡◌, ◌≤◌, length};
ghost use Rattle.vdr_durability.specs.Shown.{pins_of};
ghost use Rattle.vdr_config.specs.Configuration.{IsConfiguration};

use crate::Vault;
use vdr_incident::Table;
use vdr_ring::Pins;

// The places of the live saves of so many slots.
fn pins_in(table: &Table, slots: u8) -> Pins
    requires slots { slots ≡ length table.now }
    requires few { length table.now ≤ 32 }
    ensures { result ≡ pins_of table.now }
{
    let mut pins = Pins::new();
    for slot in 0..slots {
        if let Some(save) = table.live(slot as u32 + 1) {
            pins.add(save.a, save.b);
        }
    }
    pins
}

impl Vault {
    /// The places of the live saves.
    pub(crate) fn pins(&self) -> Pins
        ensures pins { result ≡ pins_of self.now.table }
        ensures legal { IsConfiguration self.now.config }
    {
        pins_in(&self.table, self.config.incident_slots)
    }
}
