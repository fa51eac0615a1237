// What a vault answers without a call on its media.
ghost use Rattle.std.specs.Prelude.{◌≡◌, option_copied, count_by, is_some};
ghost use Rattle.vdr_core.specs.Histories.{live};

use crate::Vault;
use vdr_config::Config;
use vdr_incident::Save;

impl Vault {
    /// The configuration that the media hold.
    pub fn config(&self) -> &Config
        ensures { result.now ≡ self.now.config }
    {
        &self.config
    }

    /// The place of the next record. A batch that met a fault doesn't count.
    pub fn next_place(&self) -> u64
        ensures { result ≡ self.now.next_place }
    {
        self.next_place
    }

    /// Tick (in milliseconds of recording time) and stamp (in milliseconds since 1970) of the last record, None where nothing is
    /// recorded. A batch that met a fault doesn't count.
    pub fn last(&self) -> Option<(u64, i64)>
        ensures { result ≡ self.now.last }
    {
        self.last
    }

    /// The live save of an id. None exactly where there is none; ids begin at 1.
    pub fn live(&self, id: u32) -> Option<&Save>
        ensures { option_copied result ≡ live self.now.table id }
    {
        self.table.live(id)
    }

    /// How many saves are live.
    pub fn live_saves(&self) -> u8
        ensures { result ≡ count_by is_some self.now.table }
    {
        self.table.count()
    }

    /// Whether a write has failed since the media were opened.
    pub fn failed(&self) -> bool
        ensures { result ≡ self.now.failed }
    {
        self.failed
    }
}
