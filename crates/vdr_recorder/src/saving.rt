// What is kept of an incident, and until when.
ghost use Rattle.std.specs.Prelude.{◌≡◌, option_copied, Err};
ghost use Rattle.vdr_core.specs.Histories.{live};
ghost use Rattle.vdr_incident.specs.declared.refused.ReleaseRefused.TheVariants.{Fault as AReleaseFault};
ghost use Rattle.vdr_vault.specs.Vaults.{AreRings};
ghost use Rattle.vdr_vault.specs.Plays.{ReadsNoOther};
ghost use Rattle.vdr_vault.specs.Keeps.{FailsWhere, FreesSlot, MeetsDamage, PutsIncident, RefusesRelease, RefusesSave, WritesToLongTerm};
ghost use Rattle.vdr_vault.specs.declared.refused.SaveRefused.TheVariants.{Fault as AFault};
ghost use Rattle.vdr_recorder.specs.Calls.{KeepsRecorder, ReleasesAsEvent, SavesAsEvent};

use crate::Recorder;
use vdr_incident::{ReleaseRefused, Save as Saved};
use vdr_outside::Media;
use vdr_vault::SaveRefused;

impl Recorder {
    /// Saves an incident: keeps the records of the long-term medium from the first one in the window of `incident_seconds` to the
    /// last one, until it is released. It gets the least id that is free, from 1 on. After Ok the save is acknowledged: a stop leaves
    /// media that show it. A save that is refused is no event but a look.
    ///
    /// The refusals stand in their order in `SaveRefused`. Of the first three no byte was read or written, of `Damaged` none was written:
    /// a slot that was read is damaged, or, at offset 0, not all records of the incident are on the medium. After `Fault` each call
    /// answers `Fault`, until the media are opened again.
    pub fn save<M: Media>(&mut self, media: &mut M, label: &[u8]) -> Result<u32, SaveRefused>
        requires rings { AreRings self.old.vault (M.disk media.old).sizes }
        ensures event { SavesAsEvent M.Media label.now self.old self.new media.old media.new result }
        ensures refuses { RefusesSave label.now self.old.vault self.old self.new media.old media.new result }
        ensures damage { MeetsDamage self.old.vault self.new.vault (M.disk media.old) (M.disk media.new) result }
        ensures failing { FailsWhere (result ≡ Err AFault) self.new.vault.failed }
        ensures incident { PutsIncident label.now self.old.vault self.new.vault.table result }
        ensures keeps { KeepsRecorder self.old self.new (M.disk media.new).sizes }
        ensures writes { WritesToLongTerm M.Media self.old.vault.failed media.old media.new (ReadsNoOther 1) (result ≡ Err AFault) }
    {
        self.vault.save(media, label)
    }

    /// Releases a saved incident: its records stay until they are outside of the window and their slot is needed, and its id is free.
    /// After Ok a stop leaves media that show the release. A release that is refused is no event but a look.
    ///
    /// `NoSuch`: no live save has this id, and nothing was called. `Fault`: a write had failed before, and nothing was called; or a
    /// write or a sync failed, and the count of faults of the long-term medium rose. After it each call answers `Fault`, until
    /// the media are opened again.
    pub fn release<M: Media>(&mut self, media: &mut M, id: u32) -> Result<(), ReleaseRefused>
        requires rings { AreRings self.old.vault (M.disk media.old).sizes }
        ensures event { ReleasesAsEvent M.Media id self.old self.new media.old media.new }
        ensures refuses { RefusesRelease id self.old.vault self.old self.new media.old media.new result }
        ensures failing { FailsWhere (result ≡ Err AReleaseFault) self.new.vault.failed }
        ensures freed { FreesSlot id self.old.vault.table self.new.vault.table result }
        ensures keeps { KeepsRecorder self.old self.new (M.disk media.new).sizes }
        ensures writes { WritesToLongTerm M.Media self.old.vault.failed media.old media.new (λ before now. now ≡ before) (result ≡ Err AReleaseFault) }
    {
        self.vault.release(media, id)
    }

    /// The live save of an id. None exactly where there is none; ids begin at 1.
    pub fn live(&self, id: u32) -> Option<&Saved>
        ensures { option_copied result ≡ live self.now.vault.table id }
    {
        self.vault.live(id)
    }
}
