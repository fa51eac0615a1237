// The live saves as a page tells them.
//
// Each is a copy: the recorder is read while the page is written.
ghost use Rattle.std.specs.Prelude.{◌≡◌, ◌≤◌, length, map};
ghost use Rattle.vdr_page.specs.Fronts.{save_of};
ghost use Rattle.vdr_readout.specs.Paged.{save_told, saves_in};

use arrayvec::ArrayVec;
use vdr_incident::Save as LiveSave;
use vdr_page::Save;
use vdr_recorder::Recorder;
use vdr_terms::MOST_INCIDENTS;

/// Room for the saves of all ids.
pub(crate) const ROOM_FOR_SAVES: usize = 32;

// A label once more.
fn copied(label: &[u8]) -> ArrayVec<u8, 64>
    requires { length label.now ≤ 64 }
    ensures { result.items ≡ label.now }
{
    let mut copy = ArrayVec::new();
    for byte in label {
        copy.push(*byte);
    }
    copy
}

// A live save as a page tells it.
fn save_told(id: u32, saved: &LiveSave) -> Save
    ensures { save_of result ≡ save_told id saved.now }
{
    Save {
        id,
        utc: saved.utc.unsigned_abs(),
        first: saved.a,
        last: saved.b,
        label: copied(saved.label.as_slice()),
    }
}

/// The live saves in the order of their ids.
pub(crate) fn saves_in(recorder: &Recorder) -> ArrayVec<Save, ROOM_FOR_SAVES>
    ensures { map save_of result.items ≡ saves_in recorder.now.vault.table }
{
    let mut saves = ArrayVec::new();
    for before in 0..MOST_INCIDENTS {
        if let Some(saved) = recorder.live(before + 1) {
            saves.push(save_told(before + 1, saved));
        }
    }
    saves
}
