// The rows of the live incidents.
//
// One write for each row, of which there are 32 at most.
ghost use Rattle.std.specs.Prelude.{◌≡◌, ◌≤◌, ◌+◌, ◌++◌, codes, decimal, length, OnOk};
ghost use Rattle.std.specs.Io.KnownBytes.{Appends};
ghost use Rattle.arrayvec.specs.ArrayVec.{array_vec_len};
ghost use Rattle.vdr_core.specs.Histories.{live};
ghost use Rattle.vdr_outside.specs.Causes.{HasCause};
ghost use Rattle.vdr_outside.specs.Writes.{AppendsFront};
ghost use Rattle.vdr_entry.specs.Utc.{utc_text};
ghost use Rattle.vdr_teller.specs.Incidents.{incident_row, incidents_text, row_if};

use arrayvec::ArrayVec;
use itoa::Buffer;
use vdr_entry::write_utc;
use vdr_incident::Save;
use vdr_outside::{Failed, Sink, write_all};
use vdr_recorder::Recorder;
use vdr_terms::MOST_INCIDENTS;

/// Room for the longest row, in bytes.
pub const ROOM: usize = 200;

// Appends a text, for which there is room.
fn push_text(row: &mut ArrayVec<u8, ROOM>, text: &[u8])
    requires { array_vec_len row.old + length text.now ≤ 200 }
    ensures { row.new.items ≡ row.old.items ++ text.now }
{
    for byte in text {
        row.push(*byte);
    }
}

// A number and the space behind it.
fn push_number(row: &mut ArrayVec<u8, ROOM>, number: u64)
    requires { array_vec_len row.old + 21 ≤ 200 }
    ensures text { row.new.items ≡ row.old.items ++ decimal number ++ codes " " }
    ensures short { array_vec_len row.new ≤ array_vec_len row.old + 21 }
{
    push_text(row, Buffer::new().format(number).as_bytes());
    push_text(row, b" ");
}

// The stamp of a save, and the space behind it.
fn push_utc(row: &mut ArrayVec<u8, ROOM>, saved: &Save)
    requires { array_vec_len row.old + 25 ≤ 200 }
    ensures text { row.new.items ≡ row.old.items ++ utc_text saved.now.stamp.utc ++ codes " " }
    ensures short { array_vec_len row.new ≤ array_vec_len row.old + 25 }
{
    let mut utc = ArrayVec::new();
    write_utc(saved.utc, &mut utc);
    push_text(row, utc.as_slice());
    push_text(row, b" ");
}

/// The row of a live save.
pub fn row_of(id: u32, saved: &Save) -> ArrayVec<u8, ROOM>
    ensures { result.items ≡ incident_row id saved.now }
{
    let mut row = ArrayVec::new();
    push_number(&mut row, id as u64);
    push_number(&mut row, saved.tick);
    push_utc(&mut row, saved);
    push_number(&mut row, saved.a);
    push_number(&mut row, saved.b);
    push_text(&mut row, saved.label.as_slice());
    push_text(&mut row, b"\n");
    row
}

// Prints the row of an id, if a save is live under it.
fn print_row<O: Sink>(recorder: &Recorder, id: u32, out: &mut O) -> Result<(), Failed>
    ensures all { OnOk result (Appends (O.taken out.old) (O.taken out.new) (row_if id (live recorder.now.vault.table id))) }
    ensures front { AppendsFront (O.taken out.old) (O.taken out.new) (row_if id (live recorder.now.vault.table id)) }
    ensures cause { HasCause (O.faults out.old) (O.faults out.new) result }
{
    match recorder.live(id) {
        Some(saved) => write_all(out, row_of(id, saved).as_slice()),
        None => Ok(()),
    }
}

/// Prints the live saves in the order of their ids, each by one write.
pub fn print_incidents<O: Sink>(recorder: &Recorder, out: &mut O) -> Result<(), Failed>
    ensures all { OnOk result (Appends (O.taken out.old) (O.taken out.new) (incidents_text recorder.now.vault.table)) }
    ensures front { AppendsFront (O.taken out.old) (O.taken out.new) (incidents_text recorder.now.vault.table) }
    ensures cause { HasCause (O.faults out.old) (O.faults out.new) result }
{
    for before in 0..MOST_INCIDENTS {
        print_row(recorder, before + 1, out)?;
    }
    Ok(())
}
