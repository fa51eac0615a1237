// Supervision of equipment, record by record, and at the end of the records.
ghost use Rattle.std.specs.Prelude.{◌≡◌, ◌≤◌, ◌∷◌, ◌++◌, [], List, Err, OnOk};
ghost use Rattle.std.specs.Io.KnownBytes.{Appends};
ghost use Rattle.vdr_outside.specs.Causes.{HasCause, Rose};
ghost use Rattle.vdr_outside.specs.Writes.{AppendsFront};
ghost use Rattle.vdr_terms.specs.Records.{Record as ARecord};
ghost use Rattle.vdr_watch.specs.declared.fault.WatchFault.TheVariants.{NoMemory as WantsMemory, Output as HasFailed};
ghost use Rattle.vdr_watch.specs.Kept.{kept_of};
ghost use Rattle.vdr_watch.specs.Supervision.{met_in};
ghost use Rattle.vdr_watch.specs.Texts.{end_text, closing_text, record_text};

use crate::fault::WatchFault;
use crate::print::print_all_silent;
use crate::tables::Tables;
use std::alloc::Global;
use std::marker::Model;
use vdr_alerts::{Board, Mark};
use vdr_entry::Record;
use vdr_outside::{Failed, Sink};

/// The supervision of equipment by the heartbeats and alarms of records (this project's profile), which it meets in the order of their places.
///
/// | At | Line |
/// |---|---|
/// | a heartbeat that comes later than twice the interval of the one before it | `PLACE UTC silent GROUP SOURCE MS` |
/// | a heartbeat whose sequence number is not the next one | `PLACE UTC jump GROUP SOURCE OLD NEW` |
/// | the first state of an alarm, and each that differs from the one before it | `PLACE UTC alarm GROUP SOURCE NUMBER CONDITION ACKNOWLEDGED TEXT` |
/// | the first state of a bridge alert, and where its priority or state differs | `PLACE UTC alert GROUP SOURCE IDENTIFIER INSTANCE PRIORITY STATE TEXT` |
/// | the end of a list that lacks an alert of its source which stood | `PLACE UTC alert GROUP SOURCE IDENTIFIER INSTANCE PRIORITY gone null` |
///
/// A heartbeat is an HBT sentence with an interval above 0, and the one before it is the last of the same group and source with no Start record
/// between them. A state is an ALR sentence with a number, and the one before it the last of the same group, source and number. A bridge alert is told by sentences ALF, and listed by ALC; it stands
/// while its state is not normal. A line that
/// names no source counts for the source `-`, and one with a refused field does not count. A field that is left out prints as `null`.
///
/// It takes memory for its sources, alarms and alerts, and none for their lines.
#[derive(Drop)]
pub struct Watch {
    tables: Tables,
    // The last record.
    last: Option<Mark>,
}

impl Model for Watch {
    ghost use Rattle.std.specs.Prelude.{List};
    ghost use Rattle.vdr_alerts.specs.Views.{board_value};
    ghost use Rattle.vdr_watch.specs.Kept.{Kept};
    ghost use Rattle.vdr_watch.specs.Signs.{Sign};
    ghost use Rattle.vdr_watch.specs.TableViews.{Keeps};

    ghost Value = { Kept };

    ghost view = { λ w. record { heartbeats = w.tables.heartbeats.items; alarms = w.tables.alarms.items; board = board_value w.tables.board; last = w.last } };

    ghost invariant = { λ w. (met : List Sign) × Keeps met w.tables };
}

impl Watch {
    /// The watch of no record.
    pub fn new(alloc: Global) -> Watch
        ensures { result ≡ kept_of [] }
    {
        Watch {
            tables: Tables {
                heartbeats: Vec::new(alloc),
                alarms: Vec::new(alloc),
                board: Board::new(alloc),
            },
            last: None,
        }
    }

    /// Prints what the next record shows.
    ///
    /// `NoMemory`: there was no memory for its sources and alarms. The watch and the output stay as they were. `Output`: the output failed, and a
    /// front of the text is written.
    pub fn add<O: Sink>(&mut self, item: &Record, out: &mut O) -> Result<(), WatchFault>
        ensures added { (before : List ARecord) → self.old ≡ kept_of before → OnOk result (self.new ≡ kept_of (before ++ item.now ∷ [])) }
        ensures all { (before : List ARecord) → self.old ≡ kept_of before → OnOk result (Appends (O.taken out.old) (O.taken out.new) (record_text (met_in before) item.now)) }
        ensures front { (before : List ARecord) → self.old ≡ kept_of before → AppendsFront (O.taken out.old) (O.taken out.new) (record_text (met_in before) item.now) }
        ensures memory { result ≡ Err WantsMemory → (self.new ≡ self.old) × (out.new ≡ out.old) }
        ensures later { O.faults out.old ≤ O.faults out.new }
        ensures output { result ≡ Err HasFailed → Rose (O.faults out.old) (O.faults out.new) }
    {
        self.tables.add(item, out)?;
        self.last = Some(Mark::of(item));
        Ok(())
    }

    /// Prints what the end of the records shows: the last record stands as a heartbeat without sequence number of each source whose last heartbeat
    /// has no Start behind it, by group and then source in byte order. It takes no memory. Where a write fails, a front of the text is written.
    pub fn finish<O: Sink>(&mut self, out: &mut O) -> Result<(), Failed>
        ensures all { (records : List ARecord) → self.old ≡ kept_of records → OnOk result (Appends (O.taken out.old) (O.taken out.new) (closing_text records)) }
        ensures front { (records : List ARecord) → self.old ≡ kept_of records → AppendsFront (O.taken out.old) (O.taken out.new) (closing_text records) }
        ensures same { self.new ≡ self.old }
        ensures cause { HasCause (O.faults out.old) (O.faults out.new) result }
    {
        match &self.last {
            Some(mark) => print_all_silent(mark, self.tables.heartbeats.as_slice(), out),
            None => Ok(()),
        }
    }
}
