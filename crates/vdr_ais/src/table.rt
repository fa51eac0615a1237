// The table of ships: the lines of sentence datagrams are read into it, and its rows are printed.
//
// The places of all lines of a record are made before any is taken, so that a refusal leaves the table as it was. So
// many reports that 64 bits can't count them stay at the greatest number.
ghost use Rattle.std.specs.Prelude.{◌≡◌, ◌≤◌, ◌+◌, All, IfOk, OnErr, OnOk, [], fold, length, vec_capacity, vec_len};
ghost use Rattle.vdr_terms.specs.Stamps.{IsStamp};
ghost use Rattle.vdr_ais.specs.Lines.{Key, lines_in};
ghost use Rattle.vdr_ais.specs.Pending.{HasNoFewer, HasPlace};
ghost use Rattle.vdr_ais.specs.Targets.{Seen, nothing, with_line, with_record};
ghost use Rattle.vdr_ais.specs.Views.{line_said};
ghost use Rattle.vdr_ais.specs.Tables.{AreShips, Shows, table_of};

use crate::carried::line_in;
use crate::line::Line;
use crate::report::read_message;
use crate::ship::Ship;
use crate::ships::put_report;
use crate::unfinished::Unfinished;
use std::alloc::{AllocError, Global};
use std::marker::Model;
use vdr_datagram::lines;
use vdr_entry::{Content, Record};
use vdr_outside::{Failed, Printable, Sink, write_all};

/// The table of the ships that AIS messages report, one row for each MMSI, in order of number (this project's profile).
///
/// The lines VDM and VDO of sentence datagrams carry messages (IEC 61162-1), of which positions and names report a ship
/// (ITU-R M.1371, messages 1 to 5, 9, 18, 19, 21, 24 and 27). A line whose TAG blocks name no source counts for the source `-`. It takes memory for its ships
/// and for what the parts of messages have in common, and none for their lines.
#[derive(Drop)]
pub struct TargetTable {
    unfinished: Unfinished,
    // By MMSI.
    ships: Vec<Ship>,
}

impl Model for TargetTable {
    ghost use Rattle.vdr_ais.specs.Tables.{AreShips, Table, table_of};

    ghost Value = { Table };

    ghost view = { λ t. table_of t.unfinished t.ships.items };

    ghost invariant = { λ t. AreShips t.ships.items };
}

// Makes room for the messages of a datagram's lines, and tells how many of these carry a part.
pub(crate) fn make_room(
    unfinished: &mut Unfinished,
    group: u8,
    payload: &[u8],
) -> Result<usize, AllocError>
    ensures same { HasNoFewer unfinished.old unfinished.new }
    ensures room { OnOk result (All (λ line. HasPlace unfinished.new line.key) (lines_in group payload.now)) }
    ensures count { IfOk result (λ n. n ≡ length (lines_in group payload.now)) }
{
    let mut count: usize = 0;
    for line in lines(payload) {
        if let Some(line) = line_in(group, &line.verdict) {
            unfinished.make_room(&line.key)?;
            let Some(more) = count.checked_add(1) else {
                return Err(AllocError);
            };
            count = more;
        }
    }
    Ok(count)
}

// Takes a line, for whose message and ship there is room.
fn take_line(unfinished: &mut Unfinished, ships: &mut Vec<Ship>, utc: i64, line: &Line<'_>)
    requires place { HasPlace unfinished.old (line_said line.now).key }
    requires ships { AreShips ships.old.items }
    requires room { vec_len ships.old + 1 ≤ vec_capacity ships.old }
    requires stamp { IsStamp utc }
    ensures shows { (seen : Seen) → Shows seen (table_of unfinished.old ships.old.items)
        → Shows (with_line utc seen (line_said line.now)) (table_of unfinished.new ships.new.items) }
    ensures places { (key : Key) → HasPlace unfinished.old key → HasPlace unfinished.new key }
    ensures ships { AreShips ships.new.items }
    ensures more { vec_len ships.new ≤ vec_len ships.old + 1 }
    ensures capacity { vec_capacity ships.old ≤ vec_capacity ships.new }
{
    let Some(message) = unfinished.join(line) else {
        return;
    };
    let Some(report) = read_message(&message) else {
        return;
    };
    put_report(ships, utc, &report);
}

// Takes the lines of a datagram, for whose messages and ships there is room.
fn take_lines(
    unfinished: &mut Unfinished,
    ships: &mut Vec<Ship>,
    group: u8,
    utc: i64,
    payload: &[u8],
)
    requires places { All (λ line. HasPlace unfinished.old line.key) (lines_in group payload.now) }
    requires ships { AreShips ships.old.items }
    requires room { vec_len ships.old + length (lines_in group payload.now) ≤ vec_capacity ships.old }
    requires stamp { IsStamp utc }
    ensures shows { (seen : Seen) → Shows seen (table_of unfinished.old ships.old.items)
        → Shows (fold (with_line utc) seen (lines_in group payload.now)) (table_of unfinished.new ships.new.items) }
    ensures ships { AreShips ships.new.items }
{
    for line in lines(payload) {
        if let Some(line) = line_in(group, &line.verdict) {
            take_line(unfinished, ships, utc, &line);
        }
    }
}

impl TargetTable {
    /// The table of no line.
    pub fn new(alloc: Global) -> TargetTable
        ensures { Shows nothing result }
    {
        TargetTable {
            unfinished: Unfinished::new(alloc),
            ships: Vec::new(alloc),
        }
    }

    /// Takes the lines of a record.
    ///
    /// `AllocError`: there was no memory. The table stays as it was.
    pub fn add(&mut self, item: &Record) -> Result<(), AllocError>
        ensures added { (seen : Seen) → Shows seen self.old → OnOk result (Shows (with_record seen item.now) self.new) }
        ensures kept { OnErr result (self.new ≡ self.old) }
    {
        let Content::Datagram(payload) = item.content() else {
            return Ok(());
        };
        let count = make_room(&mut self.unfinished, item.group, payload)?;
        self.ships.reserve(count)?;
        take_lines(
            &mut self.unfinished,
            &mut self.ships,
            item.group,
            item.utc,
            payload,
        );
        Ok(())
    }
}

impl Printable for TargetTable {
    ghost use Rattle.vdr_ais.specs.Targets.{targets_text};

    ghost text = { λ table. targets_text table.ships };

    /// Prints the rows, each by one write. It takes no memory.
    fn print<O: Sink>(&self, out: &mut O) -> Result<(), Failed> {
        for ship in &self.ships {
            write_all(out, ship.text().as_slice())?;
        }
        Ok(())
    }
}
