// What is known of alerts, and what a sentence makes of it.
ghost use Rattle.std.specs.Prelude.{◌≡◌, ◌≤◌, ◌+◌, ℕ, suc, OnErr, OnOk, map, option_copied, vec_capacity, vec_len};
ghost use Rattle.std.specs.Io.KnownBytes.{Appends};
ghost use Rattle.vdr_outside.specs.Causes.{HasCause};
ghost use Rattle.vdr_outside.specs.Writes.{AppendsFront};
ghost use Rattle.vdr_alerts.specs.Alerts.{Lists, Tells, alert_cmp, behind_list, part_cmp};
ghost use Rattle.vdr_alerts.specs.Boards.{board_behind, empty, saying_text, told_text, with_alert, with_part};
ghost use Rattle.vdr_alerts.specs.Rows.{AreOrdered, IsPlaced, same_row};
ghost use Rattle.vdr_alerts.specs.Views.{HasRoom, IsOrdered, board_value, saying_value};

use crate::alert::Alert;
use crate::mark::Mark;
use crate::part::{Part, as_kept};
use crate::print::{print_change, print_gone};
use crate::rows::{found, put_row};
use crate::saying::Saying;
use std::alloc::{AllocError, Global};
use vdr_outside::{Failed, Sink};
use vdr_values::Reading;

/// What is known of alerts: the last sentences ALF and ALC of each group, source and sequential identifier, and the last priority and state of each
/// alert, in order.
#[derive(Drop)]
pub struct Board {
    pub(crate) parts: Vec<Part>,
    pub(crate) lists: Vec<Part>,
    pub(crate) alerts: Vec<Alert>,
}

fn place_of_part(rows: &[Part], part: &Part) -> Result<usize, usize>
    requires { AreOrdered part_cmp rows.now }
    ensures { IsPlaced (λ p. part_cmp p part.now) rows.now result }
{
    rows.binary_search_by(|row| row.order(part))
}

fn place_of_alert(rows: &[Alert], alert: &Alert) -> Result<usize, usize>
    requires { AreOrdered alert_cmp rows.now }
    ensures { IsPlaced (λ a. alert_cmp a alert.now) rows.now result }
{
    rows.binary_search_by(|row| row.order(alert))
}

// Tells an alert and keeps its state, where one is told.
fn tell_alert<O: Sink>(
    alerts: &mut Vec<Alert>,
    mark: &Mark,
    alert: Option<Alert>,
    title: &[u8],
    rest: &[u8],
    out: &mut O,
) -> Result<(), Failed>
    requires ordered { AreOrdered alert_cmp alerts.old.items }
    requires room { vec_len alerts.old + 1 ≤ vec_capacity alerts.old }
    ensures kept { OnOk result (alerts.new.items ≡ with_alert alerts.old.items alert) }
    ensures all { OnOk result (Appends (O.taken out.old) (O.taken out.new) (told_text mark.now alerts.old.items alert title.now rest.now)) }
    ensures front { AppendsFront (O.taken out.old) (O.taken out.new) (told_text mark.now alerts.old.items alert title.now rest.now) }
    ensures failed { OnErr result (alerts.new ≡ alerts.old) }
    ensures more { vec_len alerts.new ≤ vec_len alerts.old + 1 }
    ensures capacity { vec_capacity alerts.old ≤ vec_capacity alerts.new }
    ensures cause { HasCause (O.faults out.old) (O.faults out.new) result }
{
    let Some(alert) = alert else {
        return Ok(());
    };
    let place = place_of_alert(alerts.as_slice(), &alert);
    let before = found(alerts.as_slice(), place);
    print_change(mark, before, &alert, title, rest, out)?;
    put_row(alerts, place, alert);
    Ok(())
}

// Keeps a sentence.
fn keep_part(parts: &mut Vec<Part>, part: Part)
    requires ordered { AreOrdered part_cmp parts.old.items }
    requires room { vec_len parts.old + 1 ≤ vec_capacity parts.old }
    ensures kept { parts.new.items ≡ with_part parts.old.items part }
    ensures more { vec_len parts.new ≤ vec_len parts.old + 1 }
    ensures capacity { vec_capacity parts.old ≤ vec_capacity parts.new }
{
    let place = place_of_part(parts.as_slice(), &part);
    let row = as_kept(found(parts.as_slice(), place), part);
    put_row(parts, place, row);
}

// The last sentence of this one's group, source and sequential identifier.
fn before_part<'p>(parts: &'p [Part], part: &Part) -> Option<&'p Part>
    requires { AreOrdered part_cmp parts.now }
    ensures { option_copied result ≡ same_row part_cmp parts.now part.now }
{
    found(parts, place_of_part(parts, part))
}

// Takes a sentence of a list, alert by alert.
fn list_all(alerts: &mut [Alert], is_ended: bool, part: &Part, reading: &Reading<'_>)
    ensures { alerts.new ≡ map (behind_list is_ended part.now reading.now.values) alerts.old }
{
    for alert in alerts.iter_mut() {
        alert.list(is_ended, part, reading);
    }
}

impl Board {
    /// The board of no alert.
    pub fn new(alloc: Global) -> Board
        ensures { board_value result ≡ empty }
    {
        Board {
            parts: Vec::new(alloc),
            lists: Vec::new(alloc),
            alerts: Vec::new(alloc),
        }
    }

    /// Makes room for so many more sentences.
    ///
    /// `AllocError`: there was no memory. What is known stays as it was.
    pub fn make_room(&mut self, count: usize) -> Result<(), AllocError>
        ensures room { OnOk result (HasRoom self.new count) }
        ensures same { board_value self.new ≡ board_value self.old }
    {
        self.parts.reserve(count)?;
        self.lists.reserve(count)?;
        self.alerts.reserve(count)
    }

    fn tell_part<O: Sink>(&mut self, mark: &Mark, part: Part, out: &mut O) -> Result<(), Failed>
        requires ordered { IsOrdered (board_value self.old) }
        requires room { HasRoom self.old 1 }
        ensures kept { OnOk result (board_value self.new ≡ board_behind (board_value self.old) (Tells part)) }
        ensures all { OnOk result (Appends (O.taken out.old) (O.taken out.new) (saying_text mark.now (board_value self.old) (Tells part))) }
        ensures front { AppendsFront (O.taken out.old) (O.taken out.new) (saying_text mark.now (board_value self.old) (Tells part)) }
        ensures failed { OnErr result (self.new ≡ self.old) }
        ensures room { (n : ℕ) → HasRoom self.old (suc n) → HasRoom self.new n }
        ensures cause { HasCause (O.faults out.old) (O.faults out.new) result }
    {
        let before = before_part(self.parts.as_slice(), &part);
        let (alert, title) = (part.alert_told(before), part.title(before));
        tell_alert(&mut self.alerts, mark, alert, title, part.rest(), out)?;
        keep_part(&mut self.parts, part);
        Ok(())
    }

    fn tell_list<O: Sink>(
        &mut self,
        mark: &Mark,
        part: Part,
        reading: &Reading<'_>,
        out: &mut O,
    ) -> Result<(), Failed>
        requires ordered { IsOrdered (board_value self.old) }
        requires room { HasRoom self.old 1 }
        ensures kept { OnOk result (board_value self.new ≡ board_behind (board_value self.old) (Lists part reading.now.values)) }
        ensures all { OnOk result (Appends (O.taken out.old) (O.taken out.new) (saying_text mark.now (board_value self.old) (Lists part reading.now.values))) }
        ensures front { AppendsFront (O.taken out.old) (O.taken out.new) (saying_text mark.now (board_value self.old) (Lists part reading.now.values)) }
        ensures failed { OnErr result (self.new ≡ self.old) }
        ensures room { (n : ℕ) → HasRoom self.old (suc n) → HasRoom self.new n }
        ensures cause { HasCause (O.faults out.old) (O.faults out.new) result }
    {
        let is_ended = part.is_whole(before_part(self.lists.as_slice(), &part));
        print_gone(mark, is_ended, &part, reading, self.alerts.as_slice(), out)?;
        list_all(self.alerts.as_mut_slice(), is_ended, &part, reading);
        keep_part(&mut self.lists, part);
        Ok(())
    }

    /// Prints what a sentence tells of alerts, and keeps it. It takes no memory. Where a write fails, a front of the text is written, and what is known
    /// stays as it was.
    pub fn tell<O: Sink>(
        &mut self,
        mark: &Mark,
        saying: Saying<'_>,
        out: &mut O,
    ) -> Result<(), Failed>
        requires ordered { IsOrdered (board_value self.old) }
        requires room { HasRoom self.old 1 }
        ensures kept { OnOk result (board_value self.new ≡ board_behind (board_value self.old) (saying_value saying.entry)) }
        ensures all { OnOk result (Appends (O.taken out.old) (O.taken out.new) (saying_text mark.now (board_value self.old) (saying_value saying.entry))) }
        ensures front { AppendsFront (O.taken out.old) (O.taken out.new) (saying_text mark.now (board_value self.old) (saying_value saying.entry)) }
        ensures failed { OnErr result (self.new ≡ self.old) }
        ensures room { (n : ℕ) → HasRoom self.old (suc n) → HasRoom self.new n }
        ensures cause { HasCause (O.faults out.old) (O.faults out.new) result }
    {
        match saying {
            Saying::Tells(part) => self.tell_part(mark, part, out),
            Saying::Lists(part, reading) => self.tell_list(mark, part, &reading, out),
        }
    }
}
