// What is kept of heartbeats, alarms and alerts, and what a record makes of it.
ghost use Rattle.std.specs.Prelude.{◌≡◌, ◌≤◌, ◌<◌, ◌+◌, ◌∷◌, [], ℕ, suc, List, Err, IfOk, OnErr, OnOk, length, option_copied};
ghost use Rattle.std.specs.Io.KnownBytes.{Appends};
ghost use Rattle.std.specs.List.{cons_option};
ghost use Rattle.std.specs.List.Sorted.{IsSearchInRange};
ghost use Rattle.vdr_terms.specs.Records.Content.{Datagram};
ghost use Rattle.vdr_datagram.specs.Views.{verdict_of};
ghost use Rattle.vdr_outside.specs.Causes.{HasCause, Rose};
ghost use Rattle.vdr_outside.specs.Writes.{AppendsFront};
ghost use Rattle.vdr_sources.specs.Tables.{reading_of};
ghost use Rattle.vdr_watch.specs.declared.fault.WatchFault.TheVariants.{NoMemory as WantsMemory, Output as HasFailed};
ghost use Rattle.vdr_alerts.specs.Views.{board_value, saying_value};
ghost use Rattle.vdr_watch.specs.Signs.{Alarms, Beats, Says, Sign as ASign, sign_in, signs_in, signs_of};
ghost use Rattle.vdr_watch.specs.SignViews.{sign_value};
ghost use Rattle.vdr_watch.specs.Supervision.{met_after};
ghost use Rattle.vdr_watch.specs.TableViews.{HasRoom, Keeps};
ghost use Rattle.vdr_watch.specs.Texts.{record_text, sign_text, signs_text};

use crate::alarm::Alarm;
use crate::fault::WatchFault;
use crate::heartbeat::Heartbeat;
use crate::place::{place_of_alarm, place_of_heartbeat};
use crate::print::{print_alarm, print_heartbeat};
use crate::sign::{Sign, sign_in};
use crate::watched::is_watched;
use std::alloc::AllocError;
use vdr_alerts::{Board, Mark, Saying, found, put_row};
use vdr_datagram::{LineVerdict, lines};
use vdr_entry::{Content, Record};
use vdr_outside::{Failed, Sink};

/// The last heartbeats, by group and then source, the last states of alarms, by group, source and number, and what is known of bridge alerts.
#[derive(Drop)]
pub(crate) struct Tables {
    pub(crate) heartbeats: Vec<Heartbeat>,
    pub(crate) alarms: Vec<Alarm>,
    pub(crate) board: Board,
}

impl Tables {
    // Makes room for so many more of each.
    fn make_room(&mut self, count: usize) -> Result<(), AllocError>
        ensures room { OnOk result (HasRoom self.new count) }
        ensures beats { self.new.heartbeats.items ≡ self.old.heartbeats.items }
        ensures alarms { self.new.alarms.items ≡ self.old.alarms.items }
        ensures board { board_value self.new.board ≡ board_value self.old.board }
    {
        self.heartbeats.reserve(count)?;
        self.alarms.reserve(count)?;
        self.board.make_room(count)
    }

    fn tell_heartbeat<O: Sink>(
        &mut self,
        mark: &Mark,
        beat: Heartbeat,
        out: &mut O,
    ) -> Result<(), Failed>
        requires kept { (met : List ASign) × Keeps met self.old }
        requires room { HasRoom self.old 1 }
        ensures kept { (met : List ASign) → Keeps met self.old → OnOk result (Keeps (Beats beat ∷ met) self.new) }
        ensures all { (met : List ASign) → Keeps met self.old → OnOk result (Appends (O.taken out.old) (O.taken out.new) (sign_text mark.now met (Beats beat))) }
        ensures front { (met : List ASign) → Keeps met self.old → AppendsFront (O.taken out.old) (O.taken out.new) (sign_text mark.now met (Beats beat)) }
        ensures failed { OnErr result (self.new ≡ self.old) }
        ensures room { (n : ℕ) → HasRoom self.old (suc n) → HasRoom self.new n }
        ensures cause { HasCause (O.faults out.old) (O.faults out.new) result }
    {
        let place = place_of_heartbeat(
            self.heartbeats.as_slice(),
            beat.group,
            beat.name.as_slice(),
        );
        let before = found(self.heartbeats.as_slice(), place);
        print_heartbeat(mark, before, beat.sequence, out)?;
        put_row(&mut self.heartbeats, place, beat);
        Ok(())
    }

    fn tell_alarm<O: Sink>(
        &mut self,
        mark: &Mark,
        alarm: Alarm,
        text: Option<&[u8]>,
        out: &mut O,
    ) -> Result<(), Failed>
        requires kept { (met : List ASign) × Keeps met self.old }
        requires room { HasRoom self.old 1 }
        ensures kept { (met : List ASign) → Keeps met self.old → OnOk result (Keeps (Alarms alarm (option_copied text.entry) ∷ met) self.new) }
        ensures all { (met : List ASign) → Keeps met self.old → OnOk result (Appends (O.taken out.old) (O.taken out.new) (sign_text mark.now met (Alarms alarm (option_copied text.entry)))) }
        ensures front { (met : List ASign) → Keeps met self.old → AppendsFront (O.taken out.old) (O.taken out.new) (sign_text mark.now met (Alarms alarm (option_copied text.entry))) }
        ensures failed { OnErr result (self.new ≡ self.old) }
        ensures room { (n : ℕ) → HasRoom self.old (suc n) → HasRoom self.new n }
        ensures cause { HasCause (O.faults out.old) (O.faults out.new) result }
    {
        let place = place_of_alarm(self.alarms.as_slice(), &alarm);
        let before = found(self.alarms.as_slice(), place);
        print_alarm(mark, before, &alarm, text, out)?;
        put_row(&mut self.alarms, place, alarm);
        Ok(())
    }

    fn tell_alert<O: Sink>(
        &mut self,
        mark: &Mark,
        saying: Saying<'_>,
        out: &mut O,
    ) -> Result<(), Failed>
        requires kept { (met : List ASign) × Keeps met self.old }
        requires room { HasRoom self.old 1 }
        ensures kept { (met : List ASign) → Keeps met self.old → OnOk result (Keeps (Says (saying_value saying.entry) ∷ met) self.new) }
        ensures all { (met : List ASign) → Keeps met self.old → OnOk result (Appends (O.taken out.old) (O.taken out.new) (sign_text mark.now met (Says (saying_value saying.entry)))) }
        ensures front { (met : List ASign) → Keeps met self.old → AppendsFront (O.taken out.old) (O.taken out.new) (sign_text mark.now met (Says (saying_value saying.entry))) }
        ensures failed { OnErr result (self.new ≡ self.old) }
        ensures room { (n : ℕ) → HasRoom self.old (suc n) → HasRoom self.new n }
        ensures cause { HasCause (O.faults out.old) (O.faults out.new) result }
    {
        self.board.tell(mark, saying, out)?;
        Ok(())
    }

    // Reads a line, tells what it shows, and keeps it.
    fn tell_sign<O: Sink>(
        &mut self,
        mark: &Mark,
        group: u8,
        verdict: &LineVerdict<'_>,
        out: &mut O,
    ) -> Result<(), Failed>
        requires kept { (met : List ASign) × Keeps met self.old }
        requires room { HasRoom self.old 1 }
        requires group { group ≤ 15 }
        requires short { length (reading_of (verdict_of verdict.now)).name ≤ 15 }
        ensures kept { (met : List ASign) → Keeps met self.old → OnOk result (Keeps (met_after met (cons_option (sign_in group mark.now.tick (verdict_of verdict.now)) [])) self.new) }
        ensures all { (met : List ASign) → Keeps met self.old
            → OnOk result (Appends (O.taken out.old) (O.taken out.new) (signs_text mark.now met (cons_option (sign_in group mark.now.tick (verdict_of verdict.now)) []))) }
        ensures front { (met : List ASign) → Keeps met self.old
            → AppendsFront (O.taken out.old) (O.taken out.new) (signs_text mark.now met (cons_option (sign_in group mark.now.tick (verdict_of verdict.now)) [])) }
        ensures failed { OnErr result (self.new ≡ self.old) }
        ensures room { (n : ℕ) → HasRoom self.old (suc n) → HasRoom self.new n }
        ensures cause { HasCause (O.faults out.old) (O.faults out.new) result }
    {
        match sign_in(group, mark.tick, verdict) {
            Some(Sign::Heartbeat(beat)) => self.tell_heartbeat(mark, beat, out),
            Some(Sign::Alarm(alarm, text)) => self.tell_alarm(mark, alarm, text, out),
            Some(Sign::Alert(saying)) => self.tell_alert(mark, saying, out),
            None => Ok(()),
        }
    }

    // Tells what a line shows, and keeps it.
    fn tell_line<O: Sink>(
        &mut self,
        mark: &Mark,
        group: u8,
        verdict: &LineVerdict<'_>,
        out: &mut O,
    ) -> Result<(), Failed>
        requires kept { (met : List ASign) × Keeps met self.old }
        requires room { HasRoom self.old 1 }
        requires group { group ≤ 15 }
        requires short { length (reading_of (verdict_of verdict.now)).name ≤ 15 }
        ensures kept { (met : List ASign) → Keeps met self.old → OnOk result (Keeps (met_after met (cons_option (sign_in group mark.now.tick (verdict_of verdict.now)) [])) self.new) }
        ensures all { (met : List ASign) → Keeps met self.old
            → OnOk result (Appends (O.taken out.old) (O.taken out.new) (signs_text mark.now met (cons_option (sign_in group mark.now.tick (verdict_of verdict.now)) []))) }
        ensures front { (met : List ASign) → Keeps met self.old
            → AppendsFront (O.taken out.old) (O.taken out.new) (signs_text mark.now met (cons_option (sign_in group mark.now.tick (verdict_of verdict.now)) [])) }
        ensures failed { OnErr result (self.new ≡ self.old) }
        ensures room { (n : ℕ) → HasRoom self.old (suc n) → HasRoom self.new n }
        ensures cause { HasCause (O.faults out.old) (O.faults out.new) result }
    {
        if !is_watched(verdict) {
            return Ok(());
        }
        self.tell_sign(mark, group, verdict, out)
    }

    // Tells what the lines of a datagram show, for which there is room.
    fn tell_lines<O: Sink>(
        &mut self,
        mark: &Mark,
        group: u8,
        payload: &[u8],
        out: &mut O,
    ) -> Result<(), Failed>
        requires kept { (met : List ASign) × Keeps met self.old }
        requires room { HasRoom self.old (length payload.now) }
        requires group { group ≤ 15 }
        ensures kept { (met : List ASign) → Keeps met self.old → OnOk result (Keeps (met_after met (signs_in group mark.now.tick payload.now)) self.new) }
        ensures still { (met : List ASign) × Keeps met self.new }
        ensures all { (met : List ASign) → Keeps met self.old → OnOk result (Appends (O.taken out.old) (O.taken out.new) (signs_text mark.now met (signs_in group mark.now.tick payload.now))) }
        ensures front { (met : List ASign) → Keeps met self.old → AppendsFront (O.taken out.old) (O.taken out.new) (signs_text mark.now met (signs_in group mark.now.tick payload.now)) }
        ensures cause { HasCause (O.faults out.old) (O.faults out.new) result }
    {
        for line in lines(payload) {
            self.tell_line(mark, group, &line.verdict, out)?;
        }
        Ok(())
    }

    // Makes room, and tells what the lines of a datagram show.
    fn add_datagram<O: Sink>(
        &mut self,
        item: &Record,
        payload: &[u8],
        out: &mut O,
    ) -> Result<(), WatchFault>
        requires kept { (met : List ASign) × Keeps met self.old }
        requires said { Datagram payload.now ≡ item.now.content }
        requires group { item.now.group ≤ 15 }
        ensures kept { (met : List ASign) → Keeps met self.old → OnOk result (Keeps (met_after met (signs_of item.now)) self.new) }
        ensures still { (met : List ASign) × Keeps met self.new }
        ensures all { (met : List ASign) → Keeps met self.old → OnOk result (Appends (O.taken out.old) (O.taken out.new) (record_text met item.now)) }
        ensures front { (met : List ASign) → Keeps met self.old → AppendsFront (O.taken out.old) (O.taken out.new) (record_text met item.now) }
        ensures memory { result ≡ Err WantsMemory → (self.new.heartbeats.items ≡ self.old.heartbeats.items) × (self.new.alarms.items ≡ self.old.alarms.items) × (board_value self.new.board ≡ board_value self.old.board) × (out.new ≡ out.old) }
        ensures later { O.faults out.old ≤ O.faults out.new }
        ensures output { result ≡ Err HasFailed → Rose (O.faults out.old) (O.faults out.new) }
    {
        self.make_room(payload.len())?;
        self.tell_lines(&Mark::of(item), item.group, payload, out)?;
        Ok(())
    }

    /// Tells what a record shows, and keeps it.
    pub(crate) fn add<O: Sink>(&mut self, item: &Record, out: &mut O) -> Result<(), WatchFault>
        requires { (met : List ASign) × Keeps met self.old }
        ensures kept { (met : List ASign) → Keeps met self.old → OnOk result (Keeps (met_after met (signs_of item.now)) self.new) }
        ensures still { (met : List ASign) × Keeps met self.new }
        ensures all { (met : List ASign) → Keeps met self.old → OnOk result (Appends (O.taken out.old) (O.taken out.new) (record_text met item.now)) }
        ensures front { (met : List ASign) → Keeps met self.old → AppendsFront (O.taken out.old) (O.taken out.new) (record_text met item.now) }
        ensures memory { result ≡ Err WantsMemory → (self.new.heartbeats.items ≡ self.old.heartbeats.items) × (self.new.alarms.items ≡ self.old.alarms.items) × (board_value self.new.board ≡ board_value self.old.board) × (out.new ≡ out.old) }
        ensures later { O.faults out.old ≤ O.faults out.new }
        ensures output { result ≡ Err HasFailed → Rose (O.faults out.old) (O.faults out.new) }
    {
        match item.content() {
            Content::Start => {
                self.heartbeats.clear();
                Ok(())
            }
            Content::Datagram(payload) => self.add_datagram(item, payload, out),
            Content::Gap(_) | Content::Stop => Ok(()),
        }
    }
}
