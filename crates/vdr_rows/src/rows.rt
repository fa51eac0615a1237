// What prints the table of values.
ghost use Rattle.std.specs.Prelude.{◌≡◌, ◌++◌, ◌∷◌, [], true, All, Err, List, OnOk, option_map};
ghost use Rattle.std.specs.Io.KnownBytes.{Appends};
ghost use Rattle.vdr_terms.specs.Records.{Record as Entry};
ghost use Rattle.vdr_datagram.specs.Views.{verdict_of};
ghost use Rattle.vdr_ais.specs.Lines.{lines_of};
ghost use Rattle.vdr_ais.specs.Pending.{HasPlace};
ghost use Rattle.vdr_ais.specs.Views.{message_of};
ghost use Rattle.vdr_outside.specs.Causes.{HasCause};
ghost use Rattle.vdr_outside.specs.Writes.{AppendsFront};
ghost use Rattle.vdr_visit.specs.Prints.{HasPrinted};
ghost use Rattle.vdr_visit.specs.Refusals.{HasOutputCause};
ghost use Rattle.vdr_visit.specs.declared.visit_refused.VisitorRefused.TheVariants.{Output};
ghost use Rattle.vdr_rows.specs.Carriers.{HasOneLine};
ghost use Rattle.vdr_rows.specs.Seeking.{is_carrier};
ghost use Rattle.vdr_rows.specs.Tables.{header_behind, line_at, line_rows};
ghost use Rattle.vdr_rows.specs.Texts.{rows_text};

use crate::carriers::{Carriers, carriers_of};
use crate::lines::{print_carrier, print_record};
use std::alloc::{AllocError, Global};
use vdr_ais::{Message, Unfinished};
use vdr_datagram::LineVerdict;
use vdr_entry::{Content, Record};
use vdr_outside::{Failed, Sink, write_all};
use vdr_visit::{Visitor, VisitorRefused};

/// The header of the table.
const HEADER: &[u8] =
    b"utc,place,transmission_group,source,sentence,item,name,value,unit,valid,text\n";

/// Prints the table of values of the records that it visits, in CSV (this project's profile): a row for each value that the good lines of
/// sentence datagrams say, for each that an AIS message reports behind the line that ends it, for each cause by which a Gap missed items, and for Start
/// and Stop. The header comes with the first record, or behind the last where there is none.
///
/// It takes memory for what the parts of AIS messages have in common, and none else.
#[derive(Drop)]
pub struct Rows {
    // Whether the header was printed.
    pub(crate) begun: bool,
    pub(crate) unfinished: Unfinished,
}

impl Rows {
    ghost use Rattle.vdr_rows.specs.Held.{HasVisited, is_some_seen};

    /// One that has visited no record.
    pub fn new(alloc: Global) -> Rows
        ensures { HasVisited result [] }
    {
        Rows {
            begun: false,
            unfinished: Unfinished::new(alloc),
        }
    }

    // Makes room for the messages of a record's lines.
    fn make_rooms(&mut self, item: &Record) -> Result<(), AllocError>
        ensures visited { (seen : List Entry) → HasVisited self.old seen → HasVisited self.new seen }
        ensures rooms { OnOk result (All (λ line. HasPlace self.new.unfinished line.key) (lines_of item.now.group item.now.content)) }
    {
        match item.content() {
            Content::Datagram(payload) => self.unfinished.make_rooms(item.group, payload),
            Content::Start | Content::Gap(_) | Content::Stop => Ok(()),
        }
    }

    // Prints the header, unless it was printed.
    fn print_header<O: Sink>(&self, out: &mut O) -> Result<(), Failed>
        ensures all { (seen : List Entry) → self.now.begun ≡ is_some_seen seen → OnOk result (Appends (O.taken out.old) (O.taken out.new) (header_behind seen)) }
        ensures front { (seen : List Entry) → self.now.begun ≡ is_some_seen seen → AppendsFront (O.taken out.old) (O.taken out.new) (header_behind seen) }
        ensures cause { HasCause (O.faults out.old) (O.faults out.new) result }
    {
        if self.begun {
            return Ok(());
        }
        write_all(out, HEADER)
    }

    // Prints a record, for whose messages there is room.
    fn print<O: Sink>(&mut self, item: &Record, out: &mut O) -> Result<(), Failed>
        requires { All (λ line. HasPlace self.old.unfinished line.key) (lines_of item.now.group item.now.content) }
        ensures visited { (seen : List Entry) → HasVisited self.old seen → OnOk result (HasVisited self.new (seen ++ item.now ∷ [])) }
        ensures all { (seen : List Entry) → HasVisited self.old seen → OnOk result (Appends (O.taken out.old) (O.taken out.new) (line_at seen item.now)) }
        ensures front { (seen : List Entry) → HasVisited self.old seen → AppendsFront (O.taken out.old) (O.taken out.new) (line_at seen item.now) }
        ensures cause { HasCause (O.faults out.old) (O.faults out.new) result }
    {
        self.print_header(out)?;
        self.begun = true;
        print_record(item, &mut self.unfinished, out)
    }

    // Prints a record whose only line was taken, and the message that ended at it.
    fn print_only<O: Sink>(
        &mut self,
        item: &Record,
        line: &LineVerdict<'_>,
        ended: &Option<Message>,
        out: &mut O,
    ) -> Result<(), Failed>
        requires { is_carrier (verdict_of line.now) ≡ true }
        ensures begun { OnOk result (self.new.begun ≡ true) }
        ensures same { self.new.unfinished ≡ self.old.unfinished }
        ensures all { (seen : List Entry) → self.old.begun ≡ is_some_seen seen
            → OnOk result (Appends (O.taken out.old) (O.taken out.new) (header_behind seen ++ rows_text (line_rows item.now (verdict_of line.now) (option_map message_of ended.now)))) }
        ensures front { (seen : List Entry) → self.old.begun ≡ is_some_seen seen
            → AppendsFront (O.taken out.old) (O.taken out.new) (header_behind seen ++ rows_text (line_rows item.now (verdict_of line.now) (option_map message_of ended.now))) }
        ensures cause { HasCause (O.faults out.old) (O.faults out.new) result }
    {
        self.print_header(out)?;
        self.begun = true;
        print_carrier(item, line, ended, out)
    }

    // Visits a record for whose messages there is room.
    fn visit_ready<O: Sink>(
        &mut self,
        item: &Record,
        out: &mut O,
    ) -> Result<(), VisitorRefused<AllocError>>
        requires { All (λ line. HasPlace self.old.unfinished line.key) (lines_of item.now.group item.now.content) }
        ensures has { (seen : List Entry) → HasVisited self.old seen → OnOk result (HasVisited self.new (seen ++ item.now ∷ [])) }
        ensures printed { (seen : List Entry) → HasVisited self.old seen → HasPrinted (line_at seen item.now) (O.taken out.old) (O.taken out.new) result }
        ensures cause { HasOutputCause (O.faults out.old) (O.faults out.new) (result ≡ Err Output) }
    {
        match self.print(item, out) {
            Ok(()) => Ok(()),
            Err(_) => Err(VisitorRefused::Output),
        }
    }

    // Visits a record of any lines.
    fn visit_any<O: Sink>(
        &mut self,
        item: &Record,
        out: &mut O,
    ) -> Result<(), VisitorRefused<AllocError>>
        ensures has { (seen : List Entry) → HasVisited self.old seen → OnOk result (HasVisited self.new (seen ++ item.now ∷ [])) }
        ensures printed { (seen : List Entry) → HasVisited self.old seen → HasPrinted (line_at seen item.now) (O.taken out.old) (O.taken out.new) result }
        ensures cause { HasOutputCause (O.faults out.old) (O.faults out.new) (result ≡ Err Output) }
    {
        if let Err(none) = self.make_rooms(item) {
            return Err(VisitorRefused::Own(none));
        }
        self.visit_ready(item, out)
    }

    // Visits a record by its only line, which is cut and read once: it is taken before anything is printed.
    fn visit_only<O: Sink>(
        &mut self,
        item: &Record,
        line: &LineVerdict<'_>,
        out: &mut O,
    ) -> Result<(), VisitorRefused<AllocError>>
        requires only { HasOneLine item.now.content (verdict_of line.now) }
        requires carrier { is_carrier (verdict_of line.now) ≡ true }
        ensures has { (seen : List Entry) → HasVisited self.old seen → OnOk result (HasVisited self.new (seen ++ item.now ∷ [])) }
        ensures printed { (seen : List Entry) → HasVisited self.old seen → HasPrinted (line_at seen item.now) (O.taken out.old) (O.taken out.new) result }
        ensures cause { HasOutputCause (O.faults out.old) (O.faults out.new) (result ≡ Err Output) }
    {
        let ended = match self.unfinished.try_take_line(item.group, line) {
            Ok(ended) => ended,
            Err(none) => return Err(VisitorRefused::Own(none)),
        };
        match self.print_only(item, line, &ended, out) {
            Ok(()) => Ok(()),
            Err(_) => Err(VisitorRefused::Output),
        }
    }
}

impl Visitor for Rows {
    ghost use Rattle.std.specs.Prelude.{⊤};
    ghost use Rattle.vdr_rows.specs.Held.{HasVisited};
    ghost use Rattle.vdr_rows.specs.Tables.{last_lines, line_at};

    /// There was no memory for what the parts of an AIS message have in common.
    type Reason = AllocError;

    ghost has = { λ _ seen now. HasVisited now seen };

    ghost line = { λ _ seen item. line_at seen item };

    ghost last = { λ _ seen. last_lines seen };

    ghost stops = { λ _ _ _. ⊤ };

    fn visit<O: Sink>(
        &mut self,
        item: &Record,
        out: &mut O,
    ) -> Result<(), VisitorRefused<AllocError>> {
        match carriers_of(item) {
            Carriers::NoLine => self.visit_ready(item, out),
            Carriers::OnlyLine(line) => self.visit_only(item, &line, out),
            Carriers::AnyLine => self.visit_any(item, out),
        }
    }

    fn finish<O: Sink>(&mut self, out: &mut O) -> Result<(), VisitorRefused<AllocError>> {
        match self.print_header(out) {
            Ok(()) => Ok(()),
            Err(_) => Err(VisitorRefused::Output),
        }
    }
}
