// The line of a record.
ghost use Rattle.std.specs.Prelude.{◌≡◌, ◌∷◌, OnOk};
ghost use Rattle.std.specs.Io.KnownBytes.{Appends};
ghost use Rattle.vdr_terms.specs.Records.Content.{Datagram, Gap};
ghost use Rattle.vdr_terms.specs.Legality.{IsRecord};
ghost use Rattle.vdr_terms.specs.Stamps.{IsStamp};
ghost use Rattle.vdr_entry.specs.Escape.{escaped};
ghost use Rattle.vdr_entry.specs.Lines.{mark_words, record_line, spaced, words_of};
ghost use Rattle.vdr_entry.specs.Utc.{utc_text};
ghost use Rattle.vdr_outside.specs.Causes.{HasCause};
ghost use Rattle.vdr_outside.specs.Writes.{AppendsFront};

use crate::escape::print_escaped;
use crate::words::print_words;
use arrayvec::ArrayVec;
use itoa::Buffer;
use vdr_entry::{Content, Record, write_utc};
use vdr_outside::{Failed, Sink, write_all};
use vdr_terms::{Counts, group_name};

fn utc_of(stamp: i64) -> ArrayVec<u8, 24>
    requires { IsStamp stamp }
    ensures { result.items ≡ utc_text stamp }
{
    let mut text = ArrayVec::new();
    write_utc(stamp, &mut text);
    text
}

// Prints a space and the payload.
fn print_payload<O: Sink>(payload: &[u8], out: &mut O) -> Result<(), Failed>
    ensures all { OnOk result (Appends (O.taken out.old) (O.taken out.new) (32 ∷ escaped payload.now)) }
    ensures front { AppendsFront (O.taken out.old) (O.taken out.new) (32 ∷ escaped payload.now) }
    ensures cause { HasCause (O.faults out.old) (O.faults out.new) result }
{
    write_all(out, b" ")?;
    print_escaped(payload, out)
}

fn print_datagram<O: Sink>(item: &Record, payload: &[u8], out: &mut O) -> Result<(), Failed>
    requires said { Datagram payload.now ≡ item.now.content }
    requires legal { IsRecord item.now }
    ensures all { OnOk result (Appends (O.taken out.old) (O.taken out.new) (spaced (words_of item.now.content item.now))) }
    ensures front { AppendsFront (O.taken out.old) (O.taken out.new) (spaced (words_of item.now.content item.now)) }
    ensures cause { HasCause (O.faults out.old) (O.faults out.new) result }
{
    let (mut number, mut length) = (Buffer::new(), Buffer::new());
    let utc = utc_of(item.utc);
    let words = [
        group_name(item.group).as_bytes(),
        number.format(item.number).as_bytes(),
        utc.as_slice(),
        b"data",
        length.format(payload.len()).as_bytes(),
    ];
    print_words(&words, out)?;
    print_payload(payload, out)
}

fn print_gap<O: Sink>(item: &Record, missed: &Counts, out: &mut O) -> Result<(), Failed>
    requires said { Gap missed.now ≡ item.now.content }
    requires legal { IsRecord item.now }
    ensures all { OnOk result (Appends (O.taken out.old) (O.taken out.new) (spaced (words_of item.now.content item.now))) }
    ensures front { AppendsFront (O.taken out.old) (O.taken out.new) (spaced (words_of item.now.content item.now)) }
    ensures cause { HasCause (O.faults out.old) (O.faults out.new) result }
{
    let mut first = Buffer::new();
    let (mut full, mut rate) = (Buffer::new(), Buffer::new());
    let (mut bad, mut large) = (Buffer::new(), Buffer::new());
    let utc = utc_of(item.utc);
    let words = [
        group_name(item.group).as_bytes(),
        first.format(item.number).as_bytes(),
        utc.as_slice(),
        b"gap",
        full.format(missed.full).as_bytes(),
        rate.format(missed.rate).as_bytes(),
        bad.format(missed.bad).as_bytes(),
        large.format(missed.large).as_bytes(),
    ];
    print_words(&words, out)
}

// The line of a record that belongs to no group.
fn print_mark<O: Sink>(item: &Record, mark: &[u8], out: &mut O) -> Result<(), Failed>
    requires { IsStamp item.now.utc }
    ensures all { OnOk result (Appends (O.taken out.old) (O.taken out.new) (spaced (mark_words mark.now item.now))) }
    ensures front { AppendsFront (O.taken out.old) (O.taken out.new) (spaced (mark_words mark.now item.now)) }
    ensures cause { HasCause (O.faults out.old) (O.faults out.new) result }
{
    let utc = utc_of(item.utc);
    print_words(&[b"-", b"-", utc.as_slice(), mark], out)
}

// What stands behind the place.
fn print_content<O: Sink>(item: &Record, out: &mut O) -> Result<(), Failed>
    ensures all { OnOk result (Appends (O.taken out.old) (O.taken out.new) (spaced (words_of item.now.content item.now))) }
    ensures front { AppendsFront (O.taken out.old) (O.taken out.new) (spaced (words_of item.now.content item.now)) }
    ensures cause { HasCause (O.faults out.old) (O.faults out.new) result }
{
    match item.content() {
        Content::Start => print_mark(item, b"start", out),
        Content::Datagram(payload) => print_datagram(item, payload, out),
        Content::Gap(missed) => print_gap(item, &missed, out),
        Content::Stop => print_mark(item, b"stop", out),
    }
}

/// Prints the line of a record, with its LF.
pub(crate) fn print_line<O: Sink>(item: &Record, out: &mut O) -> Result<(), Failed>
    ensures all { OnOk result (Appends (O.taken out.old) (O.taken out.new) (record_line item.now)) }
    ensures front { AppendsFront (O.taken out.old) (O.taken out.new) (record_line item.now) }
    ensures cause { HasCause (O.faults out.old) (O.faults out.new) result }
{
    let mut place = Buffer::new();
    write_all(out, place.format(item.place).as_bytes())?;
    print_content(item, out)?;
    write_all(out, b"\n")
}
