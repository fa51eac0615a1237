// A record as text: its line, and the lines under a datagram's.
ghost use Rattle.std.specs.Prelude.{◌≡◌, OnOk};
ghost use Rattle.std.specs.Io.KnownBytes.{Appends};
ghost use Rattle.vdr_outside.specs.Causes.{HasCause};
ghost use Rattle.vdr_outside.specs.Writes.{AppendsFront};
ghost use Rattle.vdr_play.specs.Streams.{seen_after};
ghost use Rattle.vdr_play.specs.Texts.{content_text, record_text};

use crate::line::print_line;
use crate::tracks::Tracks;
use crate::verdicts::print_under;
use vdr_entry::{Content, Record};
use vdr_outside::{Failed, Sink};

// Prints what stands under the line of a record.
fn print_below<O: Sink>(item: &Record, tracks: &mut Tracks, out: &mut O) -> Result<(), Failed>
    ensures all { OnOk result (Appends (O.taken out.old) (O.taken out.new) (content_text tracks.old item.now.content)) }
    ensures front { AppendsFront (O.taken out.old) (O.taken out.new) (content_text tracks.old item.now.content) }
    ensures seen { tracks.new ≡ seen_after tracks.old item.now.content }
    ensures cause { HasCause (O.faults out.old) (O.faults out.new) result }
{
    match item.content() {
        Content::Datagram(payload) => print_under(payload, tracks, out),
        Content::Start | Content::Gap(_) | Content::Stop => Ok(()),
    }
}

/// Prints a record (this project's profile): its line, and under a datagram's what the datagram holds. Each line ends with LF. Where a
/// write fails, a front of this text is written.
///
/// | Record | Line |
/// |---|---|
/// | Datagram | `PLACE GROUP NUMBER UTC data LENGTH PAYLOAD` |
/// | Gap | `PLACE GROUP FIRST UTC gap FULL RATE BAD LARGE` |
/// | Start, Stop | `PLACE - - UTC start`, `PLACE - - UTC stop` |
///
/// | Datagram | Lines under it, two spaces before each |
/// |---|---|
/// | of sentences | for each line `good SOURCE COUNT ADDRESS READING`, `tag NUMBER` or `sentence NUMBER` |
/// | of an image | `image SOURCE BLOCK SEQUENCE GREATEST BYTES first`, or `next` or `break` in place of `first` |
/// | of sound | `pcm MICROPHONE FRAME RATE COUNT first`, or `missing M` or `back` in place of `first` |
/// | any other | `opaque` |
///
/// READING is what the sentence's fields say, `-` where its formatter is not known, and `field N` where its field N is refused. The
/// tracks tell how an image's part and a frame follow the one printed before; once the record is printed they have seen it.
///
/// SOURCE and COUNT are `-` where the TAG blocks give none. NUMBER is that of the refusal, from 1, in the order of `BadTag` and of `Bad`.
/// After a wrong checksum's number follow the written and the computed checksum, as two upper-case hexadecimal digits each.
pub fn print_record<O: Sink>(item: &Record, tracks: &mut Tracks, out: &mut O) -> Result<(), Failed>
    ensures all { OnOk result (Appends (O.taken out.old) (O.taken out.new) (record_text tracks.old item.now)) }
    ensures front { AppendsFront (O.taken out.old) (O.taken out.new) (record_text tracks.old item.now) }
    ensures seen { OnOk result (tracks.new ≡ seen_after tracks.old item.now.content) }
    ensures cause { HasCause (O.faults out.old) (O.faults out.new) result }
{
    print_line(item, out)?;
    print_below(item, tracks, out)
}
