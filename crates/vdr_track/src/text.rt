// The text of a track, as GPX: its tags and its points.
ghost use Rattle.std.specs.Prelude.{◌≡◌, ◌≤◌, ◌+◌, ◌++◌, length};
ghost use Rattle.arrayvec.specs.ArrayVec.{array_vec_len};
ghost use Rattle.vdr_terms.specs.Stamps.{last_stamp};
ghost use Rattle.vdr_track.specs.Texts.{closing, entity, left_text, missed_text, name_end, opening_tags, point_text, segment_end, segment_start};

use crate::point::Point;
use arrayvec::ArrayVec;
use vdr_entry::write_utc;
use vdr_rows::decimal_text;

/// Room for the end of a segment, the start of the next one, and a point: 19 bytes, two numbers of 32, a stamp of 24, and 43 bytes around them.
const ROOM: usize = 150;

/// A part of the text.
pub(crate) type Part = ArrayVec<u8, ROOM>;

fn push(text: &mut Part, piece: &[u8])
    requires { array_vec_len text.old + length piece.now ≤ 150 }
    ensures { text.new.items ≡ text.old.items ++ piece.now }
{
    let _ = text.try_extend_from_slice(piece);
}

/// A byte of a name.
pub(crate) fn entity(byte: u8) -> Part
    ensures { result.items ≡ entity byte }
{
    let mut text = ArrayVec::new();
    match byte {
        b'&' => push(&mut text, b"&amp;"),
        b'<' => push(&mut text, b"&lt;"),
        b'>' => push(&mut text, b"&gt;"),
        b'"' => push(&mut text, b"&quot;"),
        _ => push(&mut text, &[byte]),
    }
    text
}

/// What stands before the name.
#[tactic(auto, unfolding(crate::specs::Texts::opening_tags))]
pub(crate) fn opening_tags() -> &'static [u8]
    ensures { result.now ≡ opening_tags }
{
    b"<?xml version=\"1.0\" encoding=\"UTF-8\"?>\n<gpx version=\"1.1\" creator=\"vdr\" xmlns=\"http://www.topografix.com/GPX/1/1\">\n<trk><name>"
}

/// What stands behind the name.
#[tactic(auto, unfolding(crate::specs::Texts::name_end))]
pub(crate) fn name_end() -> &'static [u8]
    ensures { result.now ≡ name_end }
{
    b"</name>\n"
}

#[tactic(auto, unfolding(crate::specs::Texts::segment_start))]
fn push_start(text: &mut Part)
    requires { array_vec_len text.old + 9 ≤ 150 }
    ensures text { text.new.items ≡ text.old.items ++ segment_start }
    ensures short { array_vec_len text.new ≡ array_vec_len text.old + 9 }
{
    push(text, b"<trkseg>\n");
}

#[tactic(auto, unfolding(crate::specs::Texts::segment_end))]
fn push_end(text: &mut Part)
    requires { array_vec_len text.old + 10 ≤ 150 }
    ensures text { text.new.items ≡ text.old.items ++ segment_end }
    ensures short { array_vec_len text.new ≡ array_vec_len text.old + 10 }
{
    push(text, b"</trkseg>\n");
}

#[tactic(auto, unfolding(crate::specs::Texts::closing))]
fn push_closing(text: &mut Part)
    requires { array_vec_len text.old ≤ 10 }
    ensures { text.new.items ≡ text.old.items ++ closing }
{
    push(text, b"</trk>\n</gpx>\n");
}

/// The end of the segment that is open, if one is.
pub(crate) fn left_text(last: &Option<Point>) -> Part
    ensures text { result.items ≡ left_text last.now }
    ensures short { array_vec_len result ≤ 10 }
{
    let mut text = ArrayVec::new();
    if last.is_some() {
        push_end(&mut text);
    }
    text
}

/// The same, where items of a group were missed.
pub(crate) fn missed_text(group: u8, last: &Option<Point>) -> Part
    ensures { result.items ≡ missed_text group last.now }
{
    match last {
        Some(point) if point.group == group => left_text(last),
        _ => ArrayVec::new(),
    }
}

/// What stands behind the segments, with the end of the one that is open.
pub(crate) fn closing_text(last: &Option<Point>) -> Part
    ensures { result.items ≡ left_text last.now ++ closing }
{
    let mut text = left_text(last);
    push_closing(&mut text);
    text
}

/// A point of the segment that is open.
pub(crate) fn point_text(point: &Point) -> Part
    requires { point.now.utc ≤ last_stamp }
    ensures text { result.items ≡ point_text point.now }
    ensures short { array_vec_len result ≤ 131 }
{
    let mut utc = ArrayVec::new();
    write_utc(point.utc as i64, &mut utc);
    let mut text = ArrayVec::new();
    push(&mut text, b"<trkpt lat=\"");
    push(&mut text, decimal_text(point.latitude).as_slice());
    push(&mut text, b"\" lon=\"");
    push(&mut text, decimal_text(point.longitude).as_slice());
    push(&mut text, b"\"><time>");
    push(&mut text, utc.as_slice());
    push(&mut text, b"</time></trkpt>\n");
    text
}

/// A point that begins a segment, behind the end of the one before it.
pub(crate) fn first_text(last: &Option<Point>, point: &Point) -> Part
    requires { point.now.utc ≤ last_stamp }
    ensures { result.items ≡ left_text last.now ++ segment_start ++ point_text point.now }
{
    let mut text = left_text(last);
    push_start(&mut text);
    push(&mut text, point_text(point).as_slice());
    text
}
