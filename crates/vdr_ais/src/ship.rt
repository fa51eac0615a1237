// What is known of a ship, and its text.
ghost use Rattle.std.specs.Prelude.{◌≡◌, ◌≤◌, ◌<◌, ◌+◌, ◌++◌, codes, decimal, length, option_map};
ghost use Rattle.std.specs.Fmt.{signed_decimal};
ghost use Rattle.arrayvec.specs.ArrayVec.{array_vec_len};
ghost use Rattle.vdr_terms.specs.Stamps.{IsStamp};
ghost use Rattle.vdr_entry.specs.Utc.{utc_text};
ghost use Rattle.vdr_ais.specs.Targets.{mmsi_text, name_text, number_text, place_text, ship_text, told, unknown};
ghost use Rattle.vdr_ais.specs.Views.{position_said, report_said};

use crate::report::{Position, Report};
use arrayvec::ArrayVec;
use itoa::Buffer;
use std::marker::Model;
use vdr_entry::write_utc;

/// Room for the longest line: an MMSI of 10 bytes, a stamp of 24, a number of 20, two of 11, three of 5 and a name of 20, each with what is
/// behind it.
pub(crate) const ROOM: usize = 120;

/// How many digits an MMSI has, with the zeros before it.
const MMSI_DIGITS: usize = 9;

/// What is known of a ship.
#[derive(Drop)]
pub(crate) struct Ship {
    pub(crate) mmsi: u32,
    // The stamp of the record in which its last report ended.
    utc: i64,
    reports: u64,
    // The last that was reported.
    place: Option<Position>,
    // The last that was reported, empty where none was.
    name: ArrayVec<u8, 20>,
}

impl Model for Ship {
    ghost use Rattle.std.specs.Prelude.{ℕ, option_map};
    ghost use Rattle.vdr_terms.specs.Stamps.{IsStamp};
    ghost use Rattle.vdr_ais.specs.Targets.{Ship as AShip};
    ghost use Rattle.vdr_ais.specs.Views.{position_said};

    ghost Value = { ℕ × AShip };

    ghost view = { λ s. (s.mmsi, record { utc = s.utc; reports = s.reports; place = option_map position_said s.place; name = s.name.items }) };

    ghost invariant = { λ s. IsStamp s.utc };
}

// The bytes of a name.
fn name_of(bytes: &[u8]) -> ArrayVec<u8, 20>
    requires { length bytes.now ≤ 20 }
    ensures { result.items ≡ bytes.now }
{
    let mut name = ArrayVec::new();
    let _ = name.try_extend_from_slice(bytes);
    name
}

// Appends a text, for which there is room.
fn push_text(line: &mut ArrayVec<u8, ROOM>, text: &[u8])
    requires { array_vec_len line.old + length text.now ≤ 120 }
    ensures { line.new.items ≡ line.old.items ++ text.now }
{
    for byte in text {
        line.push(*byte);
    }
}

// A stamp and the space behind it.
fn push_utc(line: &mut ArrayVec<u8, ROOM>, utc: i64)
    requires stamp { IsStamp utc }
    requires room { array_vec_len line.old + 25 ≤ 120 }
    ensures text { line.new.items ≡ line.old.items ++ utc_text utc ++ codes " " }
    ensures short { array_vec_len line.new ≤ array_vec_len line.old + 25 }
{
    let mut text = ArrayVec::new();
    write_utc(utc, &mut text);
    push_text(line, text.as_slice());
    push_text(line, b" ");
}

// A number and the space behind it.
fn push_number(line: &mut ArrayVec<u8, ROOM>, number: u64)
    requires room { array_vec_len line.old + 21 ≤ 120 }
    ensures text { line.new.items ≡ line.old.items ++ decimal number ++ codes " " }
    ensures short { array_vec_len line.new ≤ array_vec_len line.old + 21 }
{
    push_text(line, Buffer::new().format(number).as_bytes());
    push_text(line, b" ");
}

// A signed number and the space behind it.
fn push_signed(line: &mut ArrayVec<u8, ROOM>, number: i32)
    requires room { array_vec_len line.old + 12 ≤ 120 }
    ensures text { line.new.items ≡ line.old.items ++ signed_decimal number ++ codes " " }
    ensures short { array_vec_len line.new ≤ array_vec_len line.old + 12 }
{
    push_text(line, Buffer::new().format(number).as_bytes());
    push_text(line, b" ");
}

// A number of 16 bits, or `-`, and the space behind it.
fn push_small(line: &mut ArrayVec<u8, ROOM>, number: Option<u16>)
    requires room { array_vec_len line.old + 6 ≤ 120 }
    ensures text { line.new.items ≡ line.old.items ++ number_text number ++ codes " " }
    ensures short { array_vec_len line.new ≤ array_vec_len line.old + 6 }
{
    match number {
        Some(number) => push_text(line, Buffer::new().format(number).as_bytes()),
        None => push_text(line, b"-"),
    }
    push_text(line, b" ");
}

// The MMSI in nine digits or more, and the space behind it.
fn push_mmsi(line: &mut ArrayVec<u8, ROOM>, mmsi: u32)
    requires room { array_vec_len line.old + 11 ≤ 120 }
    ensures text { line.new.items ≡ line.old.items ++ mmsi_text mmsi ++ codes " " }
    ensures short { array_vec_len line.new ≤ array_vec_len line.old + 11 }
{
    let mut buffer = Buffer::new();
    let digits = buffer.format(mmsi).as_bytes();
    for _ in 0..MMSI_DIGITS.saturating_sub(digits.len()) {
        line.push(b'0');
    }
    push_text(line, digits);
    push_text(line, b" ");
}

// The numbers of a position, each with the space behind it, or `-` for each.
fn push_place(line: &mut ArrayVec<u8, ROOM>, place: &Option<Position>)
    requires room { array_vec_len line.old + 42 ≤ 120 }
    ensures text { line.new.items ≡ line.old.items ++ place_text (option_map position_said place.now) ++ codes " " }
    ensures short { array_vec_len line.new ≤ array_vec_len line.old + 42 }
{
    let Some(place) = place else {
        push_text(line, b"- - - - - ");
        return;
    };
    push_signed(line, place.latitude);
    push_signed(line, place.longitude);
    push_small(line, place.speed);
    push_small(line, place.course);
    push_small(line, place.heading);
}

// A name, `-` where it is empty.
fn push_name(line: &mut ArrayVec<u8, ROOM>, name: &[u8])
    requires room { array_vec_len line.old + 20 ≤ 120 }
    requires few { length name.now ≤ 20 }
    ensures text { line.new.items ≡ line.old.items ++ name_text name.now }
    ensures short { array_vec_len line.new ≤ array_vec_len line.old + 20 }
{
    if name.is_empty() {
        push_text(line, b"-");
    } else {
        push_text(line, name);
    }
}

impl Ship {
    /// A ship that has not reported.
    pub(crate) fn unknown(mmsi: u32) -> Ship
        ensures { result ≡ (mmsi, unknown) }
    {
        Ship {
            mmsi,
            utc: 0,
            reports: 0,
            place: None,
            name: ArrayVec::new(),
        }
    }

    /// One more report of it.
    pub(crate) fn tell(&mut self, utc: i64, report: &Report)
        requires { IsStamp utc }
        ensures { self.new ≡ (self.old.0, told utc (report_said report.now) self.old.1) }
    {
        self.utc = utc;
        self.reports = self.reports.saturating_add(1);
        if let Some(position) = &report.position {
            self.place = Some(*position);
        }
        if let Some(name) = &report.name {
            self.name = name_of(name.as_slice());
        }
    }

    /// Its text: `MMSI UTC REPORTS LATITUDE LONGITUDE SPEED COURSE HEADING NAME` and LF.
    pub(crate) fn text(&self) -> ArrayVec<u8, ROOM>
        ensures { result.items ≡ ship_text self.now }
    {
        let mut line = ArrayVec::new();
        push_mmsi(&mut line, self.mmsi);
        push_utc(&mut line, self.utc);
        push_number(&mut line, self.reports);
        push_place(&mut line, &self.place);
        push_name(&mut line, self.name.as_slice());
        push_text(&mut line, b"\n");
        line
    }
}
