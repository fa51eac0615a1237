// What a message reports.
//
// Names and numbers are kept as they were sent, "not available" among them: what to make of them is for who reads
// the table.
ghost use Rattle.std.specs.Prelude.{◌≡◌, ◌≤◌, ◌+◌, length, option_map};
ghost use Rattle.vdr_ais.specs.Bits.{bits_of};
ghost use Rattle.vdr_ais.specs.Reports.{aid, aircraft, base_station, class_a, class_b, long_range, report_in, with_both, with_name, with_position};
ghost use Rattle.vdr_ais.specs.Views.{message_of, position_said, report_said};

use crate::field::{bit_count, field, signed_field, thousands};
use crate::message::Message;
use crate::name::name_in;
use arrayvec::ArrayVec;

/// A position (ITU-R M.1371). Each number stands as it was sent, also one that means "not available"; None is what the message has no field
/// for.
#[derive(Clone, Copy, Drop)]
pub struct Position {
    /// In ten-thousandths of a minute, north above 0. Not available: 54,600,000.
    pub latitude: i32,
    /// In ten-thousandths of a minute, east above 0. Not available: 108,600,000.
    pub longitude: i32,
    /// Over ground, in tenths of a knot. Not available: 1,023; of an aircraft 10,230, in message 27 630.
    pub speed: Option<u16>,
    /// Over ground, in tenths of a degree. Not available: 3,600; in message 27 5,110.
    pub course: Option<u16>,
    /// True, in degrees. Not available: 511.
    pub heading: Option<u16>,
}

/// What an AIS message reports of a ship, an aircraft, a base station or an aid to navigation (ITU-R M.1371).
#[derive(Drop)]
pub struct Report {
    /// Maritime mobile service identity, below 2^30.
    pub mmsi: u32,
    pub position: Option<Position>,
    /// In six-bit ASCII, without the spaces at its end. Not available: empty.
    pub name: Option<ArrayVec<u8, 20>>,
}

fn class_a(message: &Message) -> Position
    requires { 168 ≤ length (bits_of (message_of message.now)) }
    ensures { position_said result ≡ class_a (bits_of (message_of message.now)) }
{
    Position {
        latitude: signed_field(message, 89, 115),
        longitude: signed_field(message, 61, 88),
        speed: Some(field(message, 50, 59) as u16),
        course: Some(field(message, 116, 127) as u16),
        heading: Some(field(message, 128, 136) as u16),
    }
}

fn base_station(message: &Message) -> Position
    requires { 168 ≤ length (bits_of (message_of message.now)) }
    ensures { position_said result ≡ base_station (bits_of (message_of message.now)) }
{
    Position {
        latitude: signed_field(message, 107, 133),
        longitude: signed_field(message, 79, 106),
        speed: None,
        course: None,
        heading: None,
    }
}

fn aircraft(message: &Message) -> Position
    requires { 168 ≤ length (bits_of (message_of message.now)) }
    ensures { position_said result ≡ aircraft (bits_of (message_of message.now)) }
{
    Position {
        latitude: signed_field(message, 89, 115),
        longitude: signed_field(message, 61, 88),
        speed: Some(10 * field(message, 50, 59) as u16),
        course: Some(field(message, 116, 127) as u16),
        heading: None,
    }
}

fn class_b(message: &Message) -> Position
    requires { 168 ≤ length (bits_of (message_of message.now)) }
    ensures { position_said result ≡ class_b (bits_of (message_of message.now)) }
{
    Position {
        latitude: signed_field(message, 85, 111),
        longitude: signed_field(message, 57, 84),
        speed: Some(field(message, 46, 55) as u16),
        course: Some(field(message, 112, 123) as u16),
        heading: Some(field(message, 124, 132) as u16),
    }
}

fn aid(message: &Message) -> Position
    requires { 272 ≤ length (bits_of (message_of message.now)) }
    ensures { position_said result ≡ aid (bits_of (message_of message.now)) }
{
    Position {
        latitude: signed_field(message, 192, 218),
        longitude: signed_field(message, 164, 191),
        speed: None,
        course: None,
        heading: None,
    }
}

fn long_range(message: &Message) -> Position
    requires { 96 ≤ length (bits_of (message_of message.now)) }
    ensures { position_said result ≡ long_range (bits_of (message_of message.now)) }
{
    Position {
        latitude: thousands(message, 62, 78),
        longitude: thousands(message, 44, 61),
        speed: Some(10 * field(message, 79, 84) as u16),
        course: Some(10 * field(message, 85, 93) as u16),
        heading: None,
    }
}

// A report of a position alone.
fn with_position(message: &Message, position: Position) -> Option<Report>
    requires { 96 ≤ length (bits_of (message_of message.now)) }
    ensures { option_map report_said result ≡ with_position (bits_of (message_of message.now)) (position_said position) }
{
    Some(Report {
        mmsi: field(message, 8, 37),
        position: Some(position),
        name: None,
    })
}

// A report of a name alone, which begins with this bit.
fn with_name(message: &Message, first: usize) -> Option<Report>
    requires small { first ≤ 143 }
    requires within { first + 120 ≤ length (bits_of (message_of message.now)) }
    ensures { option_map report_said result ≡ with_name (bits_of (message_of message.now)) first }
{
    Some(Report {
        mmsi: field(message, 8, 37),
        position: None,
        name: Some(name_in(message, first)),
    })
}

// A report of both.
fn with_both(message: &Message, position: Position, first: usize) -> Option<Report>
    requires small { first ≤ 143 }
    requires within { first + 120 ≤ length (bits_of (message_of message.now)) }
    ensures { option_map report_said result ≡ with_both (bits_of (message_of message.now)) (position_said position) first }
{
    Some(Report {
        mmsi: field(message, 8, 37),
        position: Some(position),
        name: Some(name_in(message, first)),
    })
}

/// What a message reports, by its number, where it has the bits that it needs: a position where it is a message 1, 2, 3, 4, 9, 18 or 27, a
/// name where it is a message 5 or part A of 24, and both where it is a message 19 or 21. None of any other. It takes no memory.
pub fn read_message(message: &Message) -> Option<Report>
    ensures { option_map report_said result ≡ report_in (bits_of (message_of message.now)) }
{
    let count = bit_count(message);
    if count < 96 {
        return None;
    }
    match field(message, 0, 5) {
        1..=3 if count >= 168 => with_position(message, class_a(message)),
        4 if count >= 168 => with_position(message, base_station(message)),
        5 if count >= 232 => with_name(message, 112),
        9 if count >= 168 => with_position(message, aircraft(message)),
        18 if count >= 168 => with_position(message, class_b(message)),
        19 if count >= 312 => with_both(message, class_b(message), 143),
        21 if count >= 272 => with_both(message, aid(message), 43),
        24 if count >= 160 && field(message, 38, 39) == 0 => with_name(message, 40),
        27 => with_position(message, long_range(message)),
        _ => None,
    }
}
