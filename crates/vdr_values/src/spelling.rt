// Reading numbers, times, dates and angles from their digits.
ghost use Rattle.std.specs.Prelude.{◌≡◌, ◌≤◌, ◌<◌, ◌^◌, ◌++◌, ◌-◌, length, drop, replicate, option_map, IfSome};
ghost use Rattle.vdr_values.specs.Spellings.{date, fraction, full_year, magnitude, parted, signed_number};
ghost use Rattle.vdr_values.specs.Forms.{form_value};
ghost use Rattle.vdr_values.specs.Forms as form;
ghost use Rattle.vdr_values.specs.Views.{angle_value, date_value, number_value, time_value};

use crate::place::place_of;
use crate::value::{Angle, Date, Num, Time};
use arrayvec::ArrayVec;
use vdr_bytes::number;

/// Millionths of one.
pub(crate) const MILLION: u64 = 1_000_000;

/// Millionths behind a point.
const MILLIONTHS: usize = 6;

/// Billionths behind a point.
const BILLIONTHS: usize = 9;

// The digits, filled up with zeros behind them to so many places.
fn filled(digits: &[u8], places: usize) -> ArrayVec<u8, 9>
    requires few { places ≤ 9 }
    requires within { length digits.now ≤ places }
    ensures { result.items ≡ digits.now ++ replicate (places - length digits.now) 48 }
{
    let mut filled = ArrayVec::new();
    let _ = filled.try_extend_from_slice(digits);
    for _ in digits.len()..places {
        filled.push(b'0');
    }
    filled
}

fn fraction(digits: &[u8], places: usize) -> Option<u64>
    requires few { places ≤ 9 }
    ensures value { result ≡ fraction places digits.now }
    ensures below { IfSome result (λ n. n < 10 ^ places) }
{
    if digits.len() > places {
        return None;
    }
    number(filled(digits, places).as_slice(), places)
}

fn behind_first(text: &[u8]) -> &[u8]
    ensures { result.now ≡ drop 1 text.now }
{
    match text {
        [] => text,
        [_, behind @ ..] => behind,
    }
}

// What stands before the point, and the fraction behind it.
fn parted(text: &[u8], places: usize) -> Option<(&[u8], u64)>
    requires few { places ≤ 9 }
    ensures value { option_map (λ (front, n). (front.now, n)) result ≡ parted places text.now }
    ensures below { IfSome result (λ (front, n). n < 10 ^ places) }
{
    let (front, rest) = text.split_at(place_of(text, b'.'));
    let n = fraction(behind_first(rest), places)?;
    Some((front, n))
}

fn magnitude(text: &[u8]) -> Option<u64>
    ensures value { result ≡ magnitude text.now }
    ensures below { IfSome result (λ n. n < 10 ^ 15) }
{
    let (front, millionths) = parted(text, MILLIONTHS)?;
    let whole = number(front, 9)?;
    Some(MILLION * whole + millionths)
}

/// The number that one to nine digits write, with a fraction of none to six and a minus sign where they stand.
pub(crate) fn signed_number(text: &[u8]) -> Option<Num>
    ensures spelled { option_map number_value result ≡ signed_number text.now }
    ensures value { option_map number_value result ≡ form_value form.Number text.now }
{
    let (negative, digits) = match text {
        [b'-', digits @ ..] => (true, digits),
        _ => (false, text),
    };
    let millionths = magnitude(digits)?;
    Some(Num {
        negative,
        millionths,
    })
}

/// The time that `hhmmss` writes, with a fraction of none to six digits.
pub(crate) fn time_of_day(text: &[u8]) -> Option<Time>
    ensures { option_map time_value result ≡ form_value form.Time text.now }
{
    let (front, millionths) = parted(text, MILLIONTHS)?;
    if front.len() != 6 {
        return None;
    }
    let hour = number(&front[..2], 2)? as u8;
    let minute = number(&front[2..4], 2)? as u8;
    let second = number(&front[4..], 2)? as u8;
    if hour > 23 || minute > 59 || second > 60 {
        return None;
    }
    Some(Time {
        hour,
        minute,
        second,
        millionths: millionths as u32,
    })
}

// Years from 80 on are those of the twentieth century.
fn full_year(year: u16) -> u16
    requires { year ≤ 99 }
    ensures { result ≡ full_year year }
{
    if year >= 80 { 1900 + year } else { 2000 + year }
}

/// The date that `ddmmyy` writes.
pub(crate) fn date(text: &[u8]) -> Option<Date>
    ensures { option_map date_value result ≡ form_value form.Date text.now }
{
    if text.len() != 6 {
        return None;
    }
    let day = number(&text[..2], 2)? as u8;
    let month = number(&text[2..4], 2)? as u8;
    let year = number(&text[4..], 2)? as u16;
    if month < 1 || month > 12 || day < 1 || day > 31 {
        return None;
    }
    Some(Date {
        year: full_year(year),
        month,
        day,
    })
}

/// The latitude or longitude that so many digits of degrees and two of minutes write, with a fraction of none to so many digits.
pub(crate) fn angle(text: &[u8], digits: usize, greatest: u8, places: usize) -> Option<Angle>
    requires some { 1 ≤ digits }
    requires few { digits ≤ 3 }
    requires half_circle { greatest ≤ 180 }
    requires places { places ≤ 9 }
    ensures { option_map angle_value result ≡ form_value (form.Angle digits greatest places) text.now }
{
    let (front, billionths) = parted(text, BILLIONTHS)?;
    if front.len() != digits + 2 || text.len() > digits + 3 + places {
        return None;
    }
    let (degrees, minutes) = front.split_at(digits);
    let degrees = number(degrees, digits)? as u32;
    let minutes = number(minutes, 2)?;
    if degrees > u32::from(greatest) || minutes > 59 {
        return None;
    }
    Some(Angle {
        degrees: degrees as u8,
        billionths: 1_000_000_000 * minutes + billionths,
    })
}
