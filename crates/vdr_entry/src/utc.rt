// UTC stamps as text, written and read (ISO 8601).
//
// A text is a stamp's exactly where `write_utc` writes it: the calendar judges the date, and the stamp is written
// once more and compared. So a second 60 and a date before 1970 need no rule of their own.
ghost use Rattle.std.specs.Prelude.{◌≡◌, ◌++◌, ℕ, ℤ, pos, unsigned_abs, ◌≤◌, ◌<◌, ◌+◌, ◌%◌, codes, length, Some, IfSome, IfNone};
ghost use Rattle.jiff.specs.Words.{IsDate, epoch_day};
ghost use Rattle.jiff_core.specs.Calendar.{days_from_civil};
ghost use Rattle.vdr_terms.specs.Stamps.{IsStamp, last_stamp};
ghost use Rattle.vdr_entry.specs.Utc.{date_text, last_digits, time_text, utc_text};

use arrayvec::ArrayVec;
use jiff::ToSpan;
use jiff::civil::{self, Date};
use vdr_bytes::number;

/// The milliseconds of a day.
const DAY: u64 = 86_400_000;

/// Writes a UTC stamp, in milliseconds since 1970, as its 24 bytes of text: `2024-01-01T00:00:00.000Z` (ISO 8601).
/// What `into` held before is gone.
pub fn write_utc(utc: i64, into: &mut ArrayVec<u8, 24>)
    requires { IsStamp utc }
    ensures { into.new.items ≡ utc_text utc }
{
    *into = ArrayVec::from_array_in((), text_of(utc.unsigned_abs()));
}

fn text_of(utc: u64) -> [u8; 24]
    requires { utc ≤ last_stamp }
    ensures { result ≡ utc_text (pos utc) }
{
    let date = date_of(utc / DAY).to_plain();
    let year = date.year.unsigned_abs() as u64;
    characters(year, date.month as u64, date.day as u64, utc % DAY)
}

// The last digit of a number.
fn digit(n: u64) -> u8
    ensures { result ≡ 48 + n % 10 }
{
    b'0' + (n % 10) as u8
}

// The text of a date and of so many milliseconds since its midnight.
#[tactic(auto, unfolding(crate::specs::Utc::time_text))]
fn characters(year: u64, month: u64, day: u64, millis: u64) -> [u8; 24]
    ensures { result ≡ last_digits 4 year ++ codes "-" ++ last_digits 2 month ++ codes "-" ++ last_digits 2 day ++ codes "T" ++ time_text millis ++ codes "Z" }
{
    let (hour, minute) = (millis / 3_600_000, millis / 60_000 % 60);
    let (second, milli) = (millis / 1000 % 60, millis % 1000);
    [
        digit(year / 10 / 10 / 10),
        digit(year / 10 / 10),
        digit(year / 10),
        digit(year),
        b'-',
        digit(month / 10),
        digit(month),
        b'-',
        digit(day / 10),
        digit(day),
        b'T',
        digit(hour / 10),
        digit(hour),
        b':',
        digit(minute / 10),
        digit(minute),
        b':',
        digit(second / 10),
        digit(second),
        b'.',
        digit(milli / 10 / 10),
        digit(milli / 10),
        digit(milli),
        b'Z',
    ]
}

// The date that is so many days after 1 January 1970.
fn date_of(days: u64) -> Date
    requires { days ≤ 2_932_896 }
    ensures { epoch_day result ≡ pos days }
{
    let Ok(date) = civil::date(1970, 1, 1).checked_add((days as i64).days()) else {
        unreachable!()
    };
    date
}

/// The UTC stamp of which the bytes are the text: just the 24 bytes that `write_utc` writes, so that a date which the calendar
/// doesn't have, one before 1970, hour 24, second 60 and another form of ISO 8601 are none.
pub fn read_utc(bytes: &[u8]) -> Option<i64>
    ensures found { IfSome result (λ utc. IsStamp utc × (bytes.now ≡ utc_text utc)) }
    ensures none { IfNone result ((utc : ℤ) → IsStamp utc → bytes.now ≡ utc_text utc → ⊥) }
{
    let utc = stamp_in(bytes)?;
    let text = text_of(utc);
    if bytes == text.as_slice() {
        Some(utc as i64)
    } else {
        None
    }
}

/// No two stamps have one text: a text that `write_utc` writes reads back.
pub fn law_of_stamps()
    ensures { (a b : ℤ) → IsStamp a → IsStamp b → utc_text a ≡ utc_text b → a ≡ b }
{}

// The stamp that the digits of a text give. What stands between them, and whether minute and second are in their range, is not looked at.
fn stamp_in(text: &[u8]) -> Option<u64>
    ensures legal { IfSome result (λ utc. utc ≤ last_stamp) }
    ensures exact { (utc : ℤ) → IsStamp utc → text.now ≡ utc_text utc → result ≡ Some (unsigned_abs utc) }
{
    if text.len() != 24 {
        return None;
    }
    let days = days_in(&text[..10])?;
    let millis = millis_in(&text[11..23])?;
    Some(days * DAY + millis)
}

// The day since 1970 that the digits of a date give.
fn days_in(date: &[u8]) -> Option<u64>
    requires { length date.now ≡ 10 }
    ensures below { IfSome result (λ days. days ≤ 2_932_896) }
    ensures exact { (days : ℕ) → days ≤ 2_932_896 → date.now ≡ date_text days → result ≡ Some days }
{
    let year = number(&date[..4], 4)?;
    let month = number(&date[5..7], 2)?;
    let day = number(&date[8..10], 2)?;
    day_number(year as i16, month as i8, day as i8)
}

// The day since 1970 of a date, None where the calendar has none or it is before 1970.
fn day_number(year: i16, month: i8, day: i8) -> Option<u64>
    ensures below { IfSome result (λ days. days ≤ 2_932_896) }
    ensures exact { (days : ℕ) → IsDate year month day → days_from_civil year (unsigned_abs month) (unsigned_abs day) ≡ pos days
        → result ≡ Some days }
{
    let date = Date::new(year, month, day).ok()?;
    u64::try_from(date.to_plain().to_unix_epoch_day()).ok()
}

// The milliseconds since midnight that the digits of a time of day give, None where they are a day or more.
fn millis_in(time: &[u8]) -> Option<u64>
    requires { length time.now ≡ 12 }
    ensures below { IfSome result (λ millis. millis < 86_400_000) }
    ensures exact { (millis : ℕ) → millis < 86_400_000 → time.now ≡ time_text millis → result ≡ Some millis }
{
    let hour = number(&time[..2], 2)?;
    let minute = number(&time[3..5], 2)?;
    let second = number(&time[6..8], 2)?;
    let milli = number(&time[9..12], 3)?;
    let millis = ((hour * 60 + minute) * 60 + second) * 1000 + milli;
    if millis < DAY { Some(millis) } else { None }
}
