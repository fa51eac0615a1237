// Numbers, times, dates and angles as text.
ghost use Rattle.std.specs.Prelude.{◌≡◌, ◌≤◌, ◌<◌, ◌+◌, ◌/◌, ◌%◌, ◌++◌, ◌∷◌, length, decimal, codes};
ghost use Rattle.arrayvec.specs.ArrayVec.{array_vec_len};
ghost use Rattle.vdr_entry.specs.Utc.{last_digits};
ghost use Rattle.vdr_values.specs.Texts.{billionths_text, fraction_text, millionths_text, trimmed, value_text};
ghost use Rattle.vdr_values.specs.Views.{angle_value, date_value, number_value, time_value};

use crate::value::{Angle, Date, Num, Time};
use arrayvec::ArrayVec;
use itoa::Buffer;

/// Appends bytes.
pub(crate) fn append(out: &mut ArrayVec<u8, 512>, bytes: &[u8])
    requires { array_vec_len out.old + length bytes.now ≤ 512 }
    ensures { out.new.items ≡ out.old.items ++ bytes.now }
{
    let _ = out.try_extend_from_slice(bytes);
}

/// Appends a number in decimal digits.
pub(crate) fn print_decimal(n: u64, out: &mut ArrayVec<u8, 512>)
    requires { array_vec_len out.old + length (decimal n) ≤ 512 }
    ensures { out.new.items ≡ out.old.items ++ decimal n }
{
    append(out, Buffer::new().format(n).as_bytes());
}

// The last digit of a number.
fn digit(n: u32) -> u8
    ensures { result ≡ 48 + n % 10 }
{
    b'0' + (n % 10) as u8
}

fn six_digits(n: u32) -> [u8; 6]
    ensures { result ≡ last_digits 6 n }
{
    [
        digit(n / 10 / 10 / 10 / 10 / 10),
        digit(n / 10 / 10 / 10 / 10),
        digit(n / 10 / 10 / 10),
        digit(n / 10 / 10),
        digit(n / 10),
        digit(n),
    ]
}

fn nine_digits(n: u32) -> [u8; 9]
    ensures { result ≡ last_digits 9 n }
{
    [
        digit(n / 10 / 10 / 10 / 10 / 10 / 10 / 10 / 10),
        digit(n / 10 / 10 / 10 / 10 / 10 / 10 / 10),
        digit(n / 10 / 10 / 10 / 10 / 10 / 10),
        digit(n / 10 / 10 / 10 / 10 / 10),
        digit(n / 10 / 10 / 10 / 10),
        digit(n / 10 / 10 / 10),
        digit(n / 10 / 10),
        digit(n / 10),
        digit(n),
    ]
}

/// The digits without the zeros at their end.
pub fn trimmed(digits: &[u8]) -> &[u8]
    ensures { result.now ≡ trimmed digits.now }
{
    let mut shown = digits;
    while let [front @ .., last] = shown {
        if *last != b'0' {
            return shown;
        }
        shown = front;
    }
    shown
}

// The point and the digits of a fraction, without the zeros at their end.
fn print_digits(digits: &[u8], out: &mut ArrayVec<u8, 512>)
    requires { array_vec_len out.old + 1 + length (trimmed digits.now) ≤ 512 }
    ensures { out.new.items ≡ out.old.items ++ 46 ∷ trimmed digits.now }
{
    out.push(b'.');
    append(out, trimmed(digits));
}

#[tactic(auto, unfolding(crate::specs::Texts::fraction_text))]
fn print_millionths(millionths: u32, out: &mut ArrayVec<u8, 512>)
    requires { array_vec_len out.old + length (fraction_text 6 millionths) ≤ 512 }
    ensures { out.new.items ≡ out.old.items ++ fraction_text 6 millionths }
{
    if millionths != 0 {
        print_digits(&six_digits(millionths), out);
    }
}

#[tactic(auto, unfolding(crate::specs::Texts::fraction_text))]
fn print_billionths(billionths: u32, out: &mut ArrayVec<u8, 512>)
    requires { array_vec_len out.old + length (fraction_text 9 billionths) ≤ 512 }
    ensures { out.new.items ≡ out.old.items ++ fraction_text 9 billionths }
{
    if billionths != 0 {
        print_digits(&nine_digits(billionths), out);
    }
}

#[tactic(auto, unfolding(crate::specs::Texts::millionths_text))]
fn print_size(millionths: u64, out: &mut ArrayVec<u8, 512>)
    requires { array_vec_len out.old + length (millionths_text millionths) ≤ 512 }
    ensures { out.new.items ≡ out.old.items ++ millionths_text millionths }
{
    print_decimal(millionths / 1_000_000, out);
    print_millionths((millionths % 1_000_000) as u32, out);
}

#[tactic(auto, unfolding(crate::specs::Texts::billionths_text))]
fn print_minutes(billionths: u64, out: &mut ArrayVec<u8, 512>)
    requires { array_vec_len out.old + length (billionths_text billionths) ≤ 512 }
    ensures { out.new.items ≡ out.old.items ++ billionths_text billionths }
{
    print_decimal(billionths / 1_000_000_000, out);
    print_billionths((billionths % 1_000_000_000) as u32, out);
}

/// Appends a number, with its sign unless it is zero, and its fraction.
pub(crate) fn print_number(number: Num, out: &mut ArrayVec<u8, 512>)
    requires { array_vec_len out.old + length (value_text (number_value number)) ≤ 512 }
    ensures { out.new.items ≡ out.old.items ++ value_text (number_value number) }
{
    if number.negative && number.millionths != 0 {
        out.push(b'-');
    }
    print_size(number.millionths, out);
}

fn clock(time: Time) -> [u8; 8]
    ensures { result ≡ last_digits 2 time.hour ++ codes ":" ++ last_digits 2 time.minute ++ codes ":" ++ last_digits 2 time.second }
{
    let (hour, minute, second) = (
        u32::from(time.hour),
        u32::from(time.minute),
        u32::from(time.second),
    );
    [
        digit(hour / 10),
        digit(hour),
        b':',
        digit(minute / 10),
        digit(minute),
        b':',
        digit(second / 10),
        digit(second),
    ]
}

/// Appends a time as `hh:mm:ss` and its fraction.
pub(crate) fn print_time(time: Time, out: &mut ArrayVec<u8, 512>)
    requires { array_vec_len out.old + length (value_text (time_value time)) ≤ 512 }
    ensures { out.new.items ≡ out.old.items ++ value_text (time_value time) }
{
    append(out, &clock(time));
    print_millionths(time.millionths, out);
}

fn calendar(date: Date) -> [u8; 10]
    ensures { result ≡ value_text (date_value date) }
{
    let (year, month, day) = (
        u32::from(date.year),
        u32::from(date.month),
        u32::from(date.day),
    );
    [
        digit(year / 10 / 10 / 10),
        digit(year / 10 / 10),
        digit(year / 10),
        digit(year),
        b'-',
        digit(month / 10),
        digit(month),
        b'-',
        digit(day / 10),
        digit(day),
    ]
}

/// Appends a date as `yyyy-mm-dd`.
pub(crate) fn print_date(date: Date, out: &mut ArrayVec<u8, 512>)
    requires { array_vec_len out.old + length (value_text (date_value date)) ≤ 512 }
    ensures { out.new.items ≡ out.old.items ++ value_text (date_value date) }
{
    append(out, &calendar(date));
}

/// Appends the degrees of an angle, a space, and its minutes.
pub(crate) fn print_angle(angle: Angle, out: &mut ArrayVec<u8, 512>)
    requires { array_vec_len out.old + length (value_text (angle_value angle)) ≤ 512 }
    ensures { out.new.items ≡ out.old.items ++ value_text (angle_value angle) }
{
    print_decimal(u64::from(angle.degrees), out);
    out.push(b' ');
    print_minutes(angle.billionths, out);
}
