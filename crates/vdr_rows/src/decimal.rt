// Decimal numbers, and their text.
ghost use Rattle.std.specs.Prelude.{◌≡◌, ◌≤◌, ◌<◌, ◌+◌, ◌%◌, ◌^◌, ◌++◌, decimal, length};
ghost use Rattle.arrayvec.specs.ArrayVec.{array_vec_len};
ghost use Rattle.vdr_entry.specs.Utc.{last_digits};
ghost use Rattle.vdr_values.specs.Texts.{fraction_text};
ghost use Rattle.vdr_rows.specs.Decimals.{decimal_text, of_arc, of_count, of_hundred_millionths, of_millionths, of_minutes, of_tenths, sign_of};

use arrayvec::ArrayVec;
use itoa::Buffer;
use vdr_values::trimmed;

/// A decimal number.
#[derive(Clone, Copy, Drop)]
pub struct Decimal {
    /// Whether it is below zero. Zero may have it too, and prints without a sign.
    pub negative: bool,
    /// Its whole part.
    pub whole: u64,
    /// The hundred-millionths of its fraction: below 100,000,000.
    pub fraction: u32,
}

/// A whole number.
pub(crate) fn of_count(n: u64) -> Decimal
    ensures { result ≡ of_count n }
{
    Decimal {
        negative: false,
        whole: n,
        fraction: 0,
    }
}

/// A number of tenths.
pub(crate) fn of_tenths(n: u16) -> Decimal
    ensures { result ≡ of_tenths n }
{
    Decimal {
        negative: false,
        whole: u64::from(n / 10),
        fraction: 10_000_000 * u32::from(n % 10),
    }
}

/// A number of millionths.
pub(crate) fn of_millionths(negative: bool, millionths: u64) -> Decimal
    ensures { result ≡ of_millionths negative millionths }
{
    Decimal {
        negative,
        whole: millionths / 1_000_000,
        fraction: 100 * (millionths % 1_000_000) as u32,
    }
}

fn of_hundred_millionths(negative: bool, n: u64) -> Decimal
    ensures { result ≡ of_hundred_millionths negative n }
{
    Decimal {
        negative,
        whole: n / 100_000_000,
        fraction: (n % 100_000_000) as u32,
    }
}

/// The degrees of an angle of so many billionths of a minute, rounded to the nearest hundred-millionth of a degree, halves away from zero.
pub(crate) fn of_arc(negative: bool, billionths: u64) -> Decimal
    requires { billionths < 2 ^ 60 }
    ensures { result ≡ of_arc negative billionths }
{
    of_hundred_millionths(negative, (2 * billionths + 600) / 1200)
}

/// The same of ten-thousandths of a minute.
pub(crate) fn of_minutes(ten_thousandths: i32) -> Decimal
    ensures { result ≡ of_minutes ten_thousandths }
{
    let size = u64::from(ten_thousandths.unsigned_abs());
    of_arc(ten_thousandths < 0, 100_000 * size)
}

// The last digit of a number.
fn digit(n: u32) -> u8
    ensures { result ≡ 48 + n % 10 }
{
    b'0' + (n % 10) as u8
}

fn eight_digits(n: u32) -> [u8; 8]
    ensures { result ≡ last_digits 8 n }
{
    [
        digit(n / 10 / 10 / 10 / 10 / 10 / 10 / 10),
        digit(n / 10 / 10 / 10 / 10 / 10 / 10),
        digit(n / 10 / 10 / 10 / 10 / 10),
        digit(n / 10 / 10 / 10 / 10),
        digit(n / 10 / 10 / 10),
        digit(n / 10 / 10),
        digit(n / 10),
        digit(n),
    ]
}

/// The point and the digits of a fraction of so many hundred-millionths, without the zeros at their end. Nothing of none.
#[tactic(auto, unfolding(vdr_values::specs::Texts::fraction_text))]
pub(crate) fn fraction(hundred_millionths: u32) -> ArrayVec<u8, 9>
    ensures { result.items ≡ fraction_text 8 hundred_millionths }
{
    let mut text = ArrayVec::new();
    if hundred_millionths == 0 {
        return text;
    }
    text.push(b'.');
    let digits = eight_digits(hundred_millionths);
    let _ = text.try_extend_from_slice(trimmed(&digits));
    text
}

fn sign(value: Decimal) -> &'static [u8]
    ensures text { result.now ≡ sign_of value }
    ensures short { length result.now ≤ 1 }
{
    if value.negative && !(value.whole == 0 && value.fraction == 0) {
        b"-"
    } else {
        b""
    }
}

fn push(text: &mut ArrayVec<u8, 32>, piece: &[u8])
    requires { array_vec_len text.old + length piece.now ≤ 32 }
    ensures { text.new.items ≡ text.old.items ++ piece.now }
{
    let _ = text.try_extend_from_slice(piece);
}

fn push_whole(text: &mut ArrayVec<u8, 32>, n: u64)
    requires { array_vec_len text.old + 20 ≤ 32 }
    ensures text { text.new.items ≡ text.old.items ++ decimal n }
    ensures short { array_vec_len text.new ≤ array_vec_len text.old + 20 }
{
    push(text, Buffer::new().format(n).as_bytes());
}

/// The text of a decimal number, 30 bytes at most. No sign stands before zero, no zeros before the whole part and behind the fraction, and no
/// point without a fraction.
#[tactic(auto, unfolding(crate::specs::Decimals::decimal_text))]
pub fn decimal_text(value: Decimal) -> ArrayVec<u8, 32>
    ensures { result.items ≡ decimal_text value }
{
    let mut text = ArrayVec::new();
    push(&mut text, sign(value));
    push_whole(&mut text, value.whole);
    push(&mut text, fraction(value.fraction).as_slice());
    text
}
