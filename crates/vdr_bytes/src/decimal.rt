// Numbers in decimal digits.
ghost use Rattle.std.specs.Prelude.{◌≡◌, ◌≤◌, ◌<◌, ◌^◌, IfSome, length, true};
ghost use Rattle.std.specs.List.{list_all};
ghost use Rattle.vdr_bytes.specs.Digits.{are_digits, decimal_value, is_digit, number};

fn is_digit(byte: u8) -> bool
    ensures { result ≡ is_digit byte }
{
    byte >= b'0' && byte <= b'9'
}

fn all_are_digits(bytes: &[u8]) -> bool
    ensures { result ≡ list_all is_digit bytes.now }
{
    bytes.iter().all(|byte| is_digit(*byte))
}

fn are_digits(bytes: &[u8], most: usize) -> bool
    ensures { result ≡ are_digits most bytes.now }
{
    1 <= bytes.len() && bytes.len() <= most && all_are_digits(bytes)
}

fn decimal_value(digits: &[u8]) -> u64
    requires few { length digits.now ≤ 18 }
    requires digits { list_all is_digit digits.now ≡ true }
    ensures value { result ≡ decimal_value digits.now }
    ensures below { result < 10 ^ length digits.now }
{
    let mut value = 0;
    for digit in digits {
        value = 10 * value + u64::from(*digit - b'0');
    }
    value
}

/// The number that one to `most` decimal digits write, None for any other bytes. Leading zeros may stand before it.
pub fn number(bytes: &[u8], most: usize) -> Option<u64>
    requires { most ≤ 18 }
    ensures number { result ≡ number most bytes.now }
    ensures below { IfSome result (λ n. n < 10 ^ most) }
{
    if are_digits(bytes, most) {
        Some(decimal_value(bytes))
    } else {
        None
    }
}
