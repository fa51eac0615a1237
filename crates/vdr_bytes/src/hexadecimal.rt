// Bytes as two hexadecimal digits, read in either case and written in upper case.
ghost use Rattle.std.specs.Prelude.{◌≡◌, ◌<◌, ◌/◌, ◌%◌, Some};
ghost use Rattle.vdr_bytes.specs.Digits.{hex_byte, hex_value, is_hex_digit, upper_digit, upper_digits};

fn hex_value(digit: u8) -> Option<u8>
    ensures { result ≡ hex_value digit }
{
    match digit {
        b'0'..=b'9' => Some(digit - b'0'),
        b'A'..=b'F' => Some(digit - b'A' + 10),
        b'a'..=b'f' => Some(digit - b'a' + 10),
        _ => None,
    }
}

/// Whether the byte is a hexadecimal digit, in either case.
pub fn is_hex_digit(byte: u8) -> bool
    ensures { result ≡ is_hex_digit byte }
{
    hex_value(byte).is_some()
}

/// The byte that two hexadecimal digits write, in either case. None where one of them is no such digit.
pub fn hex_byte(high: u8, low: u8) -> Option<u8>
    ensures { result ≡ hex_byte high low }
{
    let high = hex_value(high)?;
    let low = hex_value(low)?;
    Some(16 * high + low)
}

fn upper_digit(value: u8) -> u8
    requires { value < 16 }
    ensures { result ≡ upper_digit value }
{
    if value < 10 {
        b'0' + value
    } else {
        b'A' + (value - 10)
    }
}

/// The two digits of a byte, in upper case.
pub fn upper_digits(byte: u8) -> [u8; 2]
    ensures value { result ≡ upper_digits byte }
    ensures reads_back { hex_byte (upper_digit (byte / 16)) (upper_digit (byte % 16)) ≡ Some byte }
{
    [upper_digit(byte / 16), upper_digit(byte % 16)]
}
