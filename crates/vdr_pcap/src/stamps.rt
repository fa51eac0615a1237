// The stamps of packets, in milliseconds since 1970, rounded down.
ghost use Rattle.std.specs.Prelude.{◌≡◌, ◌≤◌, ◌<◌, ◌+◌, ◌*◌, ◌/◌, ◌^◌, IfSome};
ghost use Rattle.vdr_terms.specs.Stamps.{last_stamp};
ghost use Rattle.vdr_pcap.specs.Stamps.{in_time, moved, stamp_of_fraction, stamp_of_units, units};

use vdr_terms::LAST_STAMP;

// A number of milliseconds, where it is a stamp.
fn in_time(milliseconds: u128) -> Option<u64>
    ensures is { result ≡ in_time milliseconds }
    ensures in_time { IfSome result (λ t. t ≤ last_stamp) }
{
    if milliseconds <= LAST_STAMP as u128 {
        Some(milliseconds as u64)
    } else {
        None
    }
}

/// The stamp of seconds and a fraction, in nanoseconds or microseconds.
pub(crate) fn stamp_of_fraction(nano: bool, seconds: u32, fraction: u32) -> Option<u64>
    ensures is { result ≡ stamp_of_fraction nano seconds fraction }
    ensures in_time { IfSome result (λ t. t ≤ last_stamp) }
{
    let part = if nano {
        fraction / 1_000_000
    } else {
        fraction / 1000
    };
    in_time(1000 * u128::from(seconds) + u128::from(part))
}

// A power of ten.
fn power_of_ten(exponent: u8) -> u128
    requires { exponent ≤ 22 }
    ensures value { result ≡ 10 ^ exponent }
    ensures positive { 0 < result }
{
    10_u128.pow(u32::from(exponent))
}

// So much of a second's decimal units, of which there are a power of ten.
fn by_tens(total: u128, exponent: u8) -> u128
    requires { total < 10 ^ 23 }
    ensures value { result ≡ total / 10 ^ exponent }
    ensures bound { result ≤ total }
{
    if exponent > 22 {
        return 0;
    }
    total / power_of_ten(exponent)
}

// So many units of a resolution, as milliseconds.
fn milliseconds_of(resolution: u8, stamp: u64) -> u128
    ensures value { result ≡ 1000 * stamp / units resolution }
    ensures bound { result ≤ 1000 * stamp }
{
    let total = 1000 * u128::from(stamp);
    if resolution >= 128 {
        return total >> (resolution - 128);
    }
    by_tens(total, resolution)
}

// With seconds to be added, in two's complement.
fn moved(milliseconds: u128, added: u64) -> Option<u64>
    requires { milliseconds < 2 ^ 80 }
    ensures is { result ≡ moved milliseconds added }
    ensures in_time { IfSome result (λ t. t ≤ last_stamp) }
{
    if added < 1 << 63 {
        return in_time(milliseconds + 1000 * u128::from(added));
    }
    let back = 1000 * ((1 << 64) - u128::from(added));
    if milliseconds < back {
        return None;
    }
    in_time(milliseconds - back)
}

/// The stamp of so many units of an interface's resolution, with its seconds to be added.
pub(crate) fn stamp_of_units(resolution: u8, added: u64, stamp: u64) -> Option<u64>
    ensures is { result ≡ stamp_of_units resolution added stamp }
    ensures in_time { IfSome result (λ t. t ≤ last_stamp) }
{
    moved(milliseconds_of(resolution, stamp), added)
}
