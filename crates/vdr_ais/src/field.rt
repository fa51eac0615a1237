// The fields of a message by the numbers of their bits.
ghost use Rattle.std.specs.Prelude.{◌≡◌, ◌≤◌, ◌<◌, ◌+◌, ◌-◌, ◌*◌, ◌^◌, length, slice_index};
ghost use Rattle.vdr_ais.specs.Bits.{bits_of, field, scaled_field, signed, signed_field};
ghost use Rattle.vdr_ais.specs.Views.{message_of};

use crate::message::Message;

/// What a bit of six counts, the first the most.
const PLACES: [u8; 6] = [32, 16, 8, 4, 2, 1];

/// How many bits the message has.
pub(crate) fn bit_count(message: &Message) -> usize
    ensures { result ≡ length (bits_of (message_of message.now)) }
{
    (6 * message.sixes.len()).saturating_sub(usize::from(message.fill))
}

fn bit(message: &Message, at: usize) -> u32
    requires { at < length (bits_of (message_of message.now)) }
    ensures value { result ≡ slice_index (bits_of (message_of message.now)) at }
    ensures one { result ≤ 1 }
{
    u32::from(message.sixes[at / 6] / PLACES[at % 6] % 2)
}

/// The number that the bits from the first to the last write.
pub(crate) fn field(message: &Message, first: usize, last: usize) -> u32
    requires small { last < 512 }
    requires order { first ≤ last }
    requires short { last < first + 30 }
    requires within { last < length (bits_of (message_of message.now)) }
    ensures value { result ≡ field first last (bits_of (message_of message.now)) }
    ensures below { result < 2 ^ (last + 1 - first) }
{
    let mut number = 0;
    for at in first..last + 1 {
        number = 2 * number + bit(message, at);
    }
    number
}

// A number in two's complement, of which `half` is the first that is below 0.
fn signed(number: u32, half: u32) -> i32
    requires half { half ≤ 2 ^ 29 }
    requires below { number < 2 ^ 30 }
    ensures { result ≡ signed half number }
{
    if number < half {
        number as i32
    } else {
        number as i32 - 2 * half as i32
    }
}

/// The number in two's complement that the bits from the first to the last write.
pub(crate) fn signed_field(message: &Message, first: usize, last: usize) -> i32
    requires small { last < 512 }
    requires order { first ≤ last }
    requires short { last < first + 30 }
    requires within { last < length (bits_of (message_of message.now)) }
    ensures { result ≡ signed_field first last (bits_of (message_of message.now)) }
{
    signed(field(message, first, last), 1 << (last - first))
}

/// The same of at most eighteen bits, in units that are a thousand times greater.
pub(crate) fn thousands(message: &Message, first: usize, last: usize) -> i32
    requires small { last < 512 }
    requires order { first ≤ last }
    requires short { last < first + 18 }
    requires within { last < length (bits_of (message_of message.now)) }
    ensures { result ≡ scaled_field 1000 first last (bits_of (message_of message.now)) }
{
    signed(
        1000 * field(message, first, last),
        1000 * (1 << (last - first)),
    )
}
