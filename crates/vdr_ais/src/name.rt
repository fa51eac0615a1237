// The name of a ship.
ghost use Rattle.std.specs.Prelude.{◌≡◌, ◌≤◌, ◌<◌, ◌+◌, ◌==◌, length, position};
ghost use Rattle.std.specs.List.{position_or_len};
ghost use Rattle.vdr_ais.specs.Bits.{bits_of};
ghost use Rattle.vdr_ais.specs.Reports.{character, letters, name_in, trimmed};
ghost use Rattle.vdr_ais.specs.Views.{message_of};

use crate::field::field;
use crate::message::Message;
use arrayvec::ArrayVec;

// The six-bit ASCII character of a number.
fn character(number: u32) -> u8
    requires { number < 64 }
    ensures { result ≡ character number }
{
    if number < 32 {
        number as u8 + 64
    } else {
        number as u8
    }
}

fn letters(message: &Message, first: usize) -> ArrayVec<u8, 20>
    requires small { first ≤ 143 }
    requires within { first + 120 ≤ length (bits_of (message_of message.now)) }
    ensures { result.items ≡ letters first (bits_of (message_of message.now)) }
{
    let mut letters = ArrayVec::new();
    for k in 0..20 {
        letters.push(character(field(message, first + 6 * k, first + 6 * k + 5)));
    }
    letters
}

fn first_at(letters: &[u8]) -> Option<usize>
    ensures { result ≡ position (λ c. c == 64) letters.now }
{
    letters.iter().position(|letter| *letter == b'@')
}

// How many letters stand before the first `@`.
fn name_end(letters: &[u8]) -> usize
    ensures { result ≡ position_or_len (λ c. c == 64) letters.now }
{
    first_at(letters).unwrap_or(letters.len())
}

// How many letters stand before the spaces at the end.
fn trimmed_end(letters: &[u8]) -> usize
    ensures { result ≡ length (trimmed letters.now) }
{
    let mut end = 0;
    for i in 0..letters.len() {
        if letters[i] != b' ' {
            end = i + 1;
        }
    }
    end
}

/// The name that begins with this bit of a message: it ends before the first `@`, and spaces at its end do not count.
pub(crate) fn name_in(message: &Message, first: usize) -> ArrayVec<u8, 20>
    requires small { first ≤ 143 }
    requires within { first + 120 ≤ length (bits_of (message_of message.now)) }
    ensures { result.items ≡ name_in first (bits_of (message_of message.now)) }
{
    let mut name = letters(message, first);
    let end = name_end(name.as_slice());
    name.truncate(end);
    let end = trimmed_end(name.as_slice());
    name.truncate(end);
    name
}
