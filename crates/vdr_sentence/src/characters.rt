// Which characters may stand where in a sentence, and which addresses are legal.
ghost use Rattle.std.specs.Prelude.{◌≡◌, ◌==◌, ◌||◌, position};
ghost use Rattle.std.specs.List.{list_all};
ghost use Rattle.vdr_sentence.specs.Characters.{begins_with_code, each_passes, is_body_character, is_character, is_refused, is_start};
ghost use Rattle.vdr_sentence.specs.Addresses.{address_of, is_address, is_capital_or_digit};

use vdr_bytes::is_hex_digit;

/// `$` of a parametric or `!` of an encapsulation sentence.
pub(crate) fn is_start(byte: u8) -> bool
    ensures { result ≡ is_start byte }
{
    byte == b'$' || byte == b'!'
}

fn is_refused(byte: u8) -> bool
    ensures { result ≡ is_refused byte }
{
    byte == b'$' || byte == b'!' || byte == b'\\' || byte == b'~' || byte == b'*'
}

fn begins_with_code(after: &[u8]) -> bool
    ensures { result ≡ begins_with_code after.now }
{
    match after {
        [high, low, ..] => is_hex_digit(*high) && is_hex_digit(*low),
        _ => false,
    }
}

fn is_character(byte: u8, after: &[u8]) -> bool
    ensures { result ≡ is_character byte after.now }
{
    byte >= 0x20 && byte <= 0x7E && !is_refused(byte) && (byte != b'^' || begins_with_code(after))
}

/// Whether each byte of the content of a sentence may stand where it does.
pub(crate) fn are_characters(content: &[u8]) -> bool
    ensures { result ≡ each_passes is_character content.now }
{
    let mut rest = content;
    while let [byte, after @ ..] = rest {
        if !is_character(*byte, after) {
            return false;
        }
        rest = after;
    }
    true
}

fn is_body_character(byte: u8, after: &[u8]) -> bool
    ensures { result ≡ is_body_character byte after.now }
{
    is_character(byte, after) || (byte == b'*' && after.len() == 2)
}

/// Whether each byte of the body of a sentence may stand where it does.
pub(crate) fn are_body_characters(body: &[u8]) -> bool
    ensures { result ≡ each_passes is_body_character body.now }
{
    let mut rest = body;
    while let [byte, after @ ..] = rest {
        if !is_body_character(*byte, after) {
            return false;
        }
        rest = after;
    }
    true
}

fn address_end(text: &[u8]) -> Option<usize>
    ensures { result ≡ position (λ b. (b == 44) || (b == 42)) text.now }
{
    text.iter().position(|byte| *byte == b',' || *byte == b'*')
}

/// The bytes before the first comma, the `*` of the checksum or the end.
pub(crate) fn address_of(text: &[u8]) -> &[u8]
    ensures { result.now ≡ address_of text.now }
{
    match address_end(text) {
        Some(end) => &text[..end],
        None => text,
    }
}

fn all_are_capitals_or_digits(address: &[u8]) -> bool
    ensures { result ≡ list_all is_capital_or_digit address.now }
{
    address.iter().all(|byte| (*byte >= b'A' && *byte <= b'Z') || (*byte >= b'0' && *byte <= b'9'))
}

/// Five capital letters or digits that do not begin with `P`, or `P` and at least three.
pub(crate) fn is_address(address: &[u8]) -> bool
    ensures { result ≡ is_address address.now }
{
    all_are_capitals_or_digits(address)
        && match address {
            [b'P', ..] => address.len() >= 4,
            _ => address.len() == 5,
        }
}
