// Writing a sentence with its checksum.
ghost use Rattle.std.specs.Prelude.{◌≡◌, ◌≤◌, ◌+◌, ◌/◌, ◌%◌, ◌++◌, Ok, Some, None, IfNone, OnOk, OnErr, IfErr, length};
ghost use Rattle.arrayvec.specs.ArrayVec.{array_vec_len};
ghost use Rattle.vdr_bytes.specs.Checksum.{checksum};
ghost use Rattle.vdr_bytes.specs.Digits.{hex_byte, upper_digit};
ghost use Rattle.vdr_sentence.specs.Refusals.{reading, writing_refusal};
ghost use Rattle.vdr_sentence.specs.Sentences.{IsContent, IsSentence, written_text};

use crate::bad::Bad;
use crate::characters::{address_of, are_characters, is_address, is_start};
use arrayvec::ArrayVec;
use vdr_bytes::{checksum, upper_digits};

/// The most bytes of a content: those of a sentence without start, checksum and CR LF.
const LONGEST_CONTENT: usize = 76;

#[tactic(auto, unfolding(crate::specs::Refusals::writing_refusal))]
fn refusal_of(start: u8, content: &[u8]) -> Option<Bad>
    ensures value { result ≡ writing_refusal start content.now }
    ensures legal { IfNone result (IsContent start content.now) }
{
    if !is_start(start) {
        Some(Bad::Start)
    } else if content.len() > LONGEST_CONTENT {
        Some(Bad::Length)
    } else if !are_characters(content) {
        Some(Bad::Character)
    } else if !is_address(address_of(content)) {
        Some(Bad::Address)
    } else {
        None
    }
}

fn append(into: &mut ArrayVec<u8, 82>, bytes: &[u8])
    requires { array_vec_len into.old + length bytes.now ≤ 82 }
    ensures { into.new.items ≡ into.old.items ++ bytes.now }
{
    let _ = into.try_extend_from_slice(bytes);
}

fn put(start: u8, content: &[u8], into: &mut ArrayVec<u8, 82>)
    requires { length content.now ≤ 76 }
    ensures written { into.new.items ≡ written_text start content.now }
    ensures digits { let sum = checksum content.now in hex_byte (upper_digit (sum / 16)) (upper_digit (sum % 16)) ≡ Some sum }
{
    let [high, low] = upper_digits(checksum(content));
    into.clear();
    into.push(start);
    append(into, content);
    append(into, &[b'*', high, low, b'\r', b'\n']);
}

/// Writes the sentence with this start and content into `into`, which then holds it alone: start, content, `*`, the checksum in
/// upper-case digits, CR LF. The refusals are `Start`, `Length` (a content of more than 76 bytes), `Character` (of the content,
/// which holds no `*`) and `Address`, tested in this order.
pub fn write_sentence(start: u8, content: &[u8], into: &mut ArrayVec<u8, 82>) -> Result<(), Bad>
    ensures accepted { OnOk result (writing_refusal start content.now ≡ None) }
    ensures written { OnOk result (into.new.items ≡ written_text start content.now) }

    // What was written is this sentence, and reads back.
    ensures sentence { OnOk result (IsSentence into.new.items start content.now) }
    ensures reads_back { OnOk result (reading into.new.items ≡ Ok (record { start = start; content = content.now })) }

    ensures refused { IfErr result (λ bad. writing_refusal start content.now ≡ Some bad) }
    ensures unchanged { OnErr result (into.new ≡ into.old) }
{
    if let Some(bad) = refusal_of(start, content) {
        return Err(bad);
    }
    put(start, content, into);
    Ok(())
}
