// Reading a sentence, or the first refusal that holds of it.
ghost use Rattle.std.specs.Prelude.{◌≡◌, ℕ, List, Ok, Err, Some, None, IfOk, IfErr, MatchResult, slice_index};
ghost use Rattle.vdr_bytes.specs.Checksum.{covered};
ghost use Rattle.vdr_sentence.specs.Refusals.{body, body_refusal, first_refusal, frame_refusal, reading};
ghost use Rattle.vdr_sentence.specs.Sentences.{IsSentence};

use crate::bad::Bad;
use crate::characters::{address_of, are_body_characters, is_address};
use crate::frame::Frame;
use crate::sentence::Sentence;
use vdr_bytes::{checksum, split_checksum};

/// The most bytes of a sentence, with its start and its CR LF (IEC 61162-1).
const LONGEST: usize = 82;

#[tactic(auto, unfolding(crate::specs::Refusals::frame_refusal, crate::specs::Refusals::body))]
fn frame_of(bytes: &[u8]) -> Result<Frame<'_>, Bad>
    ensures accepted { IfOk result (λ _. frame_refusal bytes.now ≡ None) }
    ensures start { IfOk result (λ frame. frame.start ≡ slice_index bytes.now 0) }
    ensures body { IfOk result (λ frame. frame.body.now ≡ body bytes.now) }
    ensures refused { IfErr result (λ bad. frame_refusal bytes.now ≡ Some bad) }
{
    match bytes {
        [b'$' | b'!', ..] => {}
        _ => return Err(Bad::Start),
    }
    if bytes.len() > LONGEST {
        return Err(Bad::Length);
    }
    match bytes {
        [start, body @ .., b'\r', b'\n'] => {
            Ok(Frame {
                start: *start,
                body,
            })
        }
        _ => Err(Bad::Length),
    }
}

#[tactic(auto, unfolding(crate::specs::Refusals::body_refusal))]
fn sentence_in(frame: Frame<'_>) -> Result<Sentence<'_>, Bad>
    ensures accepted { IfOk result (λ s. (body_refusal frame.entry.body.now ≡ None) × (s.start ≡ frame.entry.start) × (s.content.now ≡ covered frame.entry.body.now)) }
    ensures refused { IfErr result (λ bad. body_refusal frame.entry.body.now ≡ Some bad) }
{
    let body = frame.body;
    if !are_body_characters(body) {
        return Err(Bad::Character);
    }
    let address = address_of(body);
    if !is_address(address) {
        return Err(Bad::Address);
    }
    let Some((content, written)) = split_checksum(body) else {
        return Err(Bad::Missing);
    };
    let computed = checksum(content);
    if written != computed {
        return Err(Bad::Wrong { written, computed });
    }
    Ok(Sentence {
        start: frame.start,
        address,
        content,
    })
}

/// Reads one sentence of IEC 61162-1, which is all of the bytes, with its CR LF. Bytes that are no sentence have one refusal:
/// the first of the variants of `Bad`, in their order, that holds of them.
pub fn read_sentence(bytes: &[u8]) -> Result<Sentence<'_>, Bad>
    // What is read is what the bytes are, and bytes that are refused are no sentence.
    ensures sentence { IfOk result (λ s. IsSentence bytes.now s.start s.content.now) }
    ensures no_sentence { IfErr result (λ _. (start : ℕ) (content : List ℕ) → IsSentence bytes.now start content → ⊥) }
    ensures refused { IfErr result (λ bad. first_refusal bytes.now ≡ Some bad) }

    // The same as a function of the bytes.
    ensures exact { MatchResult result
        (λ s. reading bytes.now ≡ Ok (record { start = s.start; content = s.content.now }))
        (λ bad. reading bytes.now ≡ Err bad) }
{
    let frame = frame_of(bytes)?;
    sentence_in(frame)
}
