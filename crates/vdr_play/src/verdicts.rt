// The lines under a datagram's line: what its sentences, its image or its frame say, or why they are refused.
ghost use Rattle.std.specs.Prelude.{◌≡◌, ◌∷◌, ◌++◌, [], OnOk, map, codes};
ghost use Rattle.std.specs.List.{flat_map};
ghost use Rattle.std.specs.Io.KnownBytes.{Appends};
ghost use Rattle.vdr_datagram.specs.Tokens.{token};
ghost use Rattle.vdr_datagram.specs.Verdicts.{line_spans};
ghost use Rattle.vdr_datagram.specs.Verdicts.LineReading.{Good};
ghost use Rattle.vdr_datagram.specs.Views.{verdict_of};
ghost use Rattle.vdr_bytes.specs.Digits.{upper_digits};
ghost use Rattle.vdr_tag.specs.Views.{values_of};
ghost use Rattle.vdr_outside.specs.Causes.{HasCause};
ghost use Rattle.vdr_outside.specs.Writes.{AppendsFront};
ghost use Rattle.vdr_play.specs.Verdicts.{indented, sentence_words, tag_words, verdict_words};
ghost use Rattle.vdr_play.specs.Streams.{seen_under};
ghost use Rattle.vdr_play.specs.Texts.{text_under, verdict_text};
ghost use Rattle.vdr_values.specs.Readings.{reading};
ghost use Rattle.vdr_values.specs.Texts.{reading_word};

use crate::streams::{print_image, print_opaque, print_pcm};
use crate::tracks::Tracks;
use crate::words::print_words;
use arrayvec::ArrayVec;
use itoa::Buffer;
use vdr_bytes::upper_digits;
use vdr_datagram::{LineVerdict, Token, lines, token};
use vdr_outside::{Failed, Sink, write_all};
use vdr_sentence::{Bad, Sentence};
use vdr_tag::{BadTag, Tags};
use vdr_values::print_reading;

/// Prints a line of these words under a record's line.
pub(crate) fn print_indented<O: Sink>(words: &[&[u8]], out: &mut O) -> Result<(), Failed>
    ensures all { OnOk result (Appends (O.taken out.old) (O.taken out.new) (indented (map (λ word. word.now) words.now))) }
    ensures front { AppendsFront (O.taken out.old) (O.taken out.new) (indented (map (λ word. word.now) words.now)) }
    ensures cause { HasCause (O.faults out.old) (O.faults out.new) result }
{
    write_all(out, b" ")?;
    print_words(words, out)?;
    write_all(out, b"\n")
}

// The words are arguments of their own, so that they stand at one lifetime.
fn print_good_words<O: Sink>(
    source: &[u8],
    count: &[u8],
    address: &[u8],
    word: &[u8],
    out: &mut O,
) -> Result<(), Failed>
    ensures all { OnOk result (Appends (O.taken out.old) (O.taken out.new) (indented (codes "good" ∷ source.now ∷ count.now ∷ address.now ∷ word.now ∷ []))) }
    ensures front { AppendsFront (O.taken out.old) (O.taken out.new) (indented (codes "good" ∷ source.now ∷ count.now ∷ address.now ∷ word.now ∷ [])) }
    ensures cause { HasCause (O.faults out.old) (O.faults out.new) result }
{
    print_indented(&[b"good", source, count, address, word], out)
}

// Prints the line of a sentence: where it comes from, its line count, its address and what it reads as.
fn print_sentence<O: Sink>(
    source: &[u8],
    count: &[u8],
    sentence: &Sentence<'_>,
    out: &mut O,
) -> Result<(), Failed>
    ensures all { OnOk result (Appends (O.taken out.old) (O.taken out.new) (indented (codes "good" ∷ source.now ∷ count.now ∷ sentence.now.address.now ∷ reading_word (reading sentence.now.content.now) ∷ []))) }
    ensures front { AppendsFront (O.taken out.old) (O.taken out.new) (indented (codes "good" ∷ source.now ∷ count.now ∷ sentence.now.address.now ∷ reading_word (reading sentence.now.content.now) ∷ [])) }
    ensures cause { HasCause (O.faults out.old) (O.faults out.new) result }
{
    let mut word = ArrayVec::new();
    print_reading(sentence, &mut word);
    print_good_words(source, count, sentence.address, word.as_slice(), out)
}

fn print_good<O: Sink>(tags: &Tags<'_>, sentence: &Sentence<'_>, out: &mut O) -> Result<(), Failed>
    ensures all { OnOk result (Appends (O.taken out.old) (O.taken out.new) (indented (verdict_words (Good (values_of tags.now) (record { start = sentence.now.start; content = sentence.now.content.now }))))) }
    ensures front { AppendsFront (O.taken out.old) (O.taken out.new) (indented (verdict_words (Good (values_of tags.now) (record { start = sentence.now.start; content = sentence.now.content.now })))) }
    ensures cause { HasCause (O.faults out.old) (O.faults out.new) result }
{
    let source = tags.source.unwrap_or(b"-");
    match tags.line {
        Some(count) => {
            let mut buffer = Buffer::new();
            print_sentence(source, buffer.format(count).as_bytes(), sentence, out)
        }
        None => print_sentence(source, b"-", sentence, out),
    }
}

// Prints the refusal of a wrong checksum: what is refused, the number, and the written and the computed checksum.
fn print_wrong<O: Sink>(
    of: &[u8],
    number: &[u8],
    written: u8,
    computed: u8,
    out: &mut O,
) -> Result<(), Failed>
    ensures all { OnOk result (Appends (O.taken out.old) (O.taken out.new) (indented (of.now ∷ number.now ∷ upper_digits written ∷ upper_digits computed ∷ []))) }
    ensures front { AppendsFront (O.taken out.old) (O.taken out.new) (indented (of.now ∷ number.now ∷ upper_digits written ∷ upper_digits computed ∷ [])) }
    ensures cause { HasCause (O.faults out.old) (O.faults out.new) result }
{
    let written = upper_digits(written);
    let computed = upper_digits(computed);
    print_indented(&[of, number, &written, &computed], out)
}

fn print_bad_tag<O: Sink>(bad: BadTag, out: &mut O) -> Result<(), Failed>
    ensures all { OnOk result (Appends (O.taken out.old) (O.taken out.new) (indented (codes "tag" ∷ tag_words bad))) }
    ensures front { AppendsFront (O.taken out.old) (O.taken out.new) (indented (codes "tag" ∷ tag_words bad)) }
    ensures cause { HasCause (O.faults out.old) (O.faults out.new) result }
{
    match bad {
        BadTag::Unclosed => print_indented(&[b"tag", b"1"], out),
        BadTag::Missing => print_indented(&[b"tag", b"2"], out),
        BadTag::Wrong { written, computed } => print_wrong(b"tag", b"3", written, computed, out),
        BadTag::Field => print_indented(&[b"tag", b"4"], out),
        BadTag::Value => print_indented(&[b"tag", b"5"], out),
    }
}

fn print_bad_sentence<O: Sink>(bad: Bad, out: &mut O) -> Result<(), Failed>
    ensures all { OnOk result (Appends (O.taken out.old) (O.taken out.new) (indented (codes "sentence" ∷ sentence_words bad))) }
    ensures front { AppendsFront (O.taken out.old) (O.taken out.new) (indented (codes "sentence" ∷ sentence_words bad)) }
    ensures cause { HasCause (O.faults out.old) (O.faults out.new) result }
{
    match bad {
        Bad::Start => print_indented(&[b"sentence", b"1"], out),
        Bad::Length => print_indented(&[b"sentence", b"2"], out),
        Bad::Character => print_indented(&[b"sentence", b"3"], out),
        Bad::Address => print_indented(&[b"sentence", b"4"], out),
        Bad::Missing => print_indented(&[b"sentence", b"5"], out),
        Bad::Wrong { written, computed } => print_wrong(b"sentence", b"6", written, computed, out),
    }
}

fn print_verdict<O: Sink>(verdict: &LineVerdict<'_>, out: &mut O) -> Result<(), Failed>
    ensures all { OnOk result (Appends (O.taken out.old) (O.taken out.new) (indented (verdict_words (verdict_of verdict.now)))) }
    ensures front { AppendsFront (O.taken out.old) (O.taken out.new) (indented (verdict_words (verdict_of verdict.now))) }
    ensures cause { HasCause (O.faults out.old) (O.faults out.new) result }
{
    match verdict {
        LineVerdict::Good { tags, sentence } => print_good(tags, sentence, out),
        LineVerdict::Tag(bad) => print_bad_tag(*bad, out),
        LineVerdict::Sentence { bad, .. } => print_bad_sentence(*bad, out),
    }
}

fn print_lines<O: Sink>(payload: &[u8], out: &mut O) -> Result<(), Failed>
    ensures all { OnOk result (Appends (O.taken out.old) (O.taken out.new) (flat_map verdict_text (line_spans payload.now))) }
    ensures front { AppendsFront (O.taken out.old) (O.taken out.new) (flat_map verdict_text (line_spans payload.now)) }
    ensures cause { HasCause (O.faults out.old) (O.faults out.new) result }
{
    for line in lines(payload) {
        print_verdict(&line.verdict, out)?;
    }
    Ok(())
}

/// Prints what stands under the line of a datagram, and steps over what it holds.
pub(crate) fn print_under<O: Sink>(
    payload: &[u8],
    tracks: &mut Tracks,
    out: &mut O,
) -> Result<(), Failed>
    ensures all { OnOk result (Appends (O.taken out.old) (O.taken out.new) (text_under tracks.old (token payload.now) payload.now)) }
    ensures front { AppendsFront (O.taken out.old) (O.taken out.new) (text_under tracks.old (token payload.now) payload.now) }
    ensures seen { tracks.new ≡ seen_under tracks.old (token payload.now) payload.now }
    ensures cause { HasCause (O.faults out.old) (O.faults out.new) result }
{
    match token(payload) {
        Token::Sentences => print_lines(payload, out),
        Token::Image => print_image(payload, &mut tracks.image, out),
        Token::Pcm => print_pcm(payload, &mut tracks.pcm, out),
        Token::Other | Token::NoToken => print_opaque(out),
    }
}
