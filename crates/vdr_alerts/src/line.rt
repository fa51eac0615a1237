// How lines of supervision begin, and words for what is left out.
ghost use Rattle.std.specs.Prelude.{◌≡◌, ◌≤◌, ◌++◌, ◌∷◌, [], codes, OnOk, option_copied};
ghost use Rattle.std.specs.Io.KnownBytes.{Appends};
ghost use Rattle.std.specs.List.{concat, flat_map};
ghost use Rattle.vdr_outside.specs.Causes.{HasCause};
ghost use Rattle.vdr_outside.specs.Writes.{AppendsFront};
ghost use Rattle.vdr_alerts.specs.Lines.{front_text, letter_text, raw_text};

use crate::mark::Mark;
use arrayvec::ArrayVec;
use itoa::Buffer;
use vdr_entry::write_utc;
use vdr_outside::{Failed, Sink, write_all};
use vdr_play::print_escaped;
use vdr_terms::group_name;

/// What is printed for what a sentence leaves out.
pub const NONE: &[u8] = b"null";

// Writes the pieces one behind the other.
fn write_pieces<O: Sink>(pieces: &[&[u8]], out: &mut O) -> Result<(), Failed>
    ensures all { OnOk result (Appends (O.taken out.old) (O.taken out.new) (flat_map (λ piece. piece.now) pieces.now)) }
    ensures front { AppendsFront (O.taken out.old) (O.taken out.new) (flat_map (λ piece. piece.now) pieces.now) }
    ensures cause { HasCause (O.faults out.old) (O.faults out.new) result }
{
    for piece in pieces {
        write_all(out, piece)?;
    }
    Ok(())
}

// The pieces are arguments of their own, so that they stand at one lifetime.
fn print_words<O: Sink>(
    place: &[u8],
    utc: &[u8],
    word: &[u8],
    group: &[u8],
    name: &[u8],
    out: &mut O,
) -> Result<(), Failed>
    ensures all { OnOk result (Appends (O.taken out.old) (O.taken out.new) (concat (place.now ∷ codes " " ∷ utc.now ∷ word.now ∷ group.now ∷ codes " " ∷ name.now ∷ codes " " ∷ []))) }
    ensures front { AppendsFront (O.taken out.old) (O.taken out.new) (concat (place.now ∷ codes " " ∷ utc.now ∷ word.now ∷ group.now ∷ codes " " ∷ name.now ∷ codes " " ∷ [])) }
    ensures cause { HasCause (O.faults out.old) (O.faults out.new) result }
{
    write_pieces(&[place, b" ", utc, word, group, b" ", name, b" "], out)
}

/// Prints the place, the stamp, the word, the source and what is told of it. The word stands between spaces of its own. Where a write fails,
/// a front of this is written.
pub fn print_line<O: Sink>(
    mark: &Mark,
    word: &[u8],
    group: u8,
    name: &[u8],
    told: &[&[u8]],
    out: &mut O,
) -> Result<(), Failed>
    requires { group ≤ 15 }
    ensures all { OnOk result (Appends (O.taken out.old) (O.taken out.new) (front_text mark.now word.now (record { group = group; name = name.now }) ++ flat_map (λ piece. piece.now) told.now)) }
    ensures front { AppendsFront (O.taken out.old) (O.taken out.new) (front_text mark.now word.now (record { group = group; name = name.now }) ++ flat_map (λ piece. piece.now) told.now) }
    ensures cause { HasCause (O.faults out.old) (O.faults out.new) result }
{
    let mut place = Buffer::new();
    let mut utc = ArrayVec::new();
    write_utc(mark.utc, &mut utc);
    let place = place.format(mark.place).as_bytes();
    print_words(
        place,
        utc.as_slice(),
        word,
        group_name(group).as_bytes(),
        name,
        out,
    )?;
    write_pieces(told, out)
}

/// The letter, or `null`.
pub fn letter_text(letter: Option<u8>) -> ArrayVec<u8, 4>
    ensures { result.items ≡ letter_text letter }
{
    let mut text = ArrayVec::new();
    match letter {
        Some(letter) => text.push(letter),
        None => {
            let _ = text.try_extend_from_slice(NONE);
        }
    }
    text
}

/// Prints a text as a payload is escaped, or `null`. Where a write fails, a front of this is written.
pub fn print_text<O: Sink>(text: Option<&[u8]>, out: &mut O) -> Result<(), Failed>
    ensures all { OnOk result (Appends (O.taken out.old) (O.taken out.new) (raw_text (option_copied text.entry))) }
    ensures front { AppendsFront (O.taken out.old) (O.taken out.new) (raw_text (option_copied text.entry)) }
    ensures cause { HasCause (O.faults out.old) (O.faults out.new) result }
{
    match text {
        Some(text) => print_escaped(text, out),
        None => write_all(out, NONE),
    }
}
