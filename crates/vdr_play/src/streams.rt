// The lines under image datagrams and PCM frames.
ghost use Rattle.std.specs.Prelude.{◌≡◌, ◌∷◌, [], OnOk, codes, decimal, option_map};
ghost use Rattle.std.specs.Io.KnownBytes.{Appends};
ghost use Rattle.vdr_image.specs.Images.{image_in};
ghost use Rattle.vdr_image.specs.Tracks.{part_of};
ghost use Rattle.vdr_image.specs.Views.{header_of};
ghost use Rattle.vdr_pcm.specs.Datagrams.{pcm_in};
ghost use Rattle.vdr_pcm.specs.Tracks.{number_of};
ghost use Rattle.vdr_pcm.specs.Views.{frame_of};
ghost use Rattle.vdr_outside.specs.Causes.{HasCause};
ghost use Rattle.vdr_outside.specs.Writes.{AppendsFront};
ghost use Rattle.vdr_play.specs.Streams.{image_step_word, image_text, image_words, latest, opaque_text, frame_words, pcm_text};
ghost use Rattle.vdr_play.specs.Verdicts.{indented};

use crate::verdicts::print_indented;
use itoa::Buffer;
use vdr_image::{ImageHeader, ImageStep, ImageTrack, read_image};
use vdr_outside::{Failed, Sink};
use vdr_pcm::{PcmFrame, PcmStep, PcmTrack, read_pcm};

/// Prints the line under a datagram that is told by its bytes alone.
pub(crate) fn print_opaque<O: Sink>(out: &mut O) -> Result<(), Failed>
    ensures all { OnOk result (Appends (O.taken out.old) (O.taken out.new) opaque_text) }
    ensures front { AppendsFront (O.taken out.old) (O.taken out.new) opaque_text }
    ensures cause { HasCause (O.faults out.old) (O.faults out.new) result }
{
    print_indented(&[b"opaque"], out)
}

fn word_of(step: ImageStep) -> &'static [u8]
    ensures { result.now ≡ image_step_word step }
{
    match step {
        ImageStep::First => b"first",
        ImageStep::Next => b"next",
        ImageStep::Break => b"break",
    }
}

// The words are arguments of their own, so that they stand at one lifetime.
fn print_image_words<O: Sink>(
    source: &[u8],
    block: &[u8],
    sequence: &[u8],
    greatest: &[u8],
    bytes: &[u8],
    how: &[u8],
    out: &mut O,
) -> Result<(), Failed>
    ensures all { OnOk result (Appends (O.taken out.old) (O.taken out.new) (indented (codes "image" ∷ source.now ∷ block.now ∷ sequence.now ∷ greatest.now ∷ bytes.now ∷ how.now ∷ []))) }
    ensures front { AppendsFront (O.taken out.old) (O.taken out.new) (indented (codes "image" ∷ source.now ∷ block.now ∷ sequence.now ∷ greatest.now ∷ bytes.now ∷ how.now ∷ [])) }
    ensures cause { HasCause (O.faults out.old) (O.faults out.new) result }
{
    print_indented(
        &[b"image", source, block, sequence, greatest, bytes, how],
        out,
    )
}

fn print_header<O: Sink>(
    header: &ImageHeader<'_>,
    step: ImageStep,
    out: &mut O,
) -> Result<(), Failed>
    ensures all { OnOk result (Appends (O.taken out.old) (O.taken out.new) (indented (image_words (header_of header.now) step))) }
    ensures front { AppendsFront (O.taken out.old) (O.taken out.new) (indented (image_words (header_of header.now) step)) }
    ensures cause { HasCause (O.faults out.old) (O.faults out.new) result }
{
    let (mut block, mut sequence) = (Buffer::new(), Buffer::new());
    let (mut greatest, mut bytes) = (Buffer::new(), Buffer::new());
    print_image_words(
        header.source,
        block.format(header.block).as_bytes(),
        sequence.format(header.sequence).as_bytes(),
        greatest.format(header.greatest).as_bytes(),
        bytes.format(header.body.len()).as_bytes(),
        word_of(step),
        out,
    )
}

/// Prints the line under a datagram with a token of image transfer, and steps over its header if it has one.
pub(crate) fn print_image<O: Sink>(
    payload: &[u8],
    track: &mut ImageTrack,
    out: &mut O,
) -> Result<(), Failed>
    ensures all { OnOk result (Appends (O.taken out.old) (O.taken out.new) (image_text track.old (image_in payload.now))) }
    ensures front { AppendsFront (O.taken out.old) (O.taken out.new) (image_text track.old (image_in payload.now)) }
    ensures seen { track.new ≡ latest track.old (option_map part_of (image_in payload.now)) }
    ensures cause { HasCause (O.faults out.old) (O.faults out.new) result }
{
    let Some(header) = read_image(payload) else {
        return print_opaque(out);
    };
    let step = track.step(&header);
    print_header(&header, step, out)
}

// The words are arguments of their own, so that they stand at one lifetime.
fn print_frame_words<O: Sink>(
    microphone: &[u8],
    number: &[u8],
    rate: &[u8],
    count: &[u8],
    how: &[u8],
    out: &mut O,
) -> Result<(), Failed>
    ensures all { OnOk result (Appends (O.taken out.old) (O.taken out.new) (indented (codes "pcm" ∷ microphone.now ∷ number.now ∷ rate.now ∷ count.now ∷ how.now ∷ []))) }
    ensures front { AppendsFront (O.taken out.old) (O.taken out.new) (indented (codes "pcm" ∷ microphone.now ∷ number.now ∷ rate.now ∷ count.now ∷ how.now ∷ [])) }
    ensures cause { HasCause (O.faults out.old) (O.faults out.new) result }
{
    print_indented(&[b"pcm", microphone, number, rate, count, how], out)
}

// Prints the line of a frame that ends with this word.
fn print_frame<O: Sink>(frame: &PcmFrame<'_>, how: &[u8], out: &mut O) -> Result<(), Failed>
    ensures all { OnOk result (Appends (O.taken out.old) (O.taken out.new) (indented (frame_words (frame_of frame.now) (how.now ∷ [])))) }
    ensures front { AppendsFront (O.taken out.old) (O.taken out.new) (indented (frame_words (frame_of frame.now) (how.now ∷ []))) }
    ensures cause { HasCause (O.faults out.old) (O.faults out.new) result }
{
    let (mut microphone, mut number) = (Buffer::new(), Buffer::new());
    let (mut rate, mut samples) = (Buffer::new(), Buffer::new());
    print_frame_words(
        microphone.format(frame.microphone).as_bytes(),
        number.format(frame.frame).as_bytes(),
        rate.format(frame.rate).as_bytes(),
        samples.format(frame.samples.len() / 2).as_bytes(),
        how,
        out,
    )
}

// Prints the line of a frame before which so many are missing.
fn print_frame_after<O: Sink>(frame: &PcmFrame<'_>, missing: u32, out: &mut O) -> Result<(), Failed>
    ensures all { OnOk result (Appends (O.taken out.old) (O.taken out.new) (indented (frame_words (frame_of frame.now) (codes "missing" ∷ decimal missing ∷ [])))) }
    ensures front { AppendsFront (O.taken out.old) (O.taken out.new) (indented (frame_words (frame_of frame.now) (codes "missing" ∷ decimal missing ∷ []))) }
    ensures cause { HasCause (O.faults out.old) (O.faults out.new) result }
{
    let (mut microphone, mut number) = (Buffer::new(), Buffer::new());
    let (mut rate, mut samples) = (Buffer::new(), Buffer::new());
    let mut frames = Buffer::new();
    let words = [
        b"pcm".as_slice(),
        microphone.format(frame.microphone).as_bytes(),
        number.format(frame.frame).as_bytes(),
        rate.format(frame.rate).as_bytes(),
        samples.format(frame.samples.len() / 2).as_bytes(),
        b"missing",
        frames.format(missing).as_bytes(),
    ];
    print_indented(&words, out)
}

/// Prints the line under a datagram with the token of PCM frames, and steps over its frame if it is one.
pub(crate) fn print_pcm<O: Sink>(
    payload: &[u8],
    track: &mut PcmTrack,
    out: &mut O,
) -> Result<(), Failed>
    ensures all { OnOk result (Appends (O.taken out.old) (O.taken out.new) (pcm_text track.old (pcm_in payload.now))) }
    ensures front { AppendsFront (O.taken out.old) (O.taken out.new) (pcm_text track.old (pcm_in payload.now)) }
    ensures seen { track.new ≡ latest track.old (option_map number_of (pcm_in payload.now)) }
    ensures cause { HasCause (O.faults out.old) (O.faults out.new) result }
{
    let Some(frame) = read_pcm(payload) else {
        return print_opaque(out);
    };
    match track.step(&frame) {
        PcmStep::First => print_frame(&frame, b"first", out),
        PcmStep::Missing(frames) => print_frame_after(&frame, frames, out),
        PcmStep::Back => print_frame(&frame, b"back", out),
    }
}
