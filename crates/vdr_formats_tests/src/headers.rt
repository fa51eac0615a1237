// What stands at the front of a datagram: its token, the header of an image's part and of a frame of sound.

use crate::printing::{number, word};
use vdr_datagram::{Token, token};
use vdr_image::read_image;
use vdr_memory::MemorySink;
use vdr_pcm::read_pcm;
use vdr_terms::{Verdict, recordable};

/// What a datagram holds by its token, and whether it can be recorded.
pub(crate) fn kind_of(bytes: &[u8], out: &mut MemorySink) {
    let holds = match token(bytes) {
        Token::Sentences => "sentences",
        Token::Image => "image",
        Token::Pcm => "pcm",
        Token::Other => "other",
        Token::NoToken => "nothing",
    };
    let verdict = match recordable(bytes) {
        Verdict::Yes => "yes",
        Verdict::Bad => "bad",
        Verdict::Large => "large",
    };
    word(out, holds.as_bytes());
    word(out, verdict.as_bytes());
}

/// Source, destination, block, sequence number and greatest of a part of an image, and how many bytes of data it
/// has. Nothing of other bytes.
pub(crate) fn image(bytes: &[u8], out: &mut MemorySink) {
    if let Some(header) = read_image(bytes) {
        word(out, header.source);
        word(out, header.destination);
        number(out, u64::from(header.block));
        number(out, u64::from(header.sequence));
        number(out, u64::from(header.greatest));
        number(out, header.body.len() as u64);
    }
}

/// Microphone, number and rate of a frame of sound, and how many bytes of samples it has. Nothing of other bytes.
pub(crate) fn pcm(bytes: &[u8], out: &mut MemorySink) {
    if let Some(frame) = read_pcm(bytes) {
        number(out, u64::from(frame.microphone));
        number(out, u64::from(frame.frame));
        number(out, u64::from(frame.rate));
        number(out, frame.samples.len() as u64);
    }
}
