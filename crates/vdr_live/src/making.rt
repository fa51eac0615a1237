// `make`: the media that a configuration asks for are made, and formatted.
ghost use Rattle.std.specs.Prelude.{◌≡◌, ◌≤◌, ◌<◌, ◌⊎◌, ◌∷◌, [], codes, true, false};
ghost use Rattle.vdr_command.specs.declared.status.Status.TheVariants.{Done, MediaFault as MediaFailed};
ghost use Rattle.vdr_tool.specs.Formats.{status_of};
ghost use Rattle.vdr_live.specs.Makes.{AsksMake, AsksSizes, EndsMake, MakeOutside, MakesMedia};
ghost use Rattle.vdr_live.specs.MakeParts.{MadeSays};

use crate::asking::sizes_in;
use std::alloc::Global;
use vdr_adapters::{MediaMaker, NotMade};
use vdr_command::number_of;
use vdr_media::{FormatRefused, format};
use vdr_outside::{Media, Sink, Source, fill};
use vdr_tool::{Status, World, report};

/// So many bytes tell that a text is longer than the longest configuration.
const ENOUGH: usize = 16_381;

/// How `make` ended.
#[derive(Drop)]
pub struct MakeEnd<M: Drop> {
    pub status: Status,
    /// The media, where they were made. For each status but `Done` nothing is left of them.
    pub media: Option<M>,
}

/// What stands outside of `make`, told as one value: in the place of media stands what makes them.
pub trait MakeOuter<M: Media> {
    ghost outside: { Self → MakeOutside };
}

impl<I: Source + Drop, O: Sink + Drop, M: Media, K: MediaMaker<M> + Drop> MakeOuter<M>
    for World<I, O, K> {
    ghost outside = { λ w. record {
      input = record { left = I.left w.input; faults = I.faults w.input };
      output = record { taken = O.taken w.output; faults = O.faults w.output };
      maker = record { stands = K.stands w.media; taken = K.taken w.media; faults = K.faults w.media };
    } };
}

fn is_word(word: &str) -> bool
    ensures is { result ≡ true → word.now ≡ codes "make" }
    ensures no { result ≡ false → word.now ≡ codes "make" → ⊥ }
{
    word == "make"
}

/// Whether the words are those of `make`.
pub fn is_make(words: &[String]) -> bool
    ensures asks { result ≡ true → AsksMake words.now }
    ensures others { result ≡ false → AsksMake words.now → ⊥ }
{
    match words {
        [word] => is_word(word.as_str()),
        _ => false,
    }
}

// How formatting that was refused ends the command.
fn status_of(refused: &FormatRefused) -> Status
    ensures { result ≡ status_of refused.now }
{
    match refused {
        FormatRefused::NoMemory => Status::NoMemory,
        FormatRefused::Config(bad) => Status::Config {
            number: number_of(bad),
        },
        FormatRefused::AlreadyFormatted => Status::Formatted,
        FormatRefused::TooSmall(small) => Status::Small(*small),
        FormatRefused::Fault => Status::MediaFault,
    }
}

// MakesMedia media of these sizes and formats them with the configuration that the text is. Where that is refused they are removed.
fn make_formatted<M: Media + Drop, K: MediaMaker<M>>(
    alloc: Global,
    text: &[u8],
    sizes: (u64, u64),
    maker: &mut K,
) -> MakeEnd<M>
    ensures says { AsksSizes text.now sizes.0 sizes.1
        → MadeSays M.Media (record { stands = K.stands maker.old; taken = K.taken maker.old; faults = K.faults maker.old }) (record { stands = K.stands maker.new; taken = K.taken maker.new; faults = K.faults maker.new })
        text.now result.media result.status }
    ensures failed { K.faults maker.old < K.faults maker.new → result.status ≡ MediaFailed }
    ensures left { (result.status ≡ Done) ⊎ (K.stands maker.old ≡ false → K.stands maker.new ≡ false) }
{
    let mut media = match maker.make(sizes.0, sizes.1) {
        Ok(media) => media,
        Err(NotMade::NoMemory) => {
            return MakeEnd {
                status: Status::NoMemory,
                media: None,
            };
        }
        Err(NotMade::Failed) => {
            return MakeEnd {
                status: Status::MediaFault,
                media: None,
            };
        }
    };
    let Err(refused) = format(alloc, &mut media, text, false) else {
        return MakeEnd {
            status: Status::Done,
            media: Some(media),
        };
    };
    maker.unmake();
    MakeEnd {
        status: status_of(&refused),
        media: Some(media),
    }
}

// MakesMedia the media that the configuration which the input is asks for, and formats them.
fn answer_make<I: Source + Drop, O: Sink + Drop, M: Media + Drop, K: MediaMaker<M> + Drop>(
    alloc: Global,
    world: &mut World<I, O, K>,
) -> MakeEnd<M>
    ensures owed { let at = ⟦<World<I, O, K> as MakeOuter<M>>⟧.outside in MakesMedia M.Media (at world.old) (at world.new) result.media result.status }
    ensures later { O.faults world.old.output ≤ O.faults world.new.output }
{
    let mut text = [0; ENOUGH];
    let Ok(count) = fill(&mut world.input, &mut text) else {
        return MakeEnd {
            status: Status::InputFault,
            media: None,
        };
    };
    let text = &text[..count];
    match sizes_in(alloc, text, &mut world.output) {
        Ok(sizes) => make_formatted(alloc, text, sizes, &mut world.media),
        Err(why) => MakeEnd {
            status: why.status(),
            media: None,
        },
    }
}

/// `make`: reads a configuration from the input, as `check` does, makes the media that it asks for, each of the least size with the slots that it
/// needs, and formats them with it, as `format` does. It prints nothing.
///
/// A configuration that is refused is told as by `check`; where no medium has enough slots, that is `Small`. A name that is taken, and a call that
/// fails as the media are made or formatted, is `MediaFault`. For each status but `Done` the output ends with a status line, and nothing is left
/// of the media.
pub fn make<I: Source + Drop, O: Sink + Drop, M: Media + Drop, K: MediaMaker<M> + Drop>(
    alloc: Global,
    world: &mut World<I, O, K>,
) -> MakeEnd<M>
    ensures { let at = ⟦<World<I, O, K> as MakeOuter<M>>⟧.outside in EndsMake M.Media (at world.old) (at world.new) result.media result.status }
{
    let end = answer_make(alloc, world);
    report(end.status, &mut world.output);
    end
}
