// The marks by which channels select: a good line, an image, a PCM frame, or none of these.
ghost use Rattle.std.specs.Prelude.{◌≡◌, ◌≢◌, option_copied};
ghost use Rattle.vdr_config.specs.Configuration.{Selection};
ghost use Rattle.vdr_config.specs.Kinds.{selection_of};
ghost use Rattle.vdr_datagram.specs.declared.tokens.Token.TheVariants.{Sentences};
ghost use Rattle.vdr_datagram.specs.Channels.{formatter_of, is_asked, selects};
ghost use Rattle.vdr_datagram.specs.Marks.{shows};
ghost use Rattle.vdr_datagram.specs.Tokens.{token};

use vdr_config::ChannelKind;
use vdr_image::read_image;
use vdr_pcm::read_pcm;

/// What of a datagram shows that a channel selects it.
#[derive(Clone, Copy, Drop)]
pub(crate) enum Mark<'a> {
    /// A good line: the formatter of its sentence and the source that its TAG blocks name, each where there is one.
    Line {
        formatter: Option<&'a [u8]>,
        source: Option<&'a [u8]>,
    },
    /// That it is an image datagram: the source of its header.
    Image {
        source: &'a [u8],
    },
    /// That it is a PCM frame: its microphone.
    Pcm {
        microphone: u8,
    },
    /// That it is neither of these nor a sentence datagram.
    Opaque,
}

/// The mark of a datagram that is no sentence datagram.
pub(crate) fn mark_of(bytes: &[u8]) -> Mark<'_>
    ensures { (kind : Selection) → token bytes.now ≢ Sentences → shows result kind ≡ selects kind bytes.now }
{
    if let Some(header) = read_image(bytes) {
        return Mark::Image {
            source: header.source,
        };
    }
    match read_pcm(bytes) {
        Some(frame) => {
            Mark::Pcm {
                microphone: frame.microphone,
            }
        }
        None => Mark::Opaque,
    }
}

/// The formatter of an address, None where the address is proprietary.
pub(crate) fn formatter_of(address: &[u8]) -> Option<&[u8]>
    ensures { option_copied result ≡ formatter_of address.now }
{
    match address {
        [b'P', ..] => None,
        _ => Some(&address[address.len().saturating_sub(3)..]),
    }
}

// Whether the text that is found is the one that is asked for, where one is.
fn is_asked(asked: Option<&[u8]>, found: Option<&[u8]>) -> bool
    ensures { result ≡ is_asked (option_copied asked.entry) (option_copied found.entry) }
{
    match (asked, found) {
        (None, _) => true,
        (Some(_), None) => false,
        (Some(text), Some(found)) => text == found,
    }
}

/// Whether the mark shows that a channel of this kind selects the datagram.
pub(crate) fn shows(mark: &Mark<'_>, kind: &ChannelKind) -> bool
    ensures { result ≡ shows mark.now (selection_of kind.now) }
{
    match (*mark, kind) {
        (
            Mark::Line { formatter, source },
            ChannelKind::Sentence {
                formatter: asked,
                source: from,
            },
        ) => {
            is_asked(asked.as_ref().map(|text| text.as_slice()), formatter)
                && is_asked(from.as_ref().map(|text| text.as_slice()), source)
        }
        (Mark::Image { source }, ChannelKind::Image { source: from }) => {
            is_asked(from.as_ref().map(|text| text.as_slice()), Some(source))
        }
        (Mark::Pcm { microphone }, ChannelKind::Pcm { microphone: asked }) => *asked == microphone,
        (Mark::Opaque, ChannelKind::Opaque) => true,
        _ => false,
    }
}
