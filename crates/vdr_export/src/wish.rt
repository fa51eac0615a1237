// What file is wished for of a channel.
ghost use Rattle.std.specs.Prelude.{◌≡◌};
ghost use Rattle.vdr_export.specs.Wishes.{kind_at, timed_from, wished};

use crate::block::Block;
use crate::file::File;
use crate::timing::Timing;
use vdr_config::{ChannelKind, Config};

/// What file is asked for.
#[derive(Clone, Copy, Drop)]
pub enum Wish {
    /// The sound of a channel of PCM frames, which stand where the timing says.
    Sound(Timing),
    /// The image of this block, out of a channel of images.
    Picture(Block),
    /// The list of the images, out of a channel of images.
    Listing,
}

/// The file that is to be made of a channel, None where its kind is another.
pub fn file_of(config: &Config, channel: Option<u8>, wish: Wish) -> Option<File>
    ensures { result ≡ wished wish (kind_at config.now.channels channel) }
{
    let Some(number) = channel else {
        return None;
    };
    let Some(channel) = config.channels.get(number as usize) else {
        return None;
    };
    match (wish, &channel.kind) {
        (Wish::Sound(timing), ChannelKind::Pcm { microphone }) => Some(File::Sound {
            microphone: *microphone,
            timing,
        }),
        (Wish::Picture(block), ChannelKind::Image { .. }) => Some(File::Picture(block)),
        (Wish::Listing, ChannelKind::Image { .. }) => Some(File::Listing),
        _ => None,
    }
}

/// A sound on its time line from this stamp on; from its first frame on where that is no bound.
pub fn timed_from(from: i64) -> Timing
    ensures { result ≡ timed_from from }
{
    match from.unsigned_abs() {
        0 => Timing::Stamped { from: None },
        from => Timing::Stamped { from: Some(from) },
    }
}
