// What the payload of a datagram is.
ghost use Rattle.std.specs.Prelude.{◌≡◌};
ghost use Rattle.vdr_page.specs.LoadViews.{load_seen};
ghost use Rattle.vdr_page.specs.Rows.{load_of};

use vdr_image::{ImageHeader, read_image};
use vdr_pcm::{PcmFrame, read_pcm};

/// What the payload of a datagram is.
#[derive(Clone, Copy, Drop)]
pub(crate) enum Load<'a> {
    /// A part of an image.
    Part(ImageHeader<'a>),
    /// A frame of PCM samples.
    Sound(PcmFrame<'a>),
    /// Neither.
    Raw(&'a [u8]),
}

/// What a payload is.
pub(crate) fn load_of(payload: &[u8]) -> Load<'_>
    ensures { load_seen result ≡ load_of payload.now }
{
    if let Some(header) = read_image(payload) {
        return Load::Part(header);
    }
    match read_pcm(payload) {
        Some(frame) => Load::Sound(frame),
        None => Load::Raw(payload),
    }
}
