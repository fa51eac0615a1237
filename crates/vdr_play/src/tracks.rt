// What a printer of records has seen last, of images and of sound.
ghost use Rattle.std.specs.Prelude.{◌≡◌};
ghost use Rattle.vdr_play.specs.Streams.{nothing_seen};

use std::marker::Model;
use vdr_image::ImageTrack;
use vdr_pcm::PcmTrack;

/// What a printer of records has seen last: a part of an image and a frame of sound, from which it tells how the next one follows.
#[derive(Drop)]
pub struct Tracks {
    pub(crate) image: ImageTrack,
    pub(crate) pcm: PcmTrack,
}

impl Model for Tracks {
    ghost use Rattle.vdr_play.specs.Streams.{Seen};

    ghost Value = { Seen };

    ghost view = { λ t. record { image = t.image; pcm = t.pcm } };
}

impl Tracks {
    /// Nothing was seen yet.
    pub fn new() -> Tracks
        ensures { result ≡ nothing_seen }
    {
        Tracks {
            image: ImageTrack::new(),
            pcm: PcmTrack::new(),
        }
    }
}
