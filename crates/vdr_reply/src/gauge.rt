// What is told to an operator that no contract speaks of: how the ports and media fare as seen from outside.
//
// Nothing is promised of these numbers: they are an input of a reply, as a datagram is of a record.
use vdr_config::Config;
use vdr_health::Gauged;
use vdr_outside::Media;
use vdr_recorder::Nobody;

/// Tells how a recording on these media fares, as seen from outside. Its calls change nothing that it was told of the recording.
pub trait Gauge<M: Media> {
    /// A run begins by this configuration, and its first record has this place.
    fn begins(&self, config: &Config, place: u64);

    /// What is gauged now.
    fn gauge(&self, media: &M) -> Gauged;
}

impl<M: Media> Gauge<M> for Nobody {
    fn begins(&self, _config: &Config, _place: u64) {}

    fn gauge(&self, _media: &M) -> Gauged {
        Gauged::nothing()
    }
}
