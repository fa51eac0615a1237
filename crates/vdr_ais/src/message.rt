// A message that is whole.
ghost use Rattle.std.specs.Prelude.{◌<◌, All};

use arrayvec::ArrayVec;

/// An AIS message as its sentences carry it (IEC 61162-1, VDM and VDO).
#[derive(Drop)]
pub struct Message {
    /// Six bits each, the first of the message in the highest: 0 to 63.
    pub sixes: ArrayVec<u8, 738>,
    /// How many bits at the end fill up the last six.
    pub fill: u8,
    pub ghost below: { All (λ n. n < 64) sixes.items },
}
