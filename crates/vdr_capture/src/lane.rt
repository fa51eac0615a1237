// The lane of a transmission group: its port, with what its worker counts and how it ended.
ghost use Rattle.std.specs.Prelude.{◌≡◌, None};
ghost use Rattle.vdr_terms.specs.Counting.{no_tally};

use vdr_gap::Tally;
use vdr_intake::Feeder;

/// How a capture ended.
#[derive(Clone, Copy, PartialEq, Eq, Drop)]
pub enum Cause {
    /// The port answered that none is left.
    Ended,
    /// The port failed.
    Failed,
    /// As many takes as were allowed were made, and none of them answered so.
    Turns,
}

/// The port of a transmission group and its worker.
#[derive(Drop)]
pub struct Lane<P> {
    pub port: P,
    /// The number of the transmission group.
    pub group: u8,
    /// The right to push into the group's queue, where the group is recorded.
    pub feeder: Option<Feeder>,
    /// What the worker counted.
    pub tally: Tally,
    /// How the last capture ended.
    pub cause: Option<Cause>,
}

impl<P> Lane<P> {
    /// A lane that has captured nothing and has no queue to push into.
    pub fn new(port: P, group: u8) -> Lane<P>
        ensures port { result.port ≡ port }
        ensures group { result.group ≡ group }
        ensures idle { (result.feeder ≡ None) × (result.tally ≡ no_tally) × (result.cause ≡ None) }
    {
        Lane {
            port,
            group,
            feeder: None,
            tally: Tally::new(),
            cause: None,
        }
    }
}
