// A recordable datagram on its way through a queue, with what its port missed before it.
use arrayvec::ArrayVec;
use std::marker::Model;
use vdr_terms::Counts;

/// A recordable datagram as the recorder takes it from a queue. Its type keeps (this project's profile):
///
/// - The group is below 16, `received` is below 2^48, and the stamp is within the years 1970 to 9999.
/// - The bytes are recordable: they begin with a token and are at most 1,472 (IEC 61162-450).
/// - None of the missed items was refused by the rate, and as many items as were missed come before this one.
#[derive(Drop)]
pub struct Captured {
    /// The number of the transmission group.
    pub group: u8,
    /// The number of the item in its port's run, from 0.
    pub number: u64,
    /// Milliseconds since capture began.
    pub received: u64,
    /// UTC in milliseconds since 1970.
    pub utc: i64,
    /// What the port missed since the item before this one in the queue.
    pub missed: Counts,
    /// The datagram.
    pub bytes: ArrayVec<u8, 1472>,
}

impl Model for Captured {
    ghost use Rattle.vdr_core.specs.Taken.{Captured as CapturedTold};
    ghost use Rattle.vdr_intake.specs.Items.{IsCaptured};

    ghost Value = { CapturedTold };

    ghost view = { λ c. record { group = c.group; number = c.number; received = c.received; utc = c.utc; missed = c.missed; bytes = c.bytes.items } };

    ghost invariant = { λ c. IsCaptured (record { group = c.group; number = c.number; received = c.received; utc = c.utc; missed = c.missed; bytes = c.bytes.items }) };
}
