// A datagram that a port in memory is to give.
ghost use Rattle.std.specs.Prelude.{IsTrue, ◌↔◌};
ghost use Rattle.vdr_memory.specs.Ports.{NeverFalls};

use std::marker::Model;

/// A datagram that a port in memory is to give. Its type keeps that it is one that a port may give.
#[derive(Drop)]
pub struct PortItem {
    /// Milliseconds since capture began, below 2^48.
    pub received: u64,
    /// UTC in milliseconds since 1970, up to the end of the year 9999.
    pub utc: i64,
    /// All its bytes. Of more than 1,472 the port gives the first 1,473.
    pub bytes: Vec<u8>,
}

impl Model for PortItem {
    ghost use Rattle.std.specs.Prelude.{◌<◌, ◌^◌};
    ghost use Rattle.vdr_terms.specs.Records.{Item};
    ghost use Rattle.vdr_terms.specs.Stamps.{IsStamp};

    ghost Value = { Item };

    ghost view = { λ s. record { received = s.received; utc = s.utc; bytes = s.bytes.items } };

    ghost invariant = { λ s. (s.received < 2 ^ 48) × IsStamp s.utc };
}

/// Whether items may be given in this order: `received` never falls.
pub fn are_in_order(items: &[PortItem]) -> bool
    ensures { IsTrue result ↔ NeverFalls 0 items.now }
{
    let mut floor = 0;
    for item in items {
        if item.received < floor {
            return false;
        }
        floor = item.received;
    }
    true
}
