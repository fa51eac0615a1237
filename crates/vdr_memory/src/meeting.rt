// Two ports in memory that meet: each gives its second datagram only when the other gave its first.
ghost use Rattle.std.specs.Prelude.{◌≡◌, [], ◌∷◌, IfOk};
ghost use Rattle.vdr_memory.specs.Ports.{meeting, meeting_item};

use crate::{Flag, GatedPort, PortItem};
use std::alloc::{AllocError, Global};
use std::time::Clock;

// A datagram that holds a token alone, received as capture begins.
fn token_alone(alloc: Global) -> Result<PortItem, AllocError>
    ensures { IfOk result (λ item. item ≡ meeting_item) }
{
    Ok(PortItem {
        received: 0,
        utc: 0,
        bytes: b"AbCdE\0".to_vec(alloc)?,
    })
}

// Two of these.
fn two_items(alloc: Global) -> Result<Vec<PortItem>, AllocError>
    ensures { IfOk result (λ items. items.items ≡ meeting_item ∷ meeting_item ∷ []) }
{
    let mut items = Vec::new(alloc);
    items.push(token_alone(alloc)?)?;
    items.push(token_alone(alloc)?)?;
    Ok(items)
}

/// Two ports that meet: each gives a first datagram at once, and a second one only when the other gave its first. So a
/// body that takes from one port until its end, before it takes from the other, waits for good.
pub fn meeting_ports<C: Clock + Copy>(
    clock: C,
    alloc: Global,
) -> Result<(GatedPort<C>, GatedPort<C>), AllocError>
    ensures { IfOk result (λ ports. (ports.0 ≡ meeting) × (ports.1 ≡ meeting)) }
{
    let first = Flag::new(alloc)?;
    let second = Flag::new(alloc)?;
    let one = GatedPort::meeting(clock, two_items(alloc)?, first.share()?, second.share()?);
    let other = GatedPort::meeting(clock, two_items(alloc)?, second, first);
    Ok((one, other))
}
