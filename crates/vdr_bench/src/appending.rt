// Batches of one datagram each, appended to the ring of a capsule.
ghost use Rattle.std.specs.Prelude.{◌≡◌, ◌≤◌, IfOk};
ghost use Rattle.vdr_ring.specs.Rings.{HasMedium};

use anyhow::{Result, bail, ensure};
use std::alloc::Global;
use vdr_config::{fits, read_config};
use vdr_entry::Record;
use vdr_outside::Media;
use vdr_ring::{Pins, Ring};
use vdr_terms::{Verdict, recordable};

// The bench configuration: a window of 60 seconds, for which the capsule has 11 slots of 8,192 bytes.
const BENCH: &[u8] =
    b"{\"profile\":\"bench\",\"capsule_seconds\":60,\"long_seconds\":600,\"incident_seconds\":30,\"incident_slots\":2,\"segment\":8192,\"batch\":2048,\"queue\":16,\"groups\":[{\"name\":\"NAVD\",\"datagrams\":2,\"bytes\":200}],\"channels\":[]}";

fn open<M: Media>(alloc: Global, media: &mut M) -> Result<Ring>
    ensures room { IfOk result (λ ring. HasMedium ring (M.disk media.new).sizes) }
    ensures segment { IfOk result (λ ring. 8_192 ≤ ring.segment) }
{
    let Ok(config) = read_config(alloc, BENCH) else {
        bail!("the configuration is refused");
    };
    ensure!(media.count() == 2, "two media are wanted");
    ensure!(
        fits(&config, &[media.size(0), media.size(1)]).is_ok(),
        "a medium is too small"
    );
    let Ok(ring) = Ring::open(alloc, media, 0, &config) else {
        bail!("the capsule is not opened");
    };
    Ok(ring)
}

// Appends the batch of this number: one datagram, two a second.
fn append<M: Media>(media: &mut M, ring: &mut Ring, number: u32, datagram: &[u8]) -> Result<()>
    requires room { HasMedium ring.old (M.disk media.old).sizes }
    requires segment { 8_192 ≤ ring.old.segment }
    ensures room { HasMedium ring.new (M.disk media.new).sizes }
    ensures segment { 8_192 ≤ ring.new.segment }
{
    ensure!(datagram.len() == 100, "a datagram of another length");
    ensure!(
        matches!(recordable(datagram), Verdict::Yes),
        "a datagram that is not recorded"
    );
    let number = number as u64;
    let item = Record::datagram(3, 0, number, number, 500 * number, 0, datagram);
    ensure!(
        ring.append(media, &[item], &Pins::new()).is_ok(),
        "a write failed"
    );
    Ok(())
}

/// Appends so many batches to the capsule, and answers how many they are.
pub(crate) fn append_all<M: Media>(alloc: Global, media: &mut M, batches: u32) -> Result<u32>
    ensures { IfOk result (λ done. done ≡ batches) }
{
    let mut ring = open(alloc, media)?;
    let mut datagram = [b'x'; 100];
    datagram[..6].copy_from_slice(b"AbCdE\0");
    for number in 0..batches {
        append(media, &mut ring, number, &datagram)?;
    }
    Ok(batches)
}
