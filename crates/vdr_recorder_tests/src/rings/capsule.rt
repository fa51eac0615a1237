// A ring with its media: what a call needs of them is kept here, so that a test only calls.
ghost use Rattle.std.specs.Prelude.{◌≤◌, length, IfOk, IfSome};
ghost use Rattle.vdr_terms.specs.Sizes.{record_size};

use std::alloc::{AllocError, Global};
use std::marker::Model;
use vdr_config::{Config, fits, read_config};
use vdr_entry::Record;
use vdr_outside::Media;
use vdr_ring::{Pins, Ring};
use vdr_terms::{Verdict, recordable};

// The bench configuration: a window of 60 seconds, for which the capsule has 11 slots.
pub(super) const BENCH: &[u8] =
    b"{\"profile\":\"bench\",\"capsule_seconds\":60,\"long_seconds\":600,\"incident_seconds\":30,\"incident_slots\":2,\"segment\":8192,\"batch\":2048,\"queue\":16,\"groups\":[{\"name\":\"NAVD\",\"datagrams\":2,\"bytes\":200}],\"channels\":[]}";

pub(super) fn contents(alloc: Global) -> Result<Vec<Vec<u8>>, AllocError>
    ensures { IfOk result (λ media. length media.items ≤ 3) }
{
    Ok(vec![in alloc; vec![in alloc; 0u8; 122_880]?]?)
}

// The ring of the capsule with its media.
#[derive(Drop)]
pub(super) struct Capsule<M: Media> {
    media: M,
    ring: Ring,
}

impl<M: Media> Model for Capsule<M> {
    ghost use Rattle.std.specs.Prelude.{⊤, ◌≤◌};
    ghost use Rattle.vdr_ring.specs.Rings.{HasMedium};

    ghost Value = { ⊤ };

    ghost view = { λ _. tt };

    ghost invariant = { λ c. HasMedium c.ring (M.disk c.media).sizes × (8_192 ≤ c.ring.segment) };
}

// The bench configuration. None where memory is refused.
pub(super) fn bench(alloc: Global) -> Option<Config> {
    read_config(alloc, BENCH).ok()
}

impl<M: Media + Drop> Capsule<M> {
    /// None where it is not opened.
    pub(super) fn open(alloc: Global, media: M) -> Option<Capsule<M>> {
        let mut media = media;
        let config = bench(alloc)?;
        if media.count() != 1 || fits(&config, &[media.size(0), 712_704]).is_err() {
            return None;
        }
        match Ring::open(alloc, &mut media, 0, &config) {
            Ok(ring) => Some(Capsule { media, ring }),
            Err(_) => None,
        }
    }

    pub(super) fn into_media(self) -> M {
        self.media
    }

    pub(super) fn media(&self) -> &M {
        &self.media
    }

    pub(super) fn ring(&self) -> &Ring {
        &self.ring
    }

    /// Appends the batch of this number, and tells whether it was.
    pub(super) fn append(&mut self, number: u64) -> bool {
        let Some(item) = datagram(number) else {
            return false;
        };
        self.ring
            .append(&mut self.media, &[item], &Pins::new())
            .is_ok()
    }
}

// One datagram of 100 bytes, two a second.
fn datagram(number: u64) -> Option<Record>
    ensures size { IfSome result (λ item. record_size item ≤ 200) }
{
    let mut bytes = [b'x'; 100];
    bytes[..6].copy_from_slice(b"AbCdE\0");
    if number >= 1_000 || !matches!(recordable(&bytes), Verdict::Yes) {
        return None;
    }
    Some(Record::datagram(3, 0, number, number, 500 * number, 0, &bytes))
}
