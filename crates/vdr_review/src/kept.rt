// A record that a review keeps until it is printed or leaves the window.
ghost use Rattle.std.specs.Prelude.{◌≡◌, ◌<◌, ◌^◌, is_some, IfOk, IfSome};
ghost use Rattle.vdr_terms.specs.Records.{has_items, second};

use std::alloc::{AllocError, Global};
use std::marker::Model;
use vdr_entry::{Content, Record};
use vdr_terms::Counts;

/// Where and when a record stands.
#[derive(Clone, Copy, Drop)]
struct Spot {
    group: u8,
    bits: u64,
    place: u64,
    number: u64,
    tick: u64,
    utc: i64,
}

#[derive(Drop)]
enum Said {
    Datagram(Vec<u8>),
    Gap(Counts),
}

/// A Datagram or a Gap. Its bytes stand in memory of their own length, since a Record has room for the longest.
#[derive(Drop)]
pub(crate) struct Kept {
    spot: Spot,
    said: Said,
}

impl Model for Kept {
    ghost use Rattle.vdr_terms.specs.Records.{Record as Told};
    ghost use Rattle.vdr_terms.specs.Legality.{IsRecord};
    ghost use Rattle.vdr_review.specs.Said.{content_of};

    ghost Value = { Told };

    ghost view = { λ k. record { content = content_of k.said; group = k.spot.group; bits = k.spot.bits; place = k.spot.place; number = k.spot.number; tick = k.spot.tick; utc = k.spot.utc } };

    ghost invariant = { λ k. IsRecord (record { content = content_of k.said; group = k.spot.group; bits = k.spot.bits; place = k.spot.place; number = k.spot.number; tick = k.spot.tick; utc = k.spot.utc }) };
}

impl Kept {
    /// A copy of the record, None where it is a Start or a Stop.
    pub(crate) fn of(alloc: Global, item: &Record) -> Result<Option<Kept>, AllocError>
        ensures kept { IfOk result (λ kept. is_some kept ≡ has_items item.now.content) }
        ensures same { IfOk result (λ kept. IfSome kept (λ k. k ≡ item.now)) }
    {
        let said = match item.content() {
            Content::Start | Content::Stop => return Ok(None),
            Content::Datagram(bytes) => Said::Datagram(bytes.to_vec(alloc)?),
            Content::Gap(missed) => Said::Gap(missed),
        };
        let spot = Spot {
            group: item.group,
            bits: item.bits,
            place: item.place,
            number: item.number,
            tick: item.tick,
            utc: item.utc,
        };
        Ok(Some(Kept { spot, said }))
    }

    /// Its second of recording time.
    pub(crate) fn second(&self) -> u64
        ensures second { result ≡ second self.now.tick }
        ensures small { result < 2 ^ 54 }
    {
        self.spot.tick / 1000
    }

    /// The record itself.
    pub(crate) fn record(&self) -> Record
        ensures { result ≡ self.now }
    {
        let Spot {
            group,
            bits,
            place,
            number,
            tick,
            utc,
        } = self.spot;
        match &self.said {
            Said::Datagram(bytes) => {
                Record::datagram(group, bits, place, number, tick, utc, bytes.as_slice())
            }
            Said::Gap(missed) => Record::gap(group, bits, place, number, tick, utc, *missed),
        }
    }
}
