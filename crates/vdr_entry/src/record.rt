// A record, one entry of the recording: how each kind is made, and what its type keeps.
ghost use Rattle.std.specs.Prelude.{◌≡◌, ◌≤◌, ◌<◌, ◌^◌};
ghost use Rattle.vdr_terms.specs.declared.datagram.Verdict.TheVariants.{Yes};
ghost use Rattle.vdr_terms.specs.Datagrams.{verdict};
ghost use Rattle.vdr_terms.specs.Legality.{IsRecord};
ghost use Rattle.vdr_terms.specs.Records.{total};
ghost use Rattle.vdr_terms.specs.Records.Content.{Start, Datagram, Gap, Stop};
ghost use Rattle.vdr_terms.specs.Sizes.{record_size};
ghost use Rattle.vdr_terms.specs.Stamps.{IsStamp};
ghost use Rattle.vdr_entry.specs.Contents.{said_by};
ghost use Rattle.vdr_entry.specs.Fields.{Carries, content_of};

use crate::payload::{gap_payload, kept, missed_in, refill};
use crate::{Content, Kind};
use arrayvec::ArrayVec;
use std::marker::Model;
use vdr_terms::Counts;

/// The group of a record that belongs to none.
pub(crate) const NO_GROUP: u8 = 255;

/// One entry of the recording. Its type keeps that it is a legal record (this project's profile):
///
/// - Start and Stop have group 255, number 0 and no payload. The group of the others is 0 to 15.
/// - A Datagram's payload is recordable: it begins with a token and has at most 1,472 bytes.
/// - A Gap's payload is the first missed number, and how many items were missed by each cause, not all 0.
/// - Place and tick are below 2^63, and the stamp is within the years 1970 to 9999.
#[derive(Drop)]
pub struct Record {
    pub kind: Kind,
    /// The number of the transmission group.
    pub group: u8,
    /// Bit k is set where channel k selects the record.
    pub bits: u64,
    /// 0, 1, 2 .. over the life of the media.
    pub place: u64,
    /// The number of the item in its port's run; of a Gap, the first that is missed.
    pub number: u64,
    /// Recording time in milliseconds.
    pub tick: u64,
    /// UTC in milliseconds since 1970.
    pub utc: i64,
    pub payload: ArrayVec<u8, 1472>,
}

impl Model for Record {
    ghost use Rattle.vdr_terms.specs.Records.{Record as Entry};
    ghost use Rattle.vdr_entry.specs.Fields.{content_of, Carries};

    ghost Value = { Entry };

    ghost view = { λ r. record { content = content_of r.kind r.payload.items; group = r.group; bits = r.bits; place = r.place; number = r.number; tick = r.tick; utc = r.utc } };

    ghost invariant = { λ r. Carries (record { content = content_of r.kind r.payload.items; group = r.group; bits = r.bits; place = r.place; number = r.number; tick = r.tick; utc = r.utc }) r.payload.items };
}

impl Record {
    /// The record with which a run of the recorder begins.
    pub fn start(bits: u64, place: u64, tick: u64, utc: i64) -> Record
        requires place { place < 2 ^ 63 }
        requires tick { tick < 2 ^ 63 }
        requires utc { IsStamp utc }
        ensures { result ≡ record { content = Start; group = 255; bits = bits; place = place; number = 0; tick = tick; utc = utc } }
    {
        Record {
            kind: Kind::Start,
            group: NO_GROUP,
            bits,
            place,
            number: 0,
            tick,
            utc,
            payload: ArrayVec::new(),
        }
    }

    /// The record of a datagram, the item of this number in its port's run. The bytes are copied.
    pub fn datagram(
        group: u8,
        bits: u64,
        place: u64,
        number: u64,
        tick: u64,
        utc: i64,
        bytes: &[u8],
    ) -> Record
        requires group { group ≤ 15 }
        requires place { place < 2 ^ 63 }
        requires tick { tick < 2 ^ 63 }
        requires utc { IsStamp utc }
        requires recordable { verdict bytes.now ≡ Yes }
        ensures { result ≡ record { content = Datagram bytes.now; group = group; bits = bits; place = place; number = number; tick = tick; utc = utc } }
    {
        Record {
            kind: Kind::Datagram,
            group,
            bits,
            place,
            number,
            tick,
            utc,
            payload: kept(bytes),
        }
    }

    /// The record of items that were missed, of which `first` is the number of the first.
    pub fn gap(
        group: u8,
        bits: u64,
        place: u64,
        first: u64,
        tick: u64,
        utc: i64,
        missed: Counts,
    ) -> Record
        requires group { group ≤ 15 }
        requires place { place < 2 ^ 63 }
        requires tick { tick < 2 ^ 63 }
        requires utc { IsStamp utc }
        requires missed { 0 < total missed }
        ensures { result ≡ record { content = Gap missed; group = group; bits = bits; place = place; number = first; tick = tick; utc = utc } }
    {
        Record {
            kind: Kind::Gap,
            group,
            bits,
            place,
            number: first,
            tick,
            utc,
            payload: kept(&gap_payload(first, missed)),
        }
    }

    /// The record with which a run of the recorder ends.
    pub fn stop(bits: u64, place: u64, tick: u64, utc: i64) -> Record
        requires place { place < 2 ^ 63 }
        requires tick { tick < 2 ^ 63 }
        requires utc { IsStamp utc }
        ensures { result ≡ record { content = Stop; group = 255; bits = bits; place = place; number = 0; tick = tick; utc = utc } }
    {
        Record {
            kind: Kind::Stop,
            group: NO_GROUP,
            bits,
            place,
            number: 0,
            tick,
            utc,
            payload: ArrayVec::new(),
        }
    }

    /// Makes it the record of these fields, in the memory that it has.
    pub(crate) fn refill(
        &mut self,
        kind: Kind,
        group: u8,
        bits: u64,
        place: u64,
        number: u64,
        tick: u64,
        utc: i64,
        payload: &[u8],
    )
        requires { Carries (record { content = content_of kind payload.now; group = group; bits = bits; place = place; number = number; tick = tick; utc = utc }) payload.now }
        ensures { self.new ≡ record { content = content_of kind payload.now; group = group; bits = bits; place = place; number = number; tick = tick; utc = utc } }
    {
        self.kind = kind;
        self.group = group;
        self.bits = bits;
        self.place = place;
        self.number = number;
        self.tick = tick;
        self.utc = utc;
        refill(&mut self.payload, payload);
    }

    /// What it says: of a Datagram its bytes, and of a Gap its counts.
    pub fn content(&self) -> Content<'_>
        ensures said { said_by result ≡ self.now.content }
        ensures legal { IsRecord self.now }
    {
        match self.kind {
            Kind::Start => Content::Start,
            Kind::Datagram => Content::Datagram(self.payload.as_slice()),
            Kind::Gap => Content::Gap(missed_in(self.payload.as_slice())),
            Kind::Stop => Content::Stop,
        }
    }

    /// How many bytes it takes on the media, 44 to 1,516.
    pub fn size(&self) -> usize
        ensures { result ≡ record_size self.now }
    {
        44 + self.payload.len()
    }
}
