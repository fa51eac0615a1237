// The first pass over records.
ghost use Rattle.std.specs.Prelude.{◌≡◌, ◌+◌, ◌∷◌, ◌++◌, [], ℕ, List};
ghost use Rattle.std.specs.List.{filter_map};
ghost use Rattle.vdr_terms.specs.Records.{Record as Entry};
ghost use Rattle.vdr_terms.specs.Records.Content.{Datagram};
ghost use Rattle.vdr_page.specs.Surveyed.{spare};
ghost use Rattle.vdr_page.specs.Surveys.{greatest, is_part, is_raw, is_sound, least, size_where, stamp_in, stamps_of, survey_of};

use crate::load::{Load, load_of};
use crate::marks::stamp_of;
use crate::survey::Survey;
use std::alloc::AllocError;
use vdr_entry::{Content, Record};
use vdr_outside::Sink;
use vdr_visit::{Visitor, VisitorRefused};

/// How many bytes of payloads that are neither sound nor parts of images a page has at most.
const MOST_RAW: u64 = 4_194_304;

/// How many bytes of datagrams of sound a page has at most.
const MOST_SOUND: u64 = 16_777_216;

/// How many bytes of parts of images a page has at most.
const MOST_PICTURES: u64 = 8_388_608;

/// Finds what is to be known of records before their rows are printed. It prints nothing, and takes no memory.
#[derive(Drop)]
pub struct Surveyor {
    low: Option<u64>,
    high: Option<u64>,
    records: u64,
    // How many bytes are left of each bound, None once it is exceeded.
    raw: Option<u64>,
    sound: Option<u64>,
    pictures: Option<u64>,
}

// How many bytes the payload of a record has, under its kind.
#[derive(Clone, Copy, Drop)]
struct Sizes {
    raw: u64,
    sound: u64,
    pictures: u64,
}

// The stamp of a Datagram or a Gap.
fn stamp_in(item: &Record) -> Option<u64>
    ensures { result ≡ stamp_in item.now }
{
    match item.content() {
        Content::Datagram(_) | Content::Gap(_) => Some(stamp_of(item)),
        Content::Start | Content::Stop => None,
    }
}

fn least_with(low: Option<u64>, stamp: u64) -> Option<u64>
    ensures { (stamps : List ℕ) → low ≡ least stamps → result ≡ least (stamps ++ stamp ∷ []) }
{
    match low {
        Some(low) => Some(low.min(stamp)),
        None => Some(stamp),
    }
}

fn greatest_with(high: Option<u64>, stamp: u64) -> Option<u64>
    ensures { (stamps : List ℕ) → high ≡ greatest stamps → result ≡ greatest (stamps ++ stamp ∷ []) }
{
    match high {
        Some(high) => Some(high.max(stamp)),
        None => Some(stamp),
    }
}

fn sizes_of(payload: &[u8]) -> Sizes
    ensures raw { result.raw ≡ size_where is_raw (Datagram payload.now) }
    ensures sound { result.sound ≡ size_where is_sound (Datagram payload.now) }
    ensures pictures { result.pictures ≡ size_where is_part (Datagram payload.now) }
{
    let size = payload.len() as u64;
    let mut sizes = Sizes {
        raw: 0,
        sound: 0,
        pictures: 0,
    };
    match load_of(payload) {
        Load::Raw(_) => sizes.raw = size,
        Load::Sound(_) => sizes.sound = size,
        Load::Part(_) => sizes.pictures = size,
    }
    sizes
}

fn sizes_in(item: &Record) -> Sizes
    ensures raw { result.raw ≡ size_where is_raw item.now.content }
    ensures sound { result.sound ≡ size_where is_sound item.now.content }
    ensures pictures { result.pictures ≡ size_where is_part item.now.content }
{
    match item.content() {
        Content::Datagram(payload) => sizes_of(payload),
        Content::Start | Content::Gap(_) | Content::Stop => Sizes {
            raw: 0,
            sound: 0,
            pictures: 0,
        },
    }
}

// What is left of a bound, once so many bytes more are spent.
fn spend(left: Option<u64>, size: u64) -> Option<u64>
    ensures { (bound spent : ℕ) → left ≡ spare bound spent → result ≡ spare bound (spent + size) }
{
    match left {
        Some(left) => left.checked_sub(size),
        None => None,
    }
}

impl Surveyor {
    ghost use Rattle.vdr_page.specs.Surveyed.{HasSurveyed};

    /// One that has surveyed no record.
    pub fn new() -> Surveyor
        ensures { HasSurveyed result [] }
    {
        Surveyor {
            low: None,
            high: None,
            records: 0,
            raw: Some(MOST_RAW),
            sound: Some(MOST_SOUND),
            pictures: Some(MOST_PICTURES),
        }
    }

    // One stamp more, where the record has one.
    fn note(&mut self, item: &Record)
        ensures low { (seen : List Entry) → self.old.low ≡ least (stamps_of seen) → self.new.low ≡ least (stamps_of (seen ++ item.now ∷ [])) }
        ensures high { (seen : List Entry) → self.old.high ≡ greatest (stamps_of seen) → self.new.high ≡ greatest (stamps_of (seen ++ item.now ∷ [])) }
        ensures records { self.new.records ≡ self.old.records }
        ensures raw { self.new.raw ≡ self.old.raw }
        ensures sound { self.new.sound ≡ self.old.sound }
        ensures pictures { self.new.pictures ≡ self.old.pictures }
    {
        if let Some(stamp) = stamp_in(item) {
            self.low = least_with(self.low, stamp);
            self.high = greatest_with(self.high, stamp);
        }
    }

    // One record more.
    fn add(&mut self, item: &Record)
        ensures { (seen : List Entry) → HasSurveyed self.old seen → HasSurveyed self.new (seen ++ item.now ∷ []) }
    {
        let sizes = sizes_in(item);
        self.note(item);
        self.records = self.records.saturating_add(1);
        self.raw = spend(self.raw, sizes.raw);
        self.sound = spend(self.sound, sizes.sound);
        self.pictures = spend(self.pictures, sizes.pictures);
    }

    /// What is known of the records that were surveyed.
    pub fn survey(&self) -> Survey
        ensures { (records : List Entry) → HasSurveyed self.now records → result ≡ survey_of records }
    {
        Survey {
            low: self.low,
            high: self.high,
            records: self.records,
            raw: self.raw.is_some(),
            sound: self.sound.is_some(),
            pictures: self.pictures.is_some(),
        }
    }
}

impl Visitor for Surveyor {
    ghost use Rattle.std.specs.Prelude.{[]};
    ghost use Rattle.vdr_page.specs.Surveyed.{HasSurveyed};

    /// It never stops by itself; a command has a status for want of memory.
    type Reason = AllocError;

    ghost has = { λ _ seen now. HasSurveyed now seen };

    ghost line = { λ _ _ _. [] };

    ghost last = { λ _ _. [] };

    ghost stops = { λ _ _ _. ⊥ };

    fn visit<O: Sink>(
        &mut self,
        item: &Record,
        _out: &mut O,
    ) -> Result<(), VisitorRefused<AllocError>> {
        self.add(item);
        Ok(())
    }

    fn finish<O: Sink>(&mut self, _out: &mut O) -> Result<(), VisitorRefused<AllocError>> {
        Ok(())
    }
}
