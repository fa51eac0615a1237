// The walk over the items of a feed.
ghost use Rattle.std.specs.Prelude.{◌≡◌, ◌<◌, ◌+◌, ◌^◌, [], ◌∷◌, ◌++◌, List, length, OnOk, IfOk, IfSome};
ghost use Rattle.vdr_terms.specs.Records.{FeedItem, Record as Told, total};
ghost use Rattle.vdr_terms.specs.Counting.{next_number};
ghost use Rattle.vdr_terms.specs.Rates.{Limit};
ghost use Rattle.vdr_terms.specs.declared.datagram.Verdict.TheVariants.{Yes};
ghost use Rattle.vdr_terms.specs.Datagrams.{verdict};
ghost use Rattle.vdr_config.specs.Configuration.{IsRate};
ghost use Rattle.vdr_datagram.specs.Channels.{channels_of};
ghost use Rattle.vdr_terms.specs.Channels.{no_channels};
ghost use Rattle.vdr_feed.specs.Kept.{Holds, IsLegalItem};
ghost use Rattle.vdr_meter.specs.Metering.{HasNoDatagram};
ghost use Rattle.vdr_run.specs.Making.{counted_of};
ghost use Rattle.vdr_run.specs.Meters.{IsMetered, second_of};
ghost use Rattle.vdr_review.specs.Review.{limit_asked, reviewed, shown_records};

use crate::window::{Review, Window};
use std::alloc::{AllocError, Global};
use vdr_config::{Config, Rate};
use vdr_core::{law_of_feed, law_of_item};
use vdr_feed::Item;
use vdr_meter::Meter;
use vdr_run::{ItemHead, Maker, Ports};
use vdr_terms::Counts;

/// What was met so far: what is counted of each group, the maker of the records, and the records that may be printed. The configuration
/// has no channels.
#[derive(Drop)]
pub(crate) struct Walk {
    alloc: Global,
    config: Config,
    ports: Ports,
    maker: Maker,
    window: Window,
}

// The rate of a configuration by which nothing is admitted or refused: a review without a rate has no meter.
const ANY_RATE: Rate = Rate {
    datagrams: 1,
    bytes: 6,
};

// A configuration without channels, and the meter of this rate for each group.
fn config_of(alloc: Global, rate: Option<Rate>) -> (Config, Option<Meter>)
    requires { IfSome rate IsRate }
    ensures channels { channels_of result.0 ≡ no_channels }
    ensures nothing { (made : List Told) → HasNoDatagram made → IsMetered (λ g. limit_asked rate) result.1 made }
    ensures start { second_of result.1 ≡ 0 }
{
    match rate {
        Some(rate) => {
            let config = Config::with_rate(alloc, rate);
            let meter = Meter::new(&config);
            (config, Some(meter))
        }
        None => (Config::with_rate(alloc, ANY_RATE), None),
    }
}

impl Walk {
    ghost use Rattle.vdr_review.specs.Walks.{Tells, TakesItem};

    /// Nothing is met, and the Start record has place 0.
    pub(crate) fn new(alloc: Global, rate: Option<Rate>) -> Result<Walk, AllocError>
        requires { IfSome rate IsRate }
        ensures { IfOk result (λ walk. Tells (limit_asked rate) walk []) }
    {
        let (config, meter) = config_of(alloc, rate);
        let mut maker = Maker::new(alloc, 1)?;
        maker.start(&config, meter, 0, None);
        Ok(Walk {
            alloc,
            config,
            ports: Ports::new(),
            maker,
            window: Window::new(alloc),
        })
    }

    // Takes a recordable item with its number and what its port missed before it. What is made of it is kept.
    fn take(&mut self, item: &Item, number: u64, missed: Counts) -> Result<(), AllocError>
        requires legal { IsLegalItem item.now }
        requires recordable { verdict item.now.bytes.items ≡ Yes }
        requires not_by_rate { missed.rate ≡ 0 }
        requires place { self.old.maker.place + 2 < 2 ^ 63 }
        requires number { next_number (counted_of self.old.maker item.now.group).pending + total missed + 1 < 2 ^ 63 }
        ensures { OnOk result (TakesItem item.now (number, missed) self.old self.new) }
    {
        let head = ItemHead {
            group: item.group,
            number,
            received: item.received,
            utc: item.utc,
            missed,
        };
        self.maker.clear();
        self.maker.take(&self.config, head, item.bytes.as_slice());
        self.window.keep(self.alloc, self.maker.records())?;
        self.window.drop_before(self.maker.tick() / 1000);
        Ok(())
    }

    /// Takes the next item of the feed.
    pub(crate) fn add(&mut self, item: &Item) -> Result<(), AllocError>
        requires legal { IsLegalItem item.now }
        requires told { (limit : Limit) × (feed : List FeedItem) × Tells limit self.old feed × (length feed < 2 ^ 32) }
        ensures { OnOk result ((limit : Limit) (feed : List FeedItem) (x : FeedItem) → Tells limit self.old feed → Holds item.now x
            → Tells limit self.new (feed ++ x ∷ [])) }
    {
        law_of_item();
        match self.ports.take(item) {
            Some((number, missed)) => self.take(item, number, missed),
            None => Ok(()),
        }
    }

    /// Closes the run. What is left is printed.
    pub(crate) fn finish(mut self) -> Result<Review, AllocError>
        requires told { (limit : Limit) × (feed : List FeedItem) × Tells limit self feed × (length feed < 2 ^ 32) }
        ensures { IfOk result (λ review. (limit : Limit) (feed : List FeedItem) → Tells limit self feed
            → shown_records review.last review.window ≡ reviewed limit feed) }
    {
        law_of_item();
        law_of_feed();
        let last = self.maker.tick() / 1000;
        self.maker.close(&self.config, &self.ports.rest());
        self.window.keep(self.alloc, self.maker.records())?;
        Ok(Review {
            window: self.window,
            last,
        })
    }
}
