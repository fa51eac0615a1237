// What the ports of a feed gave, as it is counted.
ghost use Rattle.std.specs.Prelude.{◌≡◌, ◌≤◌, ◌<◌, ◌∷◌, ◌++◌, ◌+◌, ◌^◌, ℕ, List, [], length, replicate, IfSome};
ghost use Rattle.vdr_terms.specs.Counting.{no_tally, pushed};
ghost use Rattle.vdr_terms.specs.Datagrams.{verdict, is_yes};
ghost use Rattle.vdr_terms.specs.Records.{FeedItem, total};
ghost use Rattle.vdr_terms.specs.declared.datagram.Verdict.TheVariants.{Yes};
ghost use Rattle.vdr_core.specs.Replay.{captured_if};
ghost use Rattle.vdr_feed.specs.Feed.{longest_feed};
ghost use Rattle.vdr_feed.specs.Kept.{Holds};
ghost use Rattle.vdr_run.specs.Making.{rest_of};

use std::array;
use vdr_feed::Item;
use vdr_gap::Tally;
use vdr_terms::{Counts, Verdict, recordable};

// No item.
const NONE: Counts = Counts {
    full: 0,
    rate: 0,
    bad: 0,
    large: 0,
};

/// The count of each group's port.
#[derive(Drop)]
pub struct Ports {
    tallies: [Tally; 16],
}

// One for each group.
fn tallies() -> [Tally; 16]
    ensures { result ≡ replicate 16 no_tally }
{
    array::from_fn(|_| Tally::new())
}

// Counts an item that is pushed. Answers its number, and what the port missed before it.
fn push(tally: &mut Tally) -> (u64, Counts)
    requires { tally.old.taken + 1 < 2 ^ 63 }
    ensures number { result.0 ≡ tally.old.taken }
    ensures missed { result.1 ≡ tally.old.missed }
    ensures before { total result.1 ≤ result.0 }
    ensures tally { tally.new ≡ pushed tally.old }
{
    let told = (tally.taken(), tally.counts());
    tally.pushed();
    told
}

impl Ports {
    ghost use Rattle.vdr_run.specs.Given.{CountsFeed, tally_after, tally_of, pushed_as};

    /// Nothing was given.
    pub fn new() -> Ports
        ensures { CountsFeed [] result }
    {
        Ports { tallies: tallies() }
    }

    /// Counts the next item of a feed. Of a recordable one it answers the number in its port's run, and what the port missed before it.
    pub fn take(&mut self, item: &Item) -> Option<(u64, Counts)>
        requires group { item.now.group < 16 }
        requires counted { (feed : List FeedItem) × CountsFeed feed self.old × (length feed ≤ longest_feed) }
        ensures counts { (feed : List FeedItem) (x : FeedItem) → CountsFeed feed self.old → Holds item.now x → CountsFeed (feed ++ x ∷ []) self.new }
        ensures taken { (feed : List FeedItem) (x : FeedItem) → CountsFeed feed self.old → Holds item.now x
            → pushed_as item.now result ≡ captured_if (is_yes (verdict x.item.bytes)) feed x }
        ensures recordable { IfSome result (λ told. verdict item.now.bytes.items ≡ Yes) }
        ensures before { IfSome result (λ told. total told.1 ≤ told.0) }
        ensures missed { IfSome result (λ told. told.1 ≡ (tally_of self.old item.now.group).missed) }
        ensures not_by_rate { IfSome result (λ told. told.1.rate ≡ 0) }
    {
        let tally = &mut self.tallies[item.group as usize];
        match recordable(item.bytes.as_slice()) {
            Verdict::Yes => Some(push(tally)),
            Verdict::Bad => {
                tally.bad();
                None
            }
            Verdict::Large => {
                tally.large();
                None
            }
        }
    }

    /// What each port missed since its last recordable item.
    pub fn rest(&self) -> [Counts; 16]
        ensures each { (g : ℕ) → g < 16 → rest_of result g ≡ (tally_of self.now g).missed }
        ensures sixteen { length result ≡ 16 }
    {
        let mut rest = [NONE; 16];
        for group in 0..16 {
            rest[group] = self.tallies[group].counts();
        }
        rest
    }

    /// The count of a group's port.
    pub fn tally(&self, group: u8) -> &Tally
        requires { group < 16 }
        ensures { (feed : List FeedItem) → CountsFeed feed self.now → result.now ≡ tally_after feed group }
    {
        &self.tallies[group as usize]
    }
}
