// The generated feed as a source of bytes.
ghost use Rattle.std.specs.Prelude.{◌≡◌, ◌≤◌, ◌<◌, ◌+◌, ◌⊎◌, ◌++◌, [], length};
ghost use Rattle.vdr_feed.specs.Feed.{spelling};
ghost use Rattle.vdr_feed.specs.Trial.{trial_item as item_of, trial_state};
ghost use Rattle.vdr_feed.specs.Generated.{IsSpelled, generated_feed, left_of};

use crate::writing::{LONGEST_ITEM, push, write_item};
use crate::{Item, trial_item};
use arrayvec::ArrayVec;
use std::marker::Model;
use vdr_outside::{Failed, Source};

// What was spelled last.
#[derive(Drop)]
struct Spelled {
    // The state before the next item, and its index.
    state: u32,
    index: u64,
    // How many items the feed has.
    count: u64,
    piece: ArrayVec<u8, LONGEST_ITEM>,
    // How much of the piece was given.
    given: usize,
}

/// The feed of so many generated items: its header, and headings of a gyro, 400 milliseconds apart. It never fails.
#[derive(Drop)]
pub struct GeneratedFeed {
    spelled: Spelled,
}

impl Model for GeneratedFeed {
    ghost use Rattle.std.specs.Prelude.{List, ℕ};
    ghost use Rattle.vdr_feed.specs.Generated.{IsSpelled, left_of};

    ghost Value = { List ℕ };

    ghost view = { λ s. left_of s.spelled };

    ghost invariant = { λ s. IsSpelled s.spelled };
}

// Spells the item of this index.
fn spell(state: &mut u32, index: u64, piece: &mut ArrayVec<u8, LONGEST_ITEM>)
    requires { index < 1_000_000 }
    ensures state { state.new ≡ trial_state state.old }
    ensures piece { piece.new.items ≡ spelling (item_of (trial_state state.old) index) }
{
    let mut item = Item::new();
    trial_item(state, index, &mut item);
    write_item(&item, piece);
}

// Spells the next item where all of the last one was given.
fn refill(s: &mut Spelled)
    requires { IsSpelled s.old }
    ensures well { IsSpelled s.new }
    ensures left { left_of s.new ≡ left_of s.old }
    ensures ready { (s.new.given < length s.new.piece.items) ⊎ (left_of s.new ≡ []) }
{
    if s.given < s.piece.len() || s.index == s.count {
        return;
    }
    spell(&mut s.state, s.index, &mut s.piece);
    s.index += 1;
    s.given = 0;
}

impl GeneratedFeed {
    /// The feed of the first items from this seed on, at most 1,000,000.
    pub fn new(seed: u32, count: u64) -> GeneratedFeed
        requires { count ≤ 1_000_000 }
        ensures { result ≡ generated_feed seed count }
    {
        let mut piece = ArrayVec::new();
        push(&mut piece, b"VDRFEED1");
        let spelled = Spelled {
            state: seed,
            index: 0,
            count,
            piece,
            given: 0,
        };
        GeneratedFeed { spelled }
    }
}

impl Source for GeneratedFeed {
    ghost use Rattle.std.specs.Prelude.{Some};

    ghost left = { λ s. Some s };

    ghost faults = { λ _. 0 };

    fn read(&mut self, into: &mut [u8]) -> Result<usize, Failed> {
        refill(&mut self.spelled);
        let rest = &self.spelled.piece.as_slice()[self.spelled.given..];
        let count = into.len().min(rest.len());
        into[..count].copy_from_slice(&rest[..count]);
        self.spelled.given += count;
        Ok(count)
    }
}
