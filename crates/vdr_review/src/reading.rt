// Reading a feed into a review.
ghost use Rattle.std.specs.Prelude.{◌≡◌, ◌≤◌, IfOk, IfSome, IsErrOf};
ghost use Rattle.std.specs.Io.KnownBytes.{IsAtEnd};
ghost use Rattle.vdr_config.specs.Configuration.{IsRate};
ghost use Rattle.vdr_outside.specs.Causes.{Rose};
ghost use Rattle.vdr_feed.specs.Feed.{IsRefused, longest_feed};
ghost use Rattle.vdr_feed.specs.Reader.{IfKnown};
ghost use Rattle.vdr_review.specs.Review.{IfReviewed, limit_asked};
ghost use Rattle.vdr_review.specs.Printed.{printed};
ghost use Rattle.vdr_review.specs.Refusals.{IfRefused};
ghost use Rattle.vdr_review.specs.declared.reading.ReviewRefused.TheVariants.{Input};

use crate::walk::Walk;
use crate::window::Review;
use std::alloc::Global;
use vdr_config::Rate;
use vdr_feed::{FeedFault, FeedReader, Item, LONGEST_FEED};
use vdr_outside::Source;

/// Why a feed has no review.
#[derive(Drop)]
pub enum ReviewRefused {
    /// The source failed, and its count of faults rose.
    Input,
    /// There was no memory.
    Memory,
    /// The feed is refused by this number, at the item that begins at this offset in bytes.
    Refused { number: u8, offset: u64 },
}

/// The review of a feed, which is read to its end, by this rate for each transmission group if there is one.
pub fn review<I: Source>(
    alloc: Global,
    rate: Option<Rate>,
    input: &mut I,
) -> Result<Review, ReviewRefused>
    requires rate { IfSome rate IsRate }
    ensures text { IfOk result (λ review. IsAtEnd (I.left input.new) × IfReviewed (limit_asked rate) (I.left input.old) (λ text. printed review ≡ text)) }
    ensures refused { IfRefused result (λ number offset. IfKnown (I.left input.old) (λ bytes. IsRefused longest_feed bytes number offset)) }
    ensures failed { IsErrOf result Input → Rose (I.faults input.old) (I.faults input.new) }
    ensures later { I.faults input.old ≤ I.faults input.new }
{
    let mut reader = FeedReader::new(LONGEST_FEED);
    match reader.header(input) {
        Ok(()) => {}
        Err(FeedFault::Fault) => return Err(ReviewRefused::Input),
        Err(FeedFault::Refused { number, offset }) => return Err(ReviewRefused::Refused {
            number,
            offset,
        }),
    }
    let Ok(mut walk) = Walk::new(alloc, rate) else {
        return Err(ReviewRefused::Memory);
    };
    let mut item = Item::new();
    loop {
        match reader.item(input, &mut item) {
            Ok(true) => {
                let Ok(()) = walk.add(&item) else {
                    return Err(ReviewRefused::Memory);
                };
            }
            Ok(false) => {
                let Ok(review) = walk.finish() else {
                    return Err(ReviewRefused::Memory);
                };
                return Ok(review);
            }
            Err(FeedFault::Fault) => return Err(ReviewRefused::Input),
            Err(FeedFault::Refused { number, offset }) => {
                return Err(ReviewRefused::Refused { number, offset });
            }
        }
    }
}
