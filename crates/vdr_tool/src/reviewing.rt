// Reviewing a feed.
ghost use Rattle.std.specs.Prelude.{◌≡◌, ◌≤◌, ◌⊎◌, IfSome};
ghost use Rattle.std.specs.Io.KnownBytes.{IsAtEnd, Appends};
ghost use Rattle.vdr_config.specs.Configuration.{IsRate};
ghost use Rattle.vdr_feed.specs.Feed.{IsRefused, longest_feed};
ghost use Rattle.vdr_feed.specs.Reader.{IfKnown};
ghost use Rattle.vdr_outside.specs.Causes.{Rose};
ghost use Rattle.vdr_outside.specs.Writes.{AppendsFront};
ghost use Rattle.vdr_review.specs.Review.{IfReviewed, limit_asked};
ghost use Rattle.vdr_command.specs.Endings.{IsWorkDone, ending};
ghost use Rattle.vdr_tool.specs.Reviews.{IsReviewStatus, Reviews};
ghost use Rattle.vdr_command.specs.StatusLine.{IfFeed};
ghost use Rattle.vdr_command.specs.declared.status.Status.TheVariants.{Done, InputFault, OutputFault, Words};

use std::alloc::Global;
use vdr_command::{Outer, Status, World};
use vdr_config::Rate;
use vdr_feed::law_of_feeds;
use vdr_outside::{Media, Sink, Source, print_buffered};
use vdr_review::review;

// Reads the feed to its end and prints its review.
fn print_review<I: Source, O: Sink>(
    alloc: Global,
    rate: Option<Rate>,
    input: &mut I,
    output: &mut O,
) -> Result<(), Status>
    requires rate { IfSome rate IsRate }
    ensures statuses { IsReviewStatus (ending result) }
    ensures done { ending result ≡ Done → IsAtEnd (I.left input.new) × IfReviewed (limit_asked rate) (I.left input.old) (λ text. Appends (O.taken output.old) (O.taken output.new) text) }
    ensures feed { IfFeed (ending result) (λ number offset. IfKnown (I.left input.old) (λ bytes. IsRefused longest_feed bytes number offset)) }
    ensures input { ending result ≡ InputFault → Rose (I.faults input.old) (I.faults input.new) }
    ensures output { ending result ≡ OutputFault → Rose (O.faults output.old) (O.faults output.new)
        × IfReviewed (limit_asked rate) (I.left input.old) (λ text. AppendsFront (O.taken output.old) (O.taken output.new) text) }
    ensures silent { IsWorkDone (ending result) ⊎ (output.new ≡ output.old) }
    ensures later { O.faults output.old ≤ O.faults output.new }
{
    let review = review(alloc, rate, input)?;
    match print_buffered(&review, output) {
        Ok(()) => Ok(()),
        Err(_) => Err(Status::OutputFault),
    }
}

/// Reviews the feed that the input is, in which each group has this rate if there is one.
pub(crate) fn answer_review<I: Source + Drop, O: Sink + Drop, M: Media + Drop>(
    alloc: Global,
    rate: Option<Rate>,
    world: &mut World<I, O, M>,
) -> Result<(), Status>
    requires rate { IfSome rate IsRate }
    ensures owed { let at = ⟦<World<I, O, M> as Outer>⟧.outside in Reviews rate (at world.old) (at world.new) (ending result) }
    ensures known { ending result ≡ Words → ⊥ }
    ensures later { O.faults world.old.output ≤ O.faults world.new.output }
    ensures untouched { world.new.media ≡ world.old.media }
{
    law_of_feeds();
    print_review(alloc, rate, &mut world.input, &mut world.output)
}
