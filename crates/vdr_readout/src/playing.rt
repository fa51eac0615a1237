// Playing what was recorded.
ghost use Rattle.std.specs.Prelude.{◌≡◌, ◌≤◌, length};
ghost use Rattle.vdr_play.specs.Streams.{nothing_seen};
ghost use Rattle.vdr_command.specs.Endings.{ending};
ghost use Rattle.vdr_command.specs.declared.status.Status.TheVariants.{Words};
ghost use Rattle.vdr_readout.specs.Plays.{Plays};
ghost use Rattle.vdr_readout.specs.Reads.{plain_play};

use crate::reading::{Wanted, read_out};
use std::alloc::{AllocError, Global};
use vdr_command::{Outer, Status, World, law_of_openings};
use vdr_entry::Record;
use vdr_outside::{Media, Sink, Source};
use vdr_recorder::Player;
use vdr_visit::{Visitor, VisitorRefused};

/// A player as a command has it: with a reason to stop that has a status, though it never stops by itself.
#[derive(Drop)]
pub struct Printer {
    player: Player,
}

impl Printer {
    /// Of which no record was played.
    pub fn new() -> Printer
        ensures { result.player.tracks ≡ nothing_seen }
    {
        Printer {
            player: Player::new(),
        }
    }
}

impl Visitor for Printer {
    ghost use Rattle.std.specs.Prelude.{◌≡◌, []};
    ghost use Rattle.vdr_play.specs.Texts.{record_text, seen_by};

    type Reason = AllocError;

    ghost has = { λ first seen now. now.player.tracks ≡ seen_by first.player.tracks seen };

    ghost line = { λ first seen item. record_text (seen_by first.player.tracks seen) item };

    ghost last = { λ _ _. [] };

    ghost stops = { λ _ _ _. ⊥ };

    fn visit<O: Sink>(
        &mut self,
        item: &Record,
        out: &mut O,
    ) -> Result<(), VisitorRefused<AllocError>> {
        match self.player.visit(item, out) {
            Ok(()) => Ok(()),
            Err(VisitorRefused::Output) => Err(VisitorRefused::Output),
            Err(VisitorRefused::Own(never)) => match never {},
        }
    }

    fn finish<O: Sink>(&mut self, _out: &mut O) -> Result<(), VisitorRefused<AllocError>> {
        Ok(())
    }
}

/// Plays what is wanted, and prints each record as it is read. Memory is taken to open the media, and none after that.
pub(crate) fn answer_play<I: Source + Drop, O: Sink + Drop, M: Media + Drop>(
    alloc: Global,
    wanted: Wanted<'_>,
    world: &mut World<I, O, M>,
) -> Result<(), Status>
    requires two { 2 ≤ length (M.disk world.old.media).sizes }
    requires three { length (M.disk world.old.media).sizes ≤ 3 }
    ensures owed { let at = ⟦<World<I, O, M> as Outer>⟧.outside in Plays (plain_play wanted.entry) (at world.old) (at world.new) (ending result) }
    ensures known { ending result ≡ Words → ⊥ }
    ensures later { O.faults world.old.output ≤ O.faults world.new.output }
    ensures sizes { (M.disk world.new.media).sizes ≡ (M.disk world.old.media).sizes }
    ensures unread { world.new.input ≡ world.old.input }
{
    law_of_openings();
    read_out(alloc, wanted, &mut Printer::new(), world)
}
