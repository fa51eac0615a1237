// The recorder under the latch answers the orders of desks.
use crate::kept::{Kept, Lent};
use std::alloc::Global;
use vdr_control::Order;
use vdr_desk::{Answers, Piece, Reply};
use vdr_outside::Media;
use vdr_recorder::Watch;
use vdr_reply::{Gauge, Rest, answer, go_on};

impl<'a, 'b, M: Media, W: Watch<M> + Gauge<M>, O: Lent> Answers for Kept<'a, 'b, M, W, O> {
    ghost use Rattle.std.specs.Prelude.{sum};
    ghost use Rattle.vdr_reply.specs.Plays.{left_of};
    ghost use Rattle.vdr_session.specs.Answering.{AnswersMark, AwaitsMark, order_mark, step_mark};

    type Rest = Rest;

    ghost event = { λ desk k order _ l. order_mark desk order k.recorder.vault l.recorder.vault.failed (M.disk l.media.now).clock (sum (M.faults k.media.now)) (sum (M.faults l.media.now)) };

    ghost step = { λ desk k l. step_mark desk l.recorder.vault.failed (M.disk l.media.now).clock (sum (M.faults k.media.now)) (sum (M.faults l.media.now)) };

    ghost answers = { λ desk a. AnswersMark M.tells O.began O.channels desk a };

    ghost waits = { λ desk a rest. AwaitsMark M.tells O.began O.channels desk a rest };

    ghost left = { λ rest. left_of rest };

    fn answer(&mut self, alloc: Global, order: Order<'_>) -> (Reply, Option<Rest>) {
        let tally = &self.tally;
        answer(
            alloc,
            &mut self.recorder,
            self.media,
            self.watch,
            tally,
            order,
        )
    }

    fn go_on(&mut self, rest: Rest, piece: &mut Piece) -> Option<Rest> {
        go_on(&mut self.recorder, self.media, self.watch, rest, piece)
    }
}
