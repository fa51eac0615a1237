// Listing the live incidents, over a link.
ghost use Rattle.std.specs.Prelude.{◌≡◌, ◌⊎◌, ◌++◌, ℕ, List, false, sum};
ghost use Rattle.vdr_core.specs.Histories.{Event, Opening};
ghost use Rattle.vdr_outside.specs.Causes.{Rose};
ghost use Rattle.vdr_control.specs.Orders.PlainOrder.{Incidents as IncidentsOrder};
ghost use Rattle.vdr_recorder.specs.Recordings.{HasRecorded};
ghost use Rattle.vdr_recorder.specs.Watched.{IsWatched};
ghost use Rattle.vdr_teller.specs.Incidents.{incidents_text};
ghost use Rattle.vdr_reply.specs.Answers.{HasAnswered};
ghost use Rattle.vdr_reply.specs.Texts.{IsTextOr9, done_line, with_end};

use crate::lines::NO_MEMORY;
use crate::page::Page;
use std::alloc::Global;
use vdr_desk::Reply;
use vdr_outside::Media;
use vdr_recorder::{Recorder, Watch};
use vdr_teller::print_incidents;

// The page of the live incidents.
fn list(alloc: Global, recorder: &Recorder) -> Reply
    ensures { IsTextOr9 (with_end (done_line ++ incidents_text recorder.now.vault.table)) result }
{
    let Ok(mut page) = Page::begin(alloc) else {
        return Reply::of_line(NO_MEMORY);
    };
    match print_incidents(recorder, &mut page) {
        Ok(()) => page.reply(),
        Err(_) => Reply::of_line(NO_MEMORY),
    }
}

/// Answers which incidents are live, on media that have not failed.
pub(crate) fn answer_incidents<M: Media, W: Watch<M>>(
    alloc: Global,
    recorder: &Recorder,
    media: &M,
    watch: &mut W,
) -> Reply
    requires works { recorder.now.vault.failed ≡ false }
    requires watched { IsWatched W.hears (W.seen watch.old) recorder.now (M.disk media.now) }
    ensures answered { (opening : Opening) (events : List Event) (t0 : ℕ) → HasRecorded opening events t0 recorder.now (M.disk media.now)
        → HasAnswered recorder.now.vault.config.channels (Rose (sum (M.faults media.now)) (sum (M.faults media.now))) opening events t0 IncidentsOrder result recorder.now recorder.now (M.disk media.now) (M.disk media.now) W.hears (W.seen watch.old) (W.seen watch.new) }
    ensures watched { IsWatched W.hears (W.seen watch.new) recorder.now (M.disk media.now) }
{
    recorder.look_watched(media, watch);
    list(alloc, recorder)
}
