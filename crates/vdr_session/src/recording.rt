// A recording session over ports, with desks.
ghost use Rattle.std.specs.Prelude.{◌≡◌, ◌≤◌, ◌<◌, ◌^◌, ℕ, [], None, false, length, replicate, slice_index_or, sum};
ghost use Rattle.vdr_intake.specs.Items.{most_items};
ghost use Rattle.vdr_opening.specs.Media.{members_with};
ghost use Rattle.vdr_vault.specs.Calls.{SameElsewhere};
ghost use Rattle.vdr_vault.specs.Vaults.{AreRings};
ghost use Rattle.vdr_capture.specs.declared.sums.Outcome.TheVariants.{NoMemory};
ghost use Rattle.vdr_recorder.specs.Watched.{IsWatched, Tells};
ghost use Rattle.vdr_session.specs.declared.records.Began.{Began as HowBegun};
ghost use Rattle.vdr_session.specs.Calls.{AreByGroup, EndsSession, MayRecord};
ghost use Rattle.vdr_session.specs.Desks.{DesksReplied, DesksTold, FailureTold};
ghost use Rattle.vdr_session.specs.Ended.{IsToldAs, IsWithFailures};
ghost use Rattle.vdr_session.specs.Sessions.{DecidesSession, HasGroups, HasSessionCause, IsUnbegun, SessionWith};

use crate::SessionEnd;
use crate::ending::{Ended, run_lent};
use crate::making::{Memory, none};
use crate::mark::Mark;
use crate::plan::Plan;
use crate::summing::{failed_port, intakes_of, sums};
use std::alloc::Global;
use std::marker::Brand;
use std::sync::Wait;
use std::thread::Threads;
use vdr_capture::{Lane, Outcome};
use vdr_desk::{Desk, failed_link};
use vdr_outside::{Link, Media, Port};
use vdr_recorder::{Recorder, Watch};
use vdr_reply::Gauge;
use vdr_run::Charges;

// There was no memory, and nothing was recorded.
fn without_memory() -> SessionEnd
    ensures outcome { result.outcome ≡ NoMemory }
    ensures none { (result.groups ≡ replicate 16 None) × (result.intakes ≡ replicate 16 None) }
{
    SessionEnd {
        outcome: Outcome::NoMemory,
        groups: none(),
        records: 0,
        intakes: none(),
    }
}

// How the session ended, with its ports and links: a fault of the media comes before one of a port, and that before one of a link.
fn with_failures<P, L>(outcome: Outcome, lanes: &[Lane<P>], desks: &[Desk<L, Mark>]) -> Outcome
    requires sixteen { length lanes.now ≡ 16 }
    requires few { length desks.now < 2 ^ 32 }
    ensures told { IsWithFailures outcome result }
    ensures failures { (began : HowBegun) → IsToldAs began outcome → FailureTold result lanes.now desks.now }
{
    if outcome != Outcome::Done {
        return outcome;
    }
    if let Some(group) = failed_port(lanes) {
        return Outcome::PortFault(group);
    }
    match failed_link(desks) {
        Some(link) => Outcome::LinkFault(link),
        None => Outcome::Done,
    }
}

// Sets all desks anew.
fn reset<L>(desks: &mut [Desk<L, Mark>])
    ensures each { (i : ℕ) (d : _) → i < length desks.old → slice_index_or desks.new i d ≡ record (slice_index_or desks.old i d) { pass = None; cause = None } }
    ensures as_many { length desks.new ≡ length desks.old }
{
    for i in 0..desks.len() {
        desks[i].pass = None;
        desks[i].cause = None;
    }
}

// Records as `record_at_desks` does. Each clause is proved on each way out.
fn record_and_reply<
    M: Media + Send,
    W: Watch<M> + Gauge<M> + Send,
    P: Port + Send,
    L: Link + Send,
    R: Threads + Wait + Sync,
>(
    rt: &R,
    alloc: Global,
    recorder: Recorder,
    media: &mut M,
    watch: &mut W,
    lanes: &mut [Lane<P>],
    desks: &mut [Desk<L, Mark>],
    turns: u64,
) -> SessionEnd
    requires rings { AreRings recorder.vault (M.disk media.old).sizes }
    requires new { (recorder.is_open ≡ false) × (recorder.vault.failed ≡ false) }
    requires lanes { length lanes.old ≡ 16 }
    requires groups { (g : ℕ) (d : _) → g < 16 → (slice_index_or lanes.old g d).group ≡ g }
    requires desks { length desks.old < 2 ^ 32 }
    requires watched { IsWatched W.hears (W.seen watch.old) recorder (M.disk media.old) }
    requires turns { turns ≤ most_items }
    ensures session { SessionWith P.Port turns recorder.vault.config.queue recorder.vault.config.groups lanes.old lanes.new recorder (M.disk media.old) (M.disk media.new) result
        (λ opening events. DesksReplied L.Link turns recorder.vault.config.channels (sum (M.faults media.old)) (sum (M.faults media.new)) result.outcome desks.old desks.new opening events
        × Tells W.hears opening [] events (W.seen watch.old) (W.seen watch.new)) }
    ensures desks { DesksTold L.Link turns result.outcome desks.old desks.new }
    ensures failures { FailureTold result.outcome lanes.new desks.new }
    ensures groups { HasGroups recorder.vault.config.groups result }
    ensures decides { DecidesSession recorder.vault result.outcome }
    ensures unbegun { IsUnbegun result.outcome → (media.new ≡ media.old) × ((g : ℕ) (d : _) → g < 16 → (slice_index_or lanes.new g d).port ≡ (slice_index_or lanes.old g d).port) }
    ensures others { M.tells → SameElsewhere (members_with 0) (M.disk media.old).reads (M.disk media.new).reads }
    ensures sizes { (M.disk media.new).sizes ≡ (M.disk media.old).sizes }
    ensures cause { HasSessionCause (M.faults media.old) (M.faults media.new) result.outcome }
{
    let plan = Plan::new(recorder.config());
    let first = recorder.status().records;
    reset(desks);
    let charges = Charges::new(recorder.config());
    let Ok(mut memory) = Memory::new(rt, alloc, &plan, charges, lanes, desks.len()) else {
        return without_memory();
    };
    let (media, watch, ended) = run_lent::<M, W, P, L, Brand, R>(
        rt,
        alloc,
        recorder,
        media,
        watch,
        lanes,
        desks,
        turns,
        &mut memory,
        plan.room,
    );
    let _ = &*media;
    let _ = &*watch;
    let Some(Ended { recorder, outcome }) = ended else {
        return without_memory();
    };
    SessionEnd {
        outcome: with_failures(outcome, lanes, desks),
        groups: sums(&recorder, lanes, &memory.queues),
        records: recorder.status().records.saturating_sub(first),
        intakes: intakes_of(memory.queues, memory.takers),
    }
}

/// Records what the ports of the lanes give, as one run, with at most `turns` takes of each port, and has the orders of the desks answered, with
/// at most `turns` calls of each link for a line.
///
/// It takes all its memory, sets lanes and desks anew, asks the host for all its threads at once, and begins the run. Each lane of a configured group is captured in a thread of its own,
/// and each desk is served in one, beside the loop that takes what is queued into the run, in batches that are committed one by one. An
/// order of a desk takes a turn between two batches: it is one event of the history, and its reply is a function of the history before
/// that. The watch is told of each turn at its end, before its reply. A play takes memory for its page, and is answered `FAULT 9` where there is none. Once all captures and desks have ended and all
/// queues are empty the run is closed by its closing Gaps and Stop.
///
/// `NoMemory`: nothing was called; the host refused memory, or one of the threads. `Place`, `Tick`: the next place, or the tick of the Start, is at least 2^62, and nothing was called. `MediaFault`: the
/// count of faults of a medium rose; the recording ends there, the captures and the desks go on to their ends, and what was recorded before
/// stays. `PortFault`: the run was closed, and the port of this group failed, the least where several did. `LinkFault`: the run was closed, no
/// port failed, and the link of this desk did, the least where several did.
pub fn record_at_desks<
    M: Media + Send,
    W: Watch<M> + Gauge<M> + Send,
    P: Port + Send,
    L: Link + Send,
    R: Threads + Wait + Sync,
>(
    rt: &R,
    alloc: Global,
    recorder: Recorder,
    media: &mut M,
    watch: &mut W,
    lanes: &mut [Lane<P>],
    desks: &mut [Desk<L, Mark>],
    turns: u64,
) -> SessionEnd
    requires recorder { MayRecord recorder (M.disk media.old).sizes }
    requires lanes { AreByGroup lanes.old }
    requires desks { length desks.old < 2 ^ 32 }
    requires watched { IsWatched W.hears (W.seen watch.old) recorder (M.disk media.old) }
    requires turns { turns ≤ most_items }
    ensures session { SessionWith P.Port turns recorder.vault.config.queue recorder.vault.config.groups lanes.old lanes.new recorder (M.disk media.old) (M.disk media.new) result
        (λ opening events. DesksReplied L.Link turns recorder.vault.config.channels (sum (M.faults media.old)) (sum (M.faults media.new)) result.outcome desks.old desks.new opening events
        × Tells W.hears opening [] events (W.seen watch.old) (W.seen watch.new)) }
    ensures desks { DesksTold L.Link turns result.outcome desks.old desks.new }
    ensures failures { FailureTold result.outcome lanes.new desks.new }
    ensures ends { EndsSession M.Media recorder.vault lanes.old lanes.new media.old media.new result }
{
    record_and_reply(rt, alloc, recorder, media, watch, lanes, desks, turns)
}
