// Reading records out of recorded media, for every command that makes something of them.
//
// `read_out` opens, finds and reads for every command that makes something of records, and maps the ends to statuses
// in one place.
ghost use Rattle.std.specs.Prelude.{◌≡◌, ◌≤◌, ◌⊎◌, [], length, Err, IfSome, IfNone};
ghost use Rattle.vdr_entry.specs.Queries.{asked};
ghost use Rattle.vdr_command.specs.Endings.{ending};
ghost use Rattle.vdr_command.specs.declared.status.Status.{Status as AStatus};
ghost use Rattle.vdr_readout.specs.Reads.{IfItself, IsOwnStatus, LacksChannel, ReadsOut, id_of, plain_play, query_of, status_by};

use std::alloc::{AllocError, Global};
use vdr_command::{Outer, Status, World, report_channel};
use vdr_config::Config;
use vdr_entry::{Medium, Query};
use vdr_opening::law_of_parts;
use vdr_outside::{Media, Sink, Source};
use vdr_recorder::Recorder;
use vdr_vault::{law_of_budgets, law_of_meeting};
use vdr_visit::{VisitRefused, Visitor};

/// The channel's name that stands for all records.
pub(crate) const ALL: &[u8] = b"all";

/// What is to be read out: the records of a channel, or all where it is `all`, whose UTC stamps are from `from` to `to`, both included,
/// in milliseconds since 1970.
#[derive(Clone, Copy, Drop)]
pub struct Wanted<'a> {
    /// The medium or the incident. An incident's id is 1 to 32.
    pub medium: Medium,
    /// The channel's name, or `all`.
    pub channel: &'a [u8],
    /// The first stamp.
    pub from: i64,
    /// The last stamp.
    pub to: i64,
}

/// Why a visitor stops by itself, as it ends a command.
pub trait EndsCommand: Drop {
    /// The status with which it does.
    ghost ends_as: { Self → AStatus };

    /// The status with which it ends the command.
    fn status(&self) -> Status
        ensures is { result ≡ ends_as self.now }
        ensures own { IsOwnStatus result };
}

/// There was no memory.
impl EndsCommand for AllocError {
    ghost use Rattle.vdr_command.specs.declared.status.Status.TheVariants.{NoMemory};

    ghost ends_as = { λ _. NoMemory };

    fn status(&self) -> Status {
        Status::NoMemory
    }
}

/// The id of an incident, 0 where none is asked for.
pub(crate) fn id_of(medium: Medium) -> u32
    ensures { result ≡ id_of medium }
{
    match medium {
        Medium::Capsule | Medium::LongTerm => 0,
        Medium::Incident(id) => id,
    }
}

/// How a visit of this medium that was cut off ends the command. Only an incident's id is asked for in vain.
pub(crate) fn stopped_as<R: EndsCommand>(stop: VisitRefused<R>, medium: Medium) -> Status
    ensures is { result ≡ status_by R.ends_as (Err stop) medium }
    ensures own { IfItself (Err stop) (λ reason. IsOwnStatus (R.ends_as reason)) }
{
    match stop {
        VisitRefused::NoChannel => Status::NoChannel,
        VisitRefused::NoIncident => Status::NoIncident(id_of(medium)),
        VisitRefused::Fault => Status::MediaFault,
        VisitRefused::Damaged { medium, offset } => Status::Damaged { medium, offset },
        VisitRefused::Output => Status::OutputFault,
        VisitRefused::Own(reason) => reason.status(),
    }
}

/// How a visit of this medium ends the command.
pub(crate) fn ended_by<R: EndsCommand>(
    ended: Result<(), VisitRefused<R>>,
    medium: Medium,
) -> Result<(), Status>
    ensures is { ending result ≡ status_by R.ends_as ended medium }
    ensures own { IfItself ended (λ reason. IsOwnStatus (R.ends_as reason)) }
{
    match ended {
        Ok(()) => Ok(()),
        Err(stop) => Err(stopped_as(stop, medium)),
    }
}

/// The query of what is wanted, None where no such channel is configured.
pub fn query_in(config: &Config, wanted: Wanted<'_>) -> Option<Query>
    ensures found { IfSome result (λ query. (asked query ≡ query_of config.now wanted.entry.medium wanted.entry.channel.now wanted.entry.from wanted.entry.to)
        × (LacksChannel config.now wanted.entry.channel.now → ⊥)) }
    ensures none { IfNone result (LacksChannel config.now wanted.entry.channel.now) }
{
    let mut query = Query {
        medium: wanted.medium,
        channel: None,
        from: wanted.from,
        to: wanted.to,
    };
    if wanted.channel == ALL {
        return Some(query);
    }
    let Some(number) = config.channel_of(wanted.channel) else {
        return None;
    };
    query.channel = Some(number);
    Some(query)
}

/// The same, of a recorder.
pub(crate) fn query_of(recorder: &Recorder, wanted: Wanted<'_>) -> Option<Query>
    ensures found { IfSome result (λ query. (asked query ≡ query_of recorder.now.vault.config wanted.entry.medium wanted.entry.channel.now wanted.entry.from wanted.entry.to)
        × (LacksChannel recorder.now.vault.config wanted.entry.channel.now → ⊥)) }
    ensures none { IfNone result (LacksChannel recorder.now.vault.config wanted.entry.channel.now) }
{
    query_in(recorder.config(), wanted)
}

/// Opens the media, finds what is wanted there, and hands its records to the visitor. What the visitor prints goes to the output. Only the
/// line of a channel that is not configured is written besides, by `NoChannel`.
///
/// `Unformatted`, `Damaged` and want of memory come of opening; then `NoChannel`, and then `NoIncident`, before anything is read.
/// `MediaFault` and `Damaged` may come while reading; then the lines of whole records stand in the output, the first ones.
///
/// Where the work is done on media that can be read, it reads no more than opening does, and a segment for each that meets what is
/// wanted, each once.
pub fn read_out<I: Source + Drop, O: Sink + Drop, M: Media + Drop, V: Visitor>(
    alloc: Global,
    wanted: Wanted<'_>,
    visitor: &mut V,
    world: &mut World<I, O, M>,
) -> Result<(), Status>
where
    V::Reason: EndsCommand,
    requires two { 2 ≤ length (M.disk world.old.media).sizes }
    requires three { length (M.disk world.old.media).sizes ≤ 3 }
    ensures reads { let at = ⟦<World<I, O, M> as Outer>⟧.outside in (first : V) → V.has first [] visitor.old
        → ReadsOut (plain_play wanted.entry) (λ seen. V.has first seen visitor.new) (V.stops first) V.Reason.ends_as (V.line first) (V.last first) (at world.old) (at world.new) (ending result) }
    ensures later { O.faults world.old.output ≤ O.faults world.new.output }
    ensures sizes { (M.disk world.new.media).sizes ≡ (M.disk world.old.media).sizes }
    ensures unread { world.new.input ≡ world.old.input }
{
    let mut recorder = Recorder::open(alloc, &mut world.media)?;
    law_of_parts();
    law_of_budgets(&world.media);
    law_of_meeting();
    let Some(query) = query_of(&recorder, wanted) else {
        report_channel(wanted.channel, &mut world.output);
        return Err(Status::NoChannel);
    };
    let ended = recorder.visit(&mut world.media, &query, visitor, &mut world.output);
    ended_by(ended, wanted.medium)
}
