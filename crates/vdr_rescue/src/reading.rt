// One medium alone, as what is read.
ghost use Rattle.std.specs.Prelude.{◌≡◌, ◌⊎◌, [], length, Err};
ghost use Rattle.vdr_outside.specs.Disk.{content};
ghost use Rattle.vdr_entry.specs.Queries.{asked, asked_medium};
ghost use Rattle.vdr_segment.specs.Areas.{HasRoom};
ghost use Rattle.vdr_directory.specs.Costs.{ReadsAtMost};
ghost use Rattle.vdr_visit.specs.Prints.{whole_text};
ghost use Rattle.vdr_visit.specs.Refusals.{HasOutputCause, IsAccepted, lacks_channel, lacks_incident, unanswered};
ghost use Rattle.vdr_visit.specs.Visits.{HasHanded, end_of};
ghost use Rattle.vdr_visit.specs.declared.visit_refused.VisitRefused.TheVariants.{NoChannel, NoIncident, Output};
ghost use Rattle.vdr_rescue.specs.Alones.{LeavesAlone, Selects};
ghost use Rattle.vdr_rescue.specs.Cursors.{at_front, budget};

use crate::Alone;
use crate::visiting::visit_all;
use vdr_config::Config;
use vdr_entry::{Medium, Query};
use vdr_outside::{Media, Sink};
use vdr_visit::{Reader, VisitRefused, Visitor};

// Whether a channel is asked for that is not configured.
fn lacks_channel(config: &Config, channel: Option<u8>) -> bool
    ensures { result ≡ lacks_channel (length config.now.channels) channel }
{
    match channel {
        Some(number) => config.channels.len() <= number as usize,
        None => false,
    }
}

// Whether an incident is asked for that is not live.
fn lacks_incident(alone: &Alone, medium: Medium) -> bool
    ensures { result ≡ lacks_incident alone.now.saves.table (asked_medium medium) }
{
    match medium {
        Medium::Capsule | Medium::LongTerm => false,
        Medium::Incident(id) => alone.live(id).is_none(),
    }
}

fn accept<R>(alone: &Alone, query: &Query) -> Result<(), VisitRefused<R>>
    ensures { result ≡ unanswered (lacks_channel (length alone.now.config.channels) query.now.channel) (lacks_incident alone.now.saves.table (asked query.now).medium) }
{
    if lacks_channel(alone.config(), query.channel) {
        return Err(VisitRefused::NoChannel);
    }
    if lacks_incident(alone, query.medium) {
        return Err(VisitRefused::NoIncident);
    }
    Ok(())
}

// Hands the records that the query selects to the visitor, and then their end, until it stops.
fn visit_alone<M: Media, V: Visitor, O: Sink>(
    alone: &mut Alone,
    media: &mut M,
    query: &Query,
    visitor: &mut V,
    out: &mut O,
) -> Result<(), VisitRefused<V::Reason>>
    requires room { HasRoom alone.old.cursor.area (M.disk media.old).sizes }
    ensures accepted { IsAccepted (lacks_channel (length alone.old.config.channels) query.now.channel) (lacks_incident alone.old.saves.table (asked query.now).medium) result }
    ensures handed { (first : V) → V.has first [] visitor.old
        → HasHanded (λ records. M.tells × Selects (content (M.disk media.old).reads alone.old.cursor.area.medium) alone.old (asked query.now) records)
        (λ seen. V.has first seen visitor.new) (V.stops first) (V.line first) (whole_text (V.line first) (V.last first)) (O.taken out.old) (O.taken out.new) result }
    ensures unread { (result ≡ Err NoChannel) ⊎ (result ≡ Err NoIncident) → (alone.new ≡ alone.old) × (media.new ≡ media.old) × (visitor.new ≡ visitor.old) × (out.new ≡ out.old) }
    ensures leaves { LeavesAlone M.Media alone.old alone.new media.old media.new (end_of result) }
    ensures costs { ReadsAtMost alone.old.cursor.area.medium (budget (at_front alone.old.cursor)) (M.bytes_read media.old) (M.bytes_read media.new) }
    ensures output { HasOutputCause (O.faults out.old) (O.faults out.new) (result ≡ Err Output) }
{
    accept(alone, query)?;
    visit_all(&mut alone.cursor, &alone.saves, media, query, visitor, out)
}

impl Reader for Alone {
    ghost use Rattle.std.specs.Prelude.{false, length};
    ghost use Rattle.vdr_outside.specs.Disk.{content};
    ghost use Rattle.vdr_directory.specs.Costs.{ReadsAtMost};
    ghost use Rattle.vdr_segment.specs.Areas.{HasRoom};
    ghost use Rattle.vdr_visit.specs.Refusals.{lacks_channel, lacks_incident};
    ghost use Rattle.vdr_rescue.specs.Alones.{LeavesAlone, Selects};
    ghost use Rattle.vdr_rescue.specs.Cursors.{at_front, budget};

    ghost may_read = { λ a sizes. HasRoom a.cursor.area sizes };

    ghost lacks_channel = { λ a k. lacks_channel (length a.config.channels) k };

    ghost lacks_incident = { λ a m. lacks_incident a.saves.table m };

    ghost failed = { λ a. false };

    ghost tells = { λ M media a m query records. media.tells × Selects (content (media.disk m).reads a.cursor.area.medium) a query records };

    ghost leaves = { λ M media query old new before after end. LeavesAlone media old new before after end };

    ghost costs = { λ M media query a before after. ReadsAtMost a.cursor.area.medium (budget (at_front a.cursor)) (media.bytes_read before) (media.bytes_read after) };

    fn failed(&self) -> bool {
        false
    }

    fn accept<R>(&self, query: &Query) -> Result<(), VisitRefused<R>> {
        accept(self, query)
    }

    fn visit<M: Media, V: Visitor, O: Sink>(
        &mut self,
        media: &mut M,
        query: &Query,
        visitor: &mut V,
        out: &mut O,
    ) -> Result<(), VisitRefused<V::Reason>> {
        visit_alone(self, media, query, visitor, out)
    }

    fn law_of_visits<M: Media>() {}
}
