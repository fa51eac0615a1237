// Reading a stored file to its end, and the records of one that was read, as what is read.
ghost use Rattle.std.specs.Prelude.{◌≡◌, ◌⊎◌, [], length, false, Err, IfOk};
ghost use Rattle.vdr_entry.specs.Queries.{asked};
ghost use Rattle.vdr_visit.specs.Prints.{whole_text};
ghost use Rattle.vdr_visit.specs.Refusals.{HasOutputCause, IsAccepted, lacks_channel, unanswered};
ghost use Rattle.vdr_visit.specs.Visits.{HasHanded, end_of};
ghost use Rattle.vdr_visit.specs.declared.visit_refused.VisitRefused.TheVariants.{NoChannel, NoIncident, Output};
ghost use Rattle.vdr_verify.specs.Accounts.{HasStamps};
ghost use Rattle.vdr_verify.specs.Standing.{HasInputCause};
ghost use Rattle.vdr_verify.specs.Stored.{LeavesFile, ReadsFile};
ghost use Rattle.vdr_verify.specs.Visiting.{HasReadCause, IsLeftWhole};

use crate::evidence::Evidence;
use crate::refused::VerifyRefused;
use crate::stored::StoredFile;
use crate::verifying::read_whole;
use crate::visiting::visit_through;
use std::alloc::Global;
use vdr_config::Config;
use vdr_entry::Query;
use vdr_outside::{Media, Sink};
use vdr_visit::{Reader, VisitRefused, Visitor};

/// Reads a stored file to its end, and keeps what it holds but for its records, where it is evidence.
///
/// Memory is taken to read the configuration, of at most 16,380 bytes, and for its text.
pub fn read_evidence<F: StoredFile>(alloc: Global, file: &mut F) -> Result<Evidence, VerifyRefused>
    ensures reads { ReadsFile (F.whole file.old) result }
    ensures stamps { IfOk result (λ evidence. HasStamps evidence.account) }
    ensures same { F.whole file.new ≡ F.whole file.old }
    ensures cause { HasInputCause (F.faults file.old) (F.faults file.new) result }
{
    let Ok(mut reading) = file.open() else {
        return Err(VerifyRefused::Input);
    };
    let read = read_whole(alloc, &mut reading);
    file.close(reading);
    read
}

/// The records of a stored file that was read to its end, as what is read: at each visit the file is read again, and has to be the same.
#[derive(Drop)]
pub struct EvidenceReader<'a, F: StoredFile> {
    /// What was kept of the file.
    pub kept: Evidence,
    /// The file.
    pub file: &'a mut F,
}

// Whether a channel is asked for that is not configured.
fn lacks_channel(config: &Config, channel: Option<u8>) -> bool
    ensures { result ≡ lacks_channel (length config.now.channels) channel }
{
    match channel {
        Some(number) => config.channels.len() <= number as usize,
        None => false,
    }
}

fn accept<R>(kept: &Evidence, query: &Query) -> Result<(), VisitRefused<R>>
    ensures { result ≡ unanswered (lacks_channel (length kept.now.head.config.channels) query.now.channel) false }
{
    if lacks_channel(kept.config(), query.channel) {
        return Err(VisitRefused::NoChannel);
    }
    Ok(())
}

// Reads the file again, and hands the records that the query selects to the visitor, and then their end, until it stops.
fn visit_file<F: StoredFile, V: Visitor, O: Sink>(
    kept: &Evidence,
    file: &mut F,
    query: &Query,
    visitor: &mut V,
    out: &mut O,
) -> Result<(), VisitRefused<V::Reason>>
    ensures handed { (first : V) → V.has first [] visitor.old
        → HasHanded (IsLeftWhole (F.whole file.old) kept.now (asked query.now))
        (λ seen. V.has first seen visitor.new) (V.stops first) (V.line first) (whole_text (V.line first) (V.last first)) (O.taken out.old) (O.taken out.new) result }
    ensures same { F.whole file.new ≡ F.whole file.old }
    ensures cause { HasReadCause (F.faults file.old) (F.faults file.new) result }
    ensures output { HasOutputCause (O.faults out.old) (O.faults out.new) (result ≡ Err Output) }
{
    let Ok(mut reading) = file.open() else {
        return Err(VisitRefused::Fault);
    };
    let ended = visit_through(&mut reading, kept, query, visitor, out);
    file.close(reading);
    ended
}

// The same of a query that was accepted.
fn visit_again<F: StoredFile, V: Visitor, O: Sink>(
    reader: &mut EvidenceReader<'_, F>,
    query: &Query,
    visitor: &mut V,
    out: &mut O,
) -> Result<(), VisitRefused<V::Reason>>
    ensures accepted { IsAccepted (lacks_channel (length reader.old.kept.head.config.channels) query.now.channel) false result }
    ensures handed { (first : V) → V.has first [] visitor.old
        → HasHanded (IsLeftWhole (F.whole reader.old.file.now) reader.old.kept (asked query.now))
        (λ seen. V.has first seen visitor.new) (V.stops first) (V.line first) (whole_text (V.line first) (V.last first)) (O.taken out.old) (O.taken out.new) result }
    ensures unread { (result ≡ Err NoChannel) ⊎ (result ≡ Err NoIncident) → (reader.new ≡ reader.old) × (visitor.new ≡ visitor.old) × (out.new ≡ out.old) }
    ensures leaves { LeavesFile reader.old.kept reader.new.kept reader.old.file.ghost_name reader.new.file.ghost_name (F.whole reader.old.file.now) (F.whole reader.new.file.now)
        (F.faults reader.old.file.now) (F.faults reader.new.file.now) (end_of result) }
    ensures output { HasOutputCause (O.faults out.old) (O.faults out.new) (result ≡ Err Output) }
{
    accept(&reader.kept, query)?;
    visit_file(&reader.kept, reader.file, query, visitor, out)
}

impl<'a, F: StoredFile> Reader for EvidenceReader<'a, F> {
    ghost use Rattle.std.specs.Prelude.{◌≡◌, false, length, ⊤};
    ghost use Rattle.vdr_visit.specs.Refusals.{lacks_channel};
    ghost use Rattle.vdr_verify.specs.Stored.{LeavesFile};
    ghost use Rattle.vdr_verify.specs.Visiting.{IsLeftWhole};

    ghost may_read = { λ r sizes. ⊤ };

    ghost lacks_channel = { λ r k. lacks_channel (length r.kept.head.config.channels) k };

    ghost lacks_incident = { λ r m. false };

    ghost failed = { λ r. false };

    ghost tells = { λ M media r m query records. IsLeftWhole (F.whole r.file.now) r.kept query records };

    ghost leaves = { λ M media query r s before after end. LeavesFile r.kept s.kept r.file.ghost_name s.file.ghost_name (F.whole r.file.now) (F.whole s.file.now) (F.faults r.file.now) (F.faults s.file.now) end
        × (after ≡ before) };

    ghost costs = { λ M media query r before after. after ≡ before };

    fn failed(&self) -> bool {
        false
    }

    fn accept<R>(&self, query: &Query) -> Result<(), VisitRefused<R>> {
        accept(&self.kept, query)
    }

    fn visit<M: Media, V: Visitor, O: Sink>(
        &mut self,
        _media: &mut M,
        query: &Query,
        visitor: &mut V,
        out: &mut O,
    ) -> Result<(), VisitRefused<V::Reason>> {
        visit_again(self, query, visitor, out)
    }

    fn law_of_visits<M: Media>() {}
}
