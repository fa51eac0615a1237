// A recorder as a reader of what it recorded.
use crate::Recorder;
use vdr_entry::Query;
use vdr_outside::{Media, Sink};
use vdr_vault::{accept, visit_selected};
use vdr_visit::{Reader, VisitRefused, Visitor};

impl Reader for Recorder {
    ghost use Rattle.std.specs.Prelude.{length};
    ghost use Rattle.vdr_visit.specs.Refusals.{lacks_channel, lacks_incident};
    ghost use Rattle.vdr_vault.specs.Vaults.{AreRings};
    ghost use Rattle.vdr_vault.specs.Visits.{ReadsEachOnce};
    ghost use Rattle.vdr_recorder.specs.Reads.{HasRead, Selects};

    ghost may_read = { λ r sizes. AreRings r.vault sizes };

    ghost lacks_channel = { λ r k. lacks_channel (length r.vault.config.channels) k };

    ghost lacks_incident = { λ r m. lacks_incident r.vault.table m };

    ghost failed = { λ r. r.vault.failed };

    ghost tells = { λ _ media r x query records. Selects media r x query records };

    ghost leaves = { λ _ media query old new x y end. HasRead media query old new x y end };

    ghost costs = { λ _ media query r x y. ReadsEachOnce query r.vault (media.bytes_read x) (media.bytes_read y) };

    fn failed(&self) -> bool {
        self.vault.failed()
    }

    fn accept<R>(&self, query: &Query) -> Result<(), VisitRefused<R>> {
        accept(&self.vault, query)
    }

    fn visit<M: Media, V: Visitor, O: Sink>(
        &mut self,
        media: &mut M,
        query: &Query,
        visitor: &mut V,
        out: &mut O,
    ) -> Result<(), VisitRefused<V::Reason>> {
        visit_selected(&mut self.vault, media, query, visitor, out)
    }

    fn law_of_visits<M: Media>() {}
}
