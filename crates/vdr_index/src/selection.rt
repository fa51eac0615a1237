// Which records of a medium are selected.
ghost use Rattle.std.specs.Prelude.{◌≡◌};
ghost use Rattle.vdr_index.specs.Selections.{is_selected, shown};

use crate::head::Head;
use crate::{Span, has_channel};
use vdr_entry::Query;

/// What is asked of the records of a medium: to be of the span to which a query's medium comes, and what the query asks.
#[derive(Clone, Copy, Drop)]
pub struct Selection {
    pub span: Span,
    pub query: Query,
}

impl Selection {
    /// Whether a record with this head is within the span, has the bit of the query's channel, and is within its bounds of UTC.
    pub(crate) fn has(&self, head: &Head) -> bool
        ensures { result ≡ is_selected self.now (shown head.now) }
    {
        self.span.has(head.place, head.tick)
            && has_channel(self.query.channel, head.bits)
            && self.query.from <= head.utc
            && head.utc <= self.query.to
    }
}
