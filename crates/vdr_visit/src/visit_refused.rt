// Why a visitor stops, and why a visit ended before its end.
use vdr_outside::Failed;

/// Why a visitor stops.
#[derive(Clone, Copy, Drop)]
pub enum VisitorRefused<R> {
    /// The output failed, and its count of faults rose.
    Output,
    /// For a reason of its own.
    Own(R),
}

impl<R> From<Failed> for VisitorRefused<R> {
    ghost use Rattle.std.specs.Prelude.{◌≡◌};
    ghost use Rattle.vdr_visit.specs.declared.visit_refused.VisitorRefused.TheVariants.{Output};

    ghost from_gives = { λ _ stop. stop ≡ Output };

    fn from(_: Failed) -> VisitorRefused<R> {
        VisitorRefused::Output
    }
}

/// Why a visit ended before its end.
#[derive(Clone, Copy, Drop)]
pub enum VisitRefused<R> {
    /// No such channel is configured. Nothing was called.
    NoChannel,
    /// No such incident is live. Nothing was called.
    NoIncident,
    /// A write on the media had failed before, and nothing was called; or a read failed, and the count of faults of that medium rose.
    Fault,
    /// A slot of this medium that was read is damaged. Where, in bytes from its beginning.
    Damaged { medium: u8, offset: u64 },
    /// The output failed, and its count of faults rose.
    Output,
    /// The visitor stopped for a reason of its own.
    Own(R),
}

impl<R> From<VisitorRefused<R>> for VisitRefused<R> {
    ghost use Rattle.std.specs.Prelude.{◌≡◌};
    ghost use Rattle.vdr_visit.specs.Refusals.{stop_of};

    ghost from_gives = { λ own stop. stop ≡ stop_of own };

    fn from(own: VisitorRefused<R>) -> VisitRefused<R> {
        match own {
            VisitorRefused::Output => VisitRefused::Output,
            VisitorRefused::Own(reason) => VisitRefused::Own(reason),
        }
    }
}
