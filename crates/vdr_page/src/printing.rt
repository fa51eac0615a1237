// A text that was gathered is printed.
ghost use Rattle.std.specs.Prelude.{◌≡◌, Err};
ghost use Rattle.vdr_visit.specs.Prints.{HasPrinted};
ghost use Rattle.vdr_visit.specs.Refusals.{HasOutputCause, IfOwn};
ghost use Rattle.vdr_visit.specs.declared.visit_refused.VisitorRefused.TheVariants.{Output};

use std::alloc::AllocError;
use vdr_outside::{Sink, write_all};
use vdr_visit::VisitorRefused;

/// Prints a text. It stops for the output alone.
pub(crate) fn print_text<O: Sink>(
    text: &[u8],
    out: &mut O,
) -> Result<(), VisitorRefused<AllocError>>
    ensures printed { HasPrinted text.now (O.taken out.old) (O.taken out.new) result }
    ensures cause { HasOutputCause (O.faults out.old) (O.faults out.new) (result ≡ Err Output) }
{
    match write_all(out, text) {
        Ok(()) => Ok(()),
        Err(_) => Err(VisitorRefused::Output),
    }
}
