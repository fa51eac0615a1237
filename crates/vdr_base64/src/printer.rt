// What prints the text of a visitor as lines of base64.
ghost use Rattle.std.specs.Prelude.{◌≡◌, [], Ok, Err, OnOk, OnErr};
ghost use Rattle.vdr_base64.specs.Lines.{left_over};
ghost use Rattle.vdr_visit.specs.declared.visit_refused.VisitorRefused.TheVariants.{Output};

use crate::pending::Pending;
use std::alloc::Global;
use vdr_entry::Record;
use vdr_outside::{Failed, Sink};
use vdr_visit::{Visitor, VisitorRefused};

/// Why a printer of base64 stops by itself.
#[derive(Clone, Copy, Drop)]
pub enum PrinterStop<R> {
    /// There was no memory for what waits.
    NoMemory,
    /// Its visitor stopped for this reason.
    Visitor(R),
}

/// Prints what a visitor prints as lines of base64, each as soon as it is whole, and the last one behind the last record. Memory is taken
/// for less than a line, and what the visitor prints of one record.
#[derive(Drop)]
pub struct Base64Printer<V: Visitor> {
    visitor: V,
    pending: Pending,
}

impl<V: Visitor> Base64Printer<V> {
    /// One whose visitor has visited no record.
    pub fn new(alloc: Global, visitor: V) -> Base64Printer<V>
        ensures visitor { result.visitor ≡ visitor }
        ensures pending { result.pending.bytes.items ≡ left_over [] }
    {
        Base64Printer {
            visitor,
            pending: Pending::new(alloc),
        }
    }
}

// What a stop of the visitor is.
fn stop_of<R>(stop: VisitorRefused<R>) -> PrinterStop<R> {
    match stop {
        VisitorRefused::Output => PrinterStop::NoMemory,
        VisitorRefused::Own(reason) => PrinterStop::Visitor(reason),
    }
}

// How a step ended, once its lines were printed so.
fn ended_by<R>(printed: Result<(), Failed>) -> Result<(), VisitorRefused<R>>
    ensures done { OnOk printed (result ≡ Ok tt) }
    ensures failed { OnErr printed (result ≡ Err Output) }
{
    match printed {
        Ok(()) => Ok(()),
        Err(_) => Err(VisitorRefused::Output),
    }
}

impl<V: Visitor> Visitor for Base64Printer<V> {
    ghost use Rattle.std.specs.Prelude.{◌≡◌, ⊤};
    ghost use Rattle.vdr_base64.specs.Printing.{last_lines, line_at, waits};

    type Reason = PrinterStop<V::Reason>;

    ghost has = { λ first seen now. V.has first.visitor seen now.visitor × (now.pending.bytes.items ≡ waits (V.line first.visitor) seen) };

    ghost line = { λ first seen item. line_at (V.line first.visitor) seen item };

    ghost last = { λ first seen. last_lines (V.line first.visitor) (V.last first.visitor) seen };

    ghost stops = { λ _ _ _. ⊤ };

    fn visit<O: Sink>(
        &mut self,
        item: &Record,
        out: &mut O,
    ) -> Result<(), VisitorRefused<PrinterStop<V::Reason>>> {
        match self.visitor.visit(item, &mut self.pending) {
            Ok(()) => ended_by(self.pending.hand_on(out)),
            Err(stop) => Err(VisitorRefused::Own(stop_of(stop))),
        }
    }

    fn finish<O: Sink>(
        &mut self,
        out: &mut O,
    ) -> Result<(), VisitorRefused<PrinterStop<V::Reason>>> {
        let waiting = self.pending.len();
        match self.visitor.finish(&mut self.pending) {
            Ok(()) => ended_by(self.pending.end(waiting, out)),
            Err(stop) => Err(VisitorRefused::Own(stop_of(stop))),
        }
    }
}
