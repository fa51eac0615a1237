// What has a text, as a trait, and how the text is printed in few writes.
ghost use Rattle.std.specs.Prelude.{List, ℕ, ◌≡◌, OnOk};
ghost use Rattle.std.specs.Io.KnownBytes.{Appends};
ghost use Rattle.vdr_outside.specs.Causes.{HasCause};
ghost use Rattle.vdr_outside.specs.Writes.{AppendsFront};

use crate::buffered::{BufferedSink, Lent, Opening};
use crate::{Failed, Sink};
use std::marker::Brand;

/// What has a text that can be written to a sink.
pub trait Printable {
    /// The text.
    ghost text: { Self → List ℕ };

    /// Writes the text in as many pieces as it likes. Where a write fails, a front of it is written.
    fn print<O: Sink>(&self, out: &mut O) -> Result<(), Failed>
        ensures all { OnOk result (Appends (O.taken out.old) (O.taken out.new) (text self.now)) }
        ensures front { AppendsFront (O.taken out.old) (O.taken out.new) (text self.now) }
        ensures cause { HasCause (O.faults out.old) (O.faults out.new) result };
}

// Prints through a buffer and gives the sink back.
fn print_lent<'a, P: Printable, O: Sink, B: Opening>(
    text: &P,
    lent: Lent<'a, O>,
) -> (Lent<'a, O>, Result<(), Failed>)
    requires name { lent.sink.ghost_name ≡ B.name }
    requires start { O.taken lent.sink.now ≡ B.start }
    ensures same { result.0.sink.ghost_name ≡ B.name }
    ensures all { OnOk result.1 (Appends B.start (O.taken result.0.sink.now) (P.text text.now)) }
    ensures front { AppendsFront B.start (O.taken result.0.sink.now) (P.text text.now) }
    ensures cause { HasCause (O.faults lent.entry.sink.now) (O.faults result.0.sink.now) result.1 }
{
    let mut out: BufferedSink<'a, O, B> = BufferedSink::new(lent);
    match text.print(&mut out) {
        Ok(()) => out.close(),
        Err(failed) => (out.abandon(), Err(failed)),
    }
}

/// Writes the text in few writes, through a buffer of 8,192 bytes. Where a write fails, a front of the text is written.
pub fn print_buffered<P: Printable, O: Sink>(text: &P, output: &mut O) -> Result<(), Failed>
    ensures all { OnOk result (Appends (O.taken output.old) (O.taken output.new) (P.text text.now)) }
    ensures front { AppendsFront (O.taken output.old) (O.taken output.new) (P.text text.now) }
    ensures cause { HasCause (O.faults output.old) (O.faults output.new) result }
{
    let (lent, result) = print_lent::<P, O, Brand>(text, Lent::new(output));
    let Lent { sink } = lent;
    let _ = &*sink;
    result
}
