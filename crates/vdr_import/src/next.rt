// The next item of a capture, read through a relay.
ghost use Rattle.std.specs.Prelude.{◌≡◌, true, None};
ghost use Rattle.std.specs.Io.KnownBytes.{prepend_known};
ghost use Rattle.vdr_import.specs.Imports.{HasCauses};
ghost use Rattle.vdr_import.specs.Progress.{GivesNext, next_as};
ghost use Rattle.vdr_import.specs.Relayed.{Gathers, held_in};

use crate::buffers::Buffers;
use crate::refused::ImportRefused;
use crate::relay::{Ends, Lending, Relay};
use crate::side::Side;
use std::marker::Brand;
use vdr_feed::Item;
use vdr_outside::{Sink, Source};
use vdr_pcap::{CaptureFault, CaptureReader};

// What a reader gave through a relay of which this side failed.
fn next_of(given: Result<bool, CaptureFault>, failed: Option<Side>) -> Result<bool, ImportRefused>
    ensures { result ≡ next_as given failed }
{
    match (given, failed) {
        (Ok(more), _) => Ok(more),
        (Err(CaptureFault::Refused { number, offset }), _) => {
            Err(ImportRefused::Refused { number, offset })
        }
        (Err(CaptureFault::Fault), Some(Side::Output)) => Err(ImportRefused::Output),
        (Err(CaptureFault::Fault), _) => Err(ImportRefused::Input),
    }
}

// Reads the next item through a relay, and gives back what was lent.
fn item_lent<'i, 'o, 'b, I: Source, O: Sink, L: Lending>(
    reader: &mut CaptureReader,
    ends: Ends<'i, 'o, 'b, I, O>,
    into: &mut Item,
) -> (Ends<'i, 'o, 'b, I, O>, Result<bool, ImportRefused>)
    requires begun { reader.old.begun ≡ true }
    requires going { reader.old.stopped ≡ None }
    requires input { ends.input.ghost_name ≡ L.input }
    requires output { ends.output.ghost_name ≡ L.output }
    requires buffers { ends.buffers.ghost_name ≡ L.buffers }
    requires taken { O.taken ends.output.now ≡ L.taken }
    requires waiting { held_in ends.buffers.now.gathered ≡ L.waiting }
    requires input_faults { I.faults ends.input.now ≡ L.input_faults }
    requires output_faults { O.faults ends.output.now ≡ L.output_faults }
    ensures input { result.0.input.ghost_name ≡ L.input }
    ensures output { result.0.output.ghost_name ≡ L.output }
    ensures buffers { result.0.buffers.ghost_name ≡ L.buffers }
    ensures gives { GivesNext (prepend_known (held_in ends.entry.buffers.now.ahead) (I.left ends.entry.input.now))
        (prepend_known (held_in result.0.buffers.now.ahead) (I.left result.0.input.now)) reader.old reader.new into.new result.1 }
    ensures gathers { Gathers L.taken (O.taken result.0.output.now) L.waiting (held_in result.0.buffers.now.gathered) }
    ensures causes { HasCauses L.input_faults (I.faults result.0.input.now) L.output_faults (O.faults result.0.output.now) result.1 }
{
    let mut relay: Relay<'i, 'o, 'b, I, O, L> = Relay::new(ends);
    let given = reader.item(&mut relay, into);
    let (ends, failed) = relay.close();
    (ends, next_of(given, failed))
}

/// Reads the next item of a capture, and answers false at its end. What is gathered is written before the input is read.
pub(crate) fn next_item<I: Source, O: Sink>(
    reader: &mut CaptureReader,
    input: &mut I,
    output: &mut O,
    buffers: &mut Buffers,
    into: &mut Item,
) -> Result<bool, ImportRefused>
    requires begun { reader.old.begun ≡ true }
    requires going { reader.old.stopped ≡ None }
    ensures gives { GivesNext (prepend_known (held_in buffers.old.ahead) (I.left input.old))
        (prepend_known (held_in buffers.new.ahead) (I.left input.new)) reader.old reader.new into.new result }
    ensures gathers { Gathers (O.taken output.old) (O.taken output.new) (held_in buffers.old.gathered) (held_in buffers.new.gathered) }
    ensures causes { HasCauses (I.faults input.old) (I.faults input.new) (O.faults output.old) (O.faults output.new) result }
{
    let ends = Ends::new(input, output, buffers);
    let (ends, result) = item_lent::<I, O, Brand>(reader, ends, into);
    let Ends {
        input,
        output,
        buffers,
    } = ends;
    let _ = &*input;
    let _ = &*output;
    let _ = &*buffers;
    result
}
