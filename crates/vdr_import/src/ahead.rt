// The items of the packets that were read ahead whole.
ghost use Rattle.std.specs.Prelude.{◌≡◌, None, true, OnErr, OnOk};
ghost use Rattle.vdr_outside.specs.Causes.{HasCause};
ghost use Rattle.vdr_import.specs.Progress.{FailsSo, GoesOn};
ghost use Rattle.vdr_import.specs.Relayed.{held_in};

use crate::buffers::Buffer;
use vdr_outside::{Failed, Sink};
use vdr_pcap::{CaptureReader, Within};

/// Gathers the items of the packets that lie whole in what was read ahead, up to one that does not, and copies nothing else of them.
pub(crate) fn gather_ahead<O: Sink>(
    reader: &mut CaptureReader,
    ahead: &mut Buffer,
    gathered: &mut Buffer,
    output: &mut O,
) -> Result<(), Failed>
    requires begun { reader.old.begun ≡ true }
    requires going { reader.old.stopped ≡ None }
    ensures goes_on { OnOk result (GoesOn (held_in ahead.old) (held_in ahead.new) reader.old reader.new
        (O.taken output.old) (O.taken output.new) (held_in gathered.old) (held_in gathered.new)) }
    ensures fails { OnErr result (FailsSo (held_in ahead.old) reader.old (O.taken output.old) (O.taken output.new) (held_in gathered.old)) }
    ensures cause { HasCause (O.faults output.old) (O.faults output.new) result }
{
    'packets: loop {
        match reader.packet_within(ahead.held()) {
            Within::Nothing => return Ok(()),
            Within::Passed(size) => ahead.pass(size),
            Within::Item(size, item) => {
                gathered.push_item(output, &item)?;
                ahead.pass(size);
            }
        }
    }
}
