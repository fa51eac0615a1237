// The account of a capture's packets.
ghost use Rattle.std.specs.Prelude.{◌≡◌, ◌⊎◌};
ghost use Rattle.vdr_feed.specs.Feed.{longest_feed};
ghost use Rattle.vdr_pcap.specs.Reader.{new_reading};
ghost use Rattle.vdr_import.specs.Counts.{Counts, IsCounted, Reads};
ghost use Rattle.vdr_import.specs.Imports.{HasCauses};
ghost use Rattle.vdr_import.specs.declared.refused.ImportRefused.TheVariants.{Input};

use crate::account_text::account_text;
use crate::refused::ImportRefused;
use vdr_feed::{Item, LONGEST_FEED};
use vdr_outside::{Sink, Source, write_all};
use vdr_pcap::{CaptureFault, CaptureReader};

// Reads a capture to its end with a new reader.
fn read_all<I: Source>(reader: &mut CaptureReader, input: &mut I) -> Result<(), ImportRefused>
    requires { reader.old ≡ new_reading longest_feed }
    ensures reads { Reads (I.left input.old) (I.left input.new) reader.new.course result }
    ensures causes { HasCauses (I.faults input.old) (I.faults input.new) 0 0 result }
{
    match reader.header(input) {
        Ok(()) => {}
        Err(CaptureFault::Fault) => return Err(ImportRefused::Input),
        Err(CaptureFault::Refused { number, offset }) => {
            return Err(ImportRefused::Refused { number, offset });
        }
    }
    let mut item = Item::new();
    loop {
        match reader.item(input, &mut item) {
            Ok(true) => {}
            Ok(false) => return Ok(()),
            Err(CaptureFault::Fault) => return Err(ImportRefused::Input),
            Err(CaptureFault::Refused { number, offset }) => {
                return Err(ImportRefused::Refused { number, offset });
            }
        }
    }
}

// Reads a capture to its end with a new reader, and prints the account.
fn count_with<I: Source, O: Sink>(
    reader: &mut CaptureReader,
    input: &mut I,
    output: &mut O,
) -> Result<(), ImportRefused>
    requires { reader.old ≡ new_reading longest_feed }
    ensures counts { Counts (I.left input.old) (I.left input.new) (O.taken output.old) (O.taken output.new) result }
    ensures causes { HasCauses (I.faults input.old) (I.faults input.new) (O.faults output.old) (O.faults output.new) result }
    ensures silent { IsCounted result ⊎ (output.new ≡ output.old) }
{
    read_all(reader, input)?;
    let text = account_text(reader.account(), reader.lost());
    match write_all(output, text.as_slice()) {
        Ok(()) => Ok(()),
        Err(_) => Err(ImportRefused::Output),
    }
}

/// Reads a capture to its end and prints the account of its packets. Where the capture is refused, or the source fails, nothing is
/// printed.
pub fn count<I: Source, O: Sink>(input: &mut I, output: &mut O) -> Result<(), ImportRefused>
    ensures counts { Counts (I.left input.old) (I.left input.new) (O.taken output.old) (O.taken output.new) result }
    ensures causes { HasCauses (I.faults input.old) (I.faults input.new) (O.faults output.old) (O.faults output.new) result }
    ensures silent { IsCounted result ⊎ (output.new ≡ output.old) }
{
    let mut reader = CaptureReader::new(LONGEST_FEED);
    count_with(&mut reader, input, output)
}
