// The feed of a capture's items.
ghost use Rattle.std.specs.Prelude.{◌≡◌, ◌≤◌, [], true, false, length, Err, OnErr, OnOk};
ghost use Rattle.vdr_feed.specs.Feed.{longest_feed};
ghost use Rattle.vdr_pcap.specs.Reader.{new_reading};
ghost use Rattle.vdr_pcap.specs.Taken.{item_held, item_lent};
ghost use Rattle.vdr_import.specs.Imports.{HasCauses, Imports};
ghost use Rattle.vdr_import.specs.Progress.{GathersFeed};
ghost use Rattle.vdr_import.specs.Relayed.{held_in};
ghost use Rattle.vdr_import.specs.declared.refused.ImportRefused.TheVariants.{Output};

use crate::ahead::gather_ahead;
use crate::buffers::Buffers;
use crate::next::next_item;
use crate::refused::ImportRefused;
use vdr_feed::{Item, LONGEST_FEED};
use vdr_outside::{Failed, Sink, Source};
use vdr_pcap::{CaptureFault, CaptureReader, LentItem};

// An item that was read, lent.
fn lent(item: &Item) -> LentItem<'_>
    ensures item { item_lent result ≡ item_held item.now }
    ensures body { length result.body.now ≤ 1_473 }
{
    LentItem {
        group: item.group,
        received: item.received,
        utc: item.utc,
        body: item.bytes.as_slice(),
    }
}

// Gathers the feed of the items that a new reader gives, and writes it as far as it was handed on.
fn gather_feed<I: Source, O: Sink>(
    reader: &mut CaptureReader,
    input: &mut I,
    output: &mut O,
    buffers: &mut Buffers,
) -> Result<(), ImportRefused>
    requires reader { reader.old ≡ new_reading longest_feed }
    requires ahead { held_in buffers.old.ahead ≡ [] }
    requires waiting { held_in buffers.old.gathered ≡ [] }
    ensures gathers { GathersFeed (I.left input.old) (I.left input.new) (O.taken output.old) (O.taken output.new) (held_in buffers.new.gathered) result }
    ensures causes { HasCauses (I.faults input.old) (I.faults input.new) (O.faults output.old) (O.faults output.new) result }
{
    match reader.header(input) {
        Ok(()) => {}
        Err(CaptureFault::Fault) => return Err(ImportRefused::Input),
        Err(CaptureFault::Refused { number, offset }) => {
            return Err(ImportRefused::Refused { number, offset });
        }
    }
    match buffers.gathered.push(output, b"VDRFEED1") {
        Ok(()) => {}
        Err(_) => return Err(ImportRefused::Output),
    }
    let mut item = Item::new();
    'items: loop {
        match gather_ahead(reader, &mut buffers.ahead, &mut buffers.gathered, output) {
            Ok(()) => {}
            Err(_) => return Err(ImportRefused::Output),
        }
        match next_item(reader, input, output, buffers, &mut item) {
            Ok(true) => {}
            Ok(false) => return Ok(()),
            Err(refused) => return Err(refused),
        }
        match buffers.gathered.push_item(output, &lent(&item)) {
            Ok(()) => {}
            Err(_) => return Err(ImportRefused::Output),
        }
    }
}

// Whether the sink failed.
fn failed_at_output(ended: &Result<(), ImportRefused>) -> bool
    ensures told { result ≡ true → ended.now ≡ Err Output }
    ensures none { result ≡ false → ended.now ≡ Err Output → ⊥ }
{
    matches!(ended, Err(ImportRefused::Output))
}

// How it ended, once what was gathered was written so.
fn ended_by(
    ended: Result<(), ImportRefused>,
    written: Result<(), Failed>,
) -> Result<(), ImportRefused>
    ensures same { OnOk written (result ≡ ended) }
    ensures blamed { OnErr written (result ≡ Err Output) }
{
    match written {
        Ok(()) => ended,
        Err(_) => Err(ImportRefused::Output),
    }
}

// Writes the feed of the items that a new reader gives.
fn import_with<I: Source, O: Sink>(
    reader: &mut CaptureReader,
    input: &mut I,
    output: &mut O,
    buffers: &mut Buffers,
) -> Result<(), ImportRefused>
    requires reader { reader.old ≡ new_reading longest_feed }
    requires ahead { held_in buffers.old.ahead ≡ [] }
    requires waiting { held_in buffers.old.gathered ≡ [] }
    ensures imports { Imports (I.left input.old) (I.left input.new) (O.taken output.old) (O.taken output.new) result }
    ensures causes { HasCauses (I.faults input.old) (I.faults input.new) (O.faults output.old) (O.faults output.new) result }
{
    let ended = gather_feed(reader, input, output, buffers);
    if failed_at_output(&ended) {
        return ended;
    }
    ended_by(ended, buffers.gathered.hand_on(output))
}

/// Reads a capture to its end and writes the feed of its items: of the datagrams to the ports of the transmission groups. It reads
/// ahead and gathers, and before it reads on, which may wait, all that is gathered is written. Where the capture is refused, or the
/// source fails, the feed of the items before was written, and nothing where there is no header before.
pub fn import<I: Source, O: Sink>(input: &mut I, output: &mut O) -> Result<(), ImportRefused>
    ensures imports { Imports (I.left input.old) (I.left input.new) (O.taken output.old) (O.taken output.new) result }
    ensures causes { HasCauses (I.faults input.old) (I.faults input.new) (O.faults output.old) (O.faults output.new) result }
{
    let mut reader = CaptureReader::new(LONGEST_FEED);
    let mut buffers = Buffers::new();
    import_with(&mut reader, input, output, &mut buffers)
}
