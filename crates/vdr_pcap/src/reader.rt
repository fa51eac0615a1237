ghost use Rattle.std.specs.Prelude.{◌≡◌, true, false, None, Some, Err, IfOk, IfErr, OnOk};
ghost use Rattle.vdr_pcap.specs.Capture.{Refused as Refuses, no_course, step};
ghost use Rattle.vdr_pcap.specs.Packets.{lost_with};
ghost use Rattle.vdr_pcap.specs.Seen.{IfKnown};
ghost use Rattle.vdr_pcap.specs.declared.fault.CaptureFault.{CaptureFault as Stopped};

use crate::account::Account;
use crate::buffers::Buffers;
use crate::fault::CaptureFault;
use crate::steps::{Course, Stepped, read_header, read_item};
use crate::within::{Within, take_within};
use std::marker::Model;
use vdr_feed::Item;
use vdr_outside::Source;

/// Reads a capture from a source, an item at a time: the datagrams to the ports of the transmission groups.
#[derive(Drop)]
pub struct CaptureReader {
    limit: u64,
    begun: bool,
    course: Course,
    stopped: Option<CaptureFault>,
    // Where bytes are read. They take no part in what the reader is.
    buffers: Buffers,
}

impl Model for CaptureReader {
    ghost use Rattle.vdr_pcap.specs.Reader.{Reading};
    ghost use Rattle.vdr_pcap.specs.Steps.{course_of};

    ghost Value = { Reading };

    ghost view = { λ r. record { limit = r.limit; begun = r.begun; course = course_of r.course; stopped = r.stopped } };
}

impl CaptureReader {
    ghost use Rattle.vdr_pcap.specs.Reader.{GivesHeader, GivesItem, HasReadCause, IfRefused, new_reading, reading_at};
    ghost use Rattle.vdr_pcap.specs.Steps.{RefusesAt};
    ghost use Rattle.vdr_pcap.specs.Within.{IsShort, TakesFront};

    /// A reader that gives at most so many items.
    pub fn new(limit: u64) -> CaptureReader
        ensures { result ≡ new_reading limit }
    {
        CaptureReader {
            limit,
            begun: false,
            course: Course::new(),
            stopped: None,
            buffers: Buffers::new(),
        }
    }

    /// What became of the packets so far.
    pub fn account(&self) -> &Account
        ensures { result.now ≡ self.now.course.account }
    {
        &self.course.account
    }

    /// How many packets the statistics so far say that the capture lost. It stands still at the greatest u64.
    pub fn lost(&self) -> u64
        ensures { result ≡ lost_with self.now.course.standing.lost self.now.course.standing.interfaces }
    {
        self.course.lost()
    }

    /// Reads the header of a pcap file, or of the first section of a pcapng file. Refused at offset 0, as docs/formats/capture.md says, with
    /// the numbers 1 to 4. Nothing was called on the reader before.
    pub fn header<I: Source>(&mut self, input: &mut I) -> Result<(), CaptureFault>
        requires { self.old ≡ new_reading self.old.limit }
        ensures gave { OnOk result (GivesHeader (I.left input.old) (I.left input.new) self.old.limit self.new) }
        ensures refused { IfRefused result (λ number offset. (offset ≡ 0)
            × IfKnown (I.left input.old) (λ bytes. step self.old.limit false no_course bytes ≡ Refuses number)) }
        ensures stays { IfErr result (λ e. (self.new.begun ≡ true) × (self.new.stopped ≡ Some e)) }
        ensures cause { HasReadCause None (I.faults input.old) (I.faults input.new) result }
    {
        self.begun = true;
        match read_header(self.limit, &mut self.course, input, &mut self.buffers) {
            Ok(None) => Ok(()),
            Ok(Some(number)) => {
                let refused = CaptureFault::Refused { number, offset: 0 };
                self.stopped = Some(refused);
                Err(refused)
            }
            Err(_) => {
                self.stopped = Some(CaptureFault::Fault);
                Err(CaptureFault::Fault)
            }
        }
    }

    /// Reads the next item, and answers false, with `into` as it was, at the end of the input. An item's stamp is its packet's, and it is
    /// received at the greatest stamp so far, in milliseconds from the first item's. A datagram that was captured in part is an item
    /// without bytes; of a payload of more than 1,473 bytes the first 1,473 are kept. It reads no byte behind the packet or block that
    /// tells of the item. Refused, as docs/formats/capture.md says, with the numbers 2 to 7 at the offset of the packet or block. The
    /// header was asked for. After a fault or a refusal it answers the same again and reads nothing.
    pub fn item<I: Source>(&mut self, input: &mut I, into: &mut Item) -> Result<bool, CaptureFault>
        requires { self.old.begun ≡ true }
        ensures gave { IfOk result (λ more. (self.old.stopped ≡ None)
            × GivesItem (I.left input.old) (I.left input.new) self.old self.new into.new more) }
        ensures kept { IfOk result (λ more. more ≡ false → into.new ≡ into.old) }
        ensures refused { self.old.stopped ≡ None → IfRefused result (λ number offset.
            IfKnown (I.left input.old) (λ bytes. RefusesAt self.old.limit self.old.course bytes number offset)) }
        ensures stays { IfErr result (λ e. (self.new.begun ≡ true) × (self.new.stopped ≡ Some e)) }
        ensures again { (e : Stopped) → self.old.stopped ≡ Some e → (result ≡ Err e) × (input.new ≡ input.old) × (into.new ≡ into.old) }
        ensures cause { HasReadCause self.old.stopped (I.faults input.old) (I.faults input.new) result }
    {
        if let Some(stopped) = self.stopped {
            return Err(stopped);
        }
        match read_item(self.limit, &mut self.course, input, &mut self.buffers, into) {
            Ok(Stepped::Item) => Ok(true),
            Ok(Stepped::Ended) => Ok(false),
            Ok(Stepped::Refused(number)) => {
                let refused = CaptureFault::Refused {
                    number,
                    offset: self.course.offset,
                };
                self.stopped = Some(refused);
                Err(refused)
            }
            Ok(Stepped::Passed) | Err(_) => {
                self.stopped = Some(CaptureFault::Fault);
                Err(CaptureFault::Fault)
            }
        }
    }

    /// Takes the packet of a pcap file that lies whole at the front of some bytes, which are the next of the capture, and copies nothing
    /// of it. Nothing where none does, or it would be refused, and of pcapng: `item` has to read on then. The caller passes over the bytes
    /// of what is taken. The header was asked for, and there was no fault and no refusal.
    pub fn packet_within<'a>(&mut self, bytes: &'a [u8]) -> Within<'a>
        requires begun { self.old.begun ≡ true }
        requires going { self.old.stopped ≡ None }
        ensures takes { TakesFront self.old.limit bytes.now self.old.course self.new.course result }
        ensures goes_on { self.new ≡ reading_at self.old.limit self.new.course }
        ensures short { IsShort result }
    {
        take_within(self.limit, &mut self.course, bytes)
    }
}
