// One packet or block after another, up to one that tells of an item.
ghost use Rattle.std.specs.Prelude.{◌≡◌, ◌≤◌, ℕ, IfOk, IfSome, length, if◌then◌else◌};
ghost use Rattle.vdr_terms.specs.Stamps.{last_stamp};
ghost use Rattle.vdr_feed.specs.declared.item.Item.{Item as Held};
ghost use Rattle.vdr_outside.specs.Causes.{HasCause};
ghost use Rattle.vdr_pcap.specs.Packets.{Nothing, Packet, Unread, lost_with};
ghost use Rattle.vdr_pcap.specs.Seen.{Fits};
ghost use Rattle.vdr_pcap.specs.Capture.{no_course};
ghost use Rattle.vdr_pcap.specs.Steps.{BeginsWith, Finds, Settles, SettlesPiece, StepsBy, course_of};

use crate::account::Account;
use crate::buffers::Buffers;
use crate::form::Said;
use crate::saying::lost_with;
use crate::taking::{BLOCK_ROW, Taken, take_packet};
use crate::unit::Unit;
use crate::units::{read_beginning, read_unit};
use vdr_feed::Item;
use vdr_outside::{Failed, Source};

/// How far a capture has come.
#[derive(Drop)]
pub(crate) struct Course {
    pub(crate) said: Said,
    /// The bytes up to here.
    pub(crate) offset: u64,
    pub(crate) account: Account,
}

/// What was found where a packet or block should stand.
#[derive(Clone, Copy, Drop)]
pub(crate) enum Stepped {
    /// The end of the input.
    Ended,
    /// What is refused, by its number.
    Refused(u8),
    /// A packet or block that tells of no item.
    Passed,
    /// A packet that is an item.
    Item,
}

impl Course {
    /// At the beginning of a capture.
    pub(crate) fn new() -> Course
        ensures { course_of result ≡ no_course }
    {
        Course {
            said: Said::nothing(),
            offset: 0,
            account: Account::new(),
        }
    }

    /// How many packets the statistics so far say that the capture lost.
    pub(crate) fn lost(&self) -> u64
        ensures { result ≡ lost_with self.now.said.lost self.now.said.interfaces.items }
    {
        lost_with(self.said.lost, self.said.interfaces.as_slice())
    }
}

// What so many bytes come to that tell of no packet, or of one that is not read.
fn settle_other(offset: &mut u64, account: &mut Account, size: u64, unread: bool) -> Stepped
    ensures { (limit : ℕ) → (held : Held) → SettlesPiece limit offset.old offset.new account.old account.new size
        (if unread then Unread else Nothing) held held result }
{
    let Some(end) = offset.checked_add(size) else {
        return Stepped::Refused(7);
    };
    *offset = end;
    if unread {
        account.leave(BLOCK_ROW);
    }
    Stepped::Passed
}

// What so many bytes of a packet come to.
fn settle_packet(
    limit: u64,
    offset: &mut u64,
    account: &mut Account,
    size: u64,
    link: u16,
    stamp: Option<u64>,
    front: &[u8],
    into: &mut Item,
) -> Stepped
    requires { IfSome stamp (λ t. t ≤ last_stamp) }
    ensures { SettlesPiece limit offset.old offset.new account.old account.new size
        (Packet (record { link = link; stamp = stamp; front = front.now })) into.old into.new result }
{
    let Some(end) = offset.checked_add(size) else {
        return Stepped::Refused(7);
    };
    match take_packet(limit, account, link, stamp, front, into) {
        Taken::TooMany => Stepped::Refused(7),
        Taken::Left => {
            *offset = end;
            Stepped::Passed
        }
        Taken::Item => {
            *offset = end;
            Stepped::Item
        }
    }
}

// What a packet or block comes to that was read: where it ends, what it counts, and its item.
fn settle(
    limit: u64,
    offset: &mut u64,
    account: &mut Account,
    unit: Unit,
    front: &[u8],
    into: &mut Item,
) -> Stepped
    requires front { length front.now ≡ 2048 }
    requires fits { Fits 0 2048 unit }
    ensures { Settles limit offset.old offset.new account.old account.new unit front.now into.old into.new result }
{
    match unit {
        Unit::Refuses(number) => Stepped::Refused(number),
        Unit::Says(size) => settle_other(offset, account, size, false),
        Unit::Unread(size) => settle_other(offset, account, size, true),
        Unit::Packet(size, link, stamp, kept) => {
            settle_packet(
                limit,
                offset,
                account,
                size,
                link,
                stamp,
                &front[..kept],
                into,
            )
        }
    }
}

// Reads one further packet or block.
fn read_step<I: Source>(
    limit: u64,
    course: &mut Course,
    input: &mut I,
    buffers: &mut Buffers,
    into: &mut Item,
) -> Result<Stepped, Failed>
    ensures read { IfOk result (λ stepped. StepsBy (I.left input.old) (I.left input.new) limit (course_of course.old) (course_of course.new)
        into.old into.new stepped) }
    ensures cause { HasCause (I.faults input.old) (I.faults input.new) result }
{
    let Some(unit) = read_unit(input, &mut course.said, buffers)? else {
        return Ok(Stepped::Ended);
    };
    Ok(settle(
        limit,
        &mut course.offset,
        &mut course.account,
        unit,
        &buffers.front,
        into,
    ))
}

/// Reads packets or blocks up to one that is an item, or the end. It answers no `Passed`.
pub(crate) fn read_item<I: Source>(
    limit: u64,
    course: &mut Course,
    input: &mut I,
    buffers: &mut Buffers,
    into: &mut Item,
) -> Result<Stepped, Failed>
    ensures read { IfOk result (λ stepped. Finds (I.left input.old) (I.left input.new) limit (course_of course.old) (course_of course.new)
        into.old into.new stepped) }
    ensures cause { HasCause (I.faults input.old) (I.faults input.new) result }
{
    loop {
        match read_step(limit, course, input, buffers, into)? {
            Stepped::Passed => {}
            stepped => return Ok(stepped),
        }
    }
}

/// Reads the header of a capture: None, or the number of its refusal.
pub(crate) fn read_header<I: Source>(
    limit: u64,
    course: &mut Course,
    input: &mut I,
    buffers: &mut Buffers,
) -> Result<Option<u8>, Failed>
    requires { course_of course.old ≡ no_course }
    ensures read { IfOk result (λ refused. BeginsWith (I.left input.old) (I.left input.new) limit (course_of course.new) refused) }
    ensures cause { HasCause (I.faults input.old) (I.faults input.new) result }
{
    match read_beginning(input, &mut course.said, buffers)? {
        Unit::Refuses(number) => Ok(Some(number)),
        Unit::Says(size) => {
            course.offset = size;
            Ok(None)
        }
        _ => Ok(Some(1)),
    }
}
