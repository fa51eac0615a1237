// What a reader makes of the front of bytes that were read ahead.
ghost use Rattle.std.specs.Prelude.{◌≡◌, ◌≤◌, ℕ, List, IfSome};
ghost use Rattle.vdr_terms.specs.Stamps.{last_stamp};
ghost use Rattle.vdr_pcap.specs.Seen.{standing_of};
ghost use Rattle.vdr_pcap.specs.Steps.{course_of};
ghost use Rattle.vdr_pcap.specs.Within.{IsFront, IsShort, TakesFront};

use crate::form::Form;
use crate::fronts::{Front, packet_front};
use crate::lent::LentItem;
use crate::steps::Course;
use crate::taking::{Judged, judge_packet};

/// What lies whole at the front of some bytes.
#[derive(Clone, Copy, Drop)]
pub enum Within<'a> {
    /// No packet of pcap, or one that may not follow.
    Nothing,
    /// A packet of so many bytes, which is left out.
    Passed(usize),
    /// A packet of so many bytes, which is this item.
    Item(usize, LentItem<'a>),
}

// Takes the packet that lies at the front of some bytes.
fn take_front<'a>(limit: u64, course: &mut Course, front: Front<'a>) -> Within<'a>
    requires stamp { IfSome front.stamp (λ t. t ≤ last_stamp) }
    ensures takes { (bytes : List ℕ) → IsFront (standing_of course.old.said) bytes front.entry
        → TakesFront limit bytes (course_of course.old) (course_of course.new) result }
    ensures short { IsShort result }
{
    let Some(end) = course.offset.checked_add(front.size as u64) else {
        return Within::Nothing;
    };
    match judge_packet(
        limit,
        &mut course.account,
        front.link,
        front.stamp,
        front.bytes,
    ) {
        Judged::TooMany => Within::Nothing,
        Judged::Left => {
            course.offset = end;
            Within::Passed(front.size)
        }
        Judged::Item(item) => {
            course.offset = end;
            Within::Item(front.size, item)
        }
    }
}

/// Takes a packet of pcap that lies whole at the front of some bytes.
pub(crate) fn take_within<'a>(limit: u64, course: &mut Course, bytes: &'a [u8]) -> Within<'a>
    ensures takes { TakesFront limit bytes.now (course_of course.old) (course_of course.new) result }
    ensures short { IsShort result }
{
    let Form::Packets { big, nano, link } = course.said.form else {
        return Within::Nothing;
    };
    let Some(front) = packet_front(big, nano, link, bytes) else {
        return Within::Nothing;
    };
    take_front(limit, course, front)
}
