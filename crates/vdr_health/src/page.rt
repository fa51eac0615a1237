// The reply to `HEALTH`, which needs no memory.
//
// It has at most 3,613 bytes: a line of a group has 219 at most.
ghost use Rattle.std.specs.Prelude.{◌≡◌, ◌≤◌, ◌<◌, ◌+◌, ◌++◌, ℕ, codes, decimal, length, slice_index_or, Option, None, Some, IfSome};
ghost use Rattle.arrayvec.specs.ArrayVec.{array_vec_len};
ghost use Rattle.vdr_terms.specs.Groups.{group_name};
ghost use Rattle.vdr_terms.specs.Stamps.{IsStamp};
ghost use Rattle.vdr_entry.specs.Utc.{utc_text};
ghost use Rattle.vdr_capture.specs.declared.sums.GroupSums.{GroupSums as Sums};
ghost use Rattle.vdr_health.specs.Health.{count_text, ends_text, gauge_text, health_text, line_if, lines_below, no_gauge, since_text, sums_text, told_number};

use crate::{Gauged, GroupGauge};
use arrayvec::ArrayVec;
use itoa::Buffer;
use vdr_capture::GroupSums;
use vdr_entry::write_utc;
use vdr_terms::group_name;

/// Room for the longest reply, in bytes.
pub const PAGE_ROOM: usize = 4_096;

// Appends a text, for which there is room.
fn push_text(page: &mut ArrayVec<u8, PAGE_ROOM>, text: &[u8])
    requires { array_vec_len page.old + length text.now ≤ 4096 }
    ensures { page.new.items ≡ page.old.items ++ text.now }
{
    for byte in text {
        page.push(*byte);
    }
}

// A word and a number.
fn push_count(page: &mut ArrayVec<u8, PAGE_ROOM>, word: &[u8], count: u64)
    requires { array_vec_len page.old + length word.now + 20 ≤ 4096 }
    ensures text { page.new.items ≡ page.old.items ++ count_text word.now (decimal count) }
    ensures short { array_vec_len page.new ≤ array_vec_len page.old + length word.now + 20 }
{
    push_text(page, word);
    push_text(page, Buffer::new().format(count).as_bytes());
}

// A word and a number that may not be told.
fn push_told(page: &mut ArrayVec<u8, PAGE_ROOM>, word: &[u8], told: Option<u64>)
    requires { array_vec_len page.old + length word.now + 20 ≤ 4096 }
    ensures text { page.new.items ≡ page.old.items ++ count_text word.now (told_number told) }
    ensures short { array_vec_len page.new ≤ array_vec_len page.old + length word.now + 20 }
{
    match told {
        Some(count) => push_count(page, word, count),
        None => {
            push_text(page, word);
            push_text(page, b"-");
        }
    }
}

// The name of a group.
fn push_name(page: &mut ArrayVec<u8, PAGE_ROOM>, group: u8)
    requires group { group < 16 }
    requires room { array_vec_len page.old + 4 ≤ 4096 }
    ensures text { page.new.items ≡ page.old.items ++ group_name group }
    ensures short { array_vec_len page.new ≤ array_vec_len page.old + 4 }
{
    push_text(page, group_name(group).as_bytes());
}

// What the run knows of a group.
fn push_sums(page: &mut ArrayVec<u8, PAGE_ROOM>, group: u8, sums: &GroupSums)
    requires group { group < 16 }
    requires room { array_vec_len page.old + 165 ≤ 4096 }
    ensures text { page.new.items ≡ page.old.items ++ sums_text group sums.now }
    ensures short { array_vec_len page.new ≤ array_vec_len page.old + 165 }
{
    push_name(page, group);
    push_count(page, b" taken ", sums.taken);
    push_count(page, b" recorded ", sums.recorded);
    push_count(page, b" full ", sums.counts.full);
    push_count(page, b" rate ", sums.counts.rate);
    push_count(page, b" bad ", sums.counts.bad);
    push_count(page, b" large ", sums.counts.large);
}

// What is gauged of a group, and the end of its line.
fn push_gauge(page: &mut ArrayVec<u8, PAGE_ROOM>, gauge: &GroupGauge)
    requires { array_vec_len page.old + 54 ≤ 4096 }
    ensures text { page.new.items ≡ page.old.items ++ gauge_text gauge.now }
    ensures short { array_vec_len page.new ≤ array_vec_len page.old + 54 }
{
    push_told(page, b" kernel ", gauge.kernel);
    push_told(page, b" ago ", gauge.ago);
    push_text(page, b"\n");
}

// The line of a group, if it is configured.
fn push_line(
    page: &mut ArrayVec<u8, PAGE_ROOM>,
    group: u8,
    sums: &Option<GroupSums>,
    gauge: &GroupGauge,
)
    requires group { group < 16 }
    requires room { array_vec_len page.old + 219 ≤ 4096 }
    ensures text { page.new.items ≡ page.old.items ++ line_if group sums.now gauge.now }
    ensures short { array_vec_len page.new ≤ array_vec_len page.old + 219 }
{
    if let Some(sums) = sums {
        push_sums(page, group, sums);
        push_gauge(page, gauge);
    }
}

// When the run's first item was received.
fn push_since(page: &mut ArrayVec<u8, PAGE_ROOM>, since: Option<i64>)
    requires stamp { IfSome since IsStamp }
    requires room { array_vec_len page.old + 24 ≤ 4096 }
    ensures text { page.new.items ≡ page.old.items ++ since_text since }
    ensures short { array_vec_len page.new ≤ array_vec_len page.old + 24 }
{
    match since {
        Some(utc) => {
            let mut text = ArrayVec::new();
            write_utc(utc, &mut text);
            push_text(page, text.as_slice());
        }
        None => push_text(page, b"-"),
    }
}

// The syncs of the media, and the start of the run.
fn push_ends(page: &mut ArrayVec<u8, PAGE_ROOM>, since: Option<i64>, gauged: &Gauged)
    requires stamp { IfSome since IsStamp }
    requires room { array_vec_len page.old + 104 ≤ 4096 }
    ensures text { page.new.items ≡ page.old.items ++ ends_text since gauged.now }
    ensures short { array_vec_len page.new ≤ array_vec_len page.old + 104 }
{
    push_told(page, b"capsule sync ", gauged.capsule_sync);
    push_told(page, b"\nlongterm sync ", gauged.long_term_sync);
    push_text(page, b"\nrun since ");
    push_since(page, since);
    push_text(page, b"\n");
}

// The lines of all groups that are configured.
fn push_lines(page: &mut ArrayVec<u8, PAGE_ROOM>, sums: &[Option<GroupSums>; 16], gauged: &Gauged)
    requires { array_vec_len page.old + 3504 ≤ 4096 }
    ensures text { page.new.items ≡ page.old.items ++ lines_below 16 (λ g. slice_index_or sums.now g None) (λ g. slice_index_or gauged.now.groups g no_gauge) }
    ensures short { array_vec_len page.new ≤ array_vec_len page.old + 3504 }
{
    for group in 0..16u8 {
        let place = usize::from(group);
        push_line(page, group, &sums[place], &gauged.groups[place]);
    }
}

/// The reply to `HEALTH` (this project's profile): a line for each group that has sums, in their order, then how long the media took and
/// since when the run goes, between the lines `OK` and `.`. It needs no memory.
///
/// `sums` are by the number of the group, and `since` is the UTC stamp of the run's first item in milliseconds since 1970.
pub fn health_page(
    sums: &[Option<GroupSums>; 16],
    since: Option<i64>,
    gauged: &Gauged,
) -> ArrayVec<u8, PAGE_ROOM>
    requires { IfSome since IsStamp }
    ensures { (known : ℕ → Option Sums) → ((g : ℕ) → g < 16 → slice_index_or sums.now g None ≡ known g)
        → result.items ≡ codes "OK\n" ++ health_text known since gauged.now ++ codes ".\n" }
{
    let mut page = ArrayVec::new();
    push_text(&mut page, b"OK\n");
    push_lines(&mut page, sums, gauged);
    push_ends(&mut page, since, gauged);
    push_text(&mut page, b".\n");
    page
}
