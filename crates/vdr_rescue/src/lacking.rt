// The places that a medium owes and lacks.
ghost use Rattle.std.specs.Prelude.{◌≡◌, ◌≤◌, ◌++◌, [], length, IfOk, OnOk, None, false};
ghost use Rattle.std.specs.List.{list_any};
ghost use Rattle.vdr_terms.specs.Windows.{in_window};
ghost use Rattle.vdr_rescue.specs.Lacking.{as_list, before_next, first_owed, greater, greatest, lacks_at, lacks_before, lacks_behind, last_second, least, may_go, missing, second_behind, touches, until, up_to};

use crate::{Head, Run, Told};
use std::alloc::{AllocError, Global};

/// Places from `a` to `b`, both included.
#[derive(Clone, Copy, Default, Drop)]
pub struct Places {
    pub a: u64,
    pub b: u64,
}

/// The last segment before another one that gave records: its sequence number, whether it is whole, and its run.
#[derive(Clone, Copy, Drop)]
pub struct Before {
    pub(crate) seq: u64,
    pub(crate) whole: bool,
    pub(crate) run: Run,
}

/// What decides which places a medium owes, beside the places of its live incidents: its window in seconds, the second of the last
/// record that is given, and how many slots are not open.
#[derive(Clone, Copy, Drop)]
pub struct Owed {
    pub(crate) seconds: u64,
    pub(crate) last_second: u64,
    pub(crate) closed: u32,
}

// Whether one of these places is from `from` on and before `to`.
fn are_touched(pins: &[Places], from: u64, to: u64) -> bool
    ensures { result ≡ list_any (touches from to) pins.now }
{
    pins.iter().any(|pin| pin.a < to && from <= pin.b)
}

// The least of these places and a further one.
fn least_of(pins: &[Places], place: u64) -> u64
    ensures { result ≡ least place pins.now }
{
    pins.iter().fold(place, |least, pin| least.min(pin.a))
}

fn greater_of(greatest: Option<u64>, pin: Places) -> Option<u64>
    ensures { result ≡ greater greatest pin }
{
    match greatest {
        Some(greatest) => Some(greatest.max(pin.b)),
        None => Some(pin.b),
    }
}

// The greatest of these places.
fn greatest_of(pins: &[Places]) -> Option<u64>
    ensures { result ≡ greatest pins.now }
{
    pins.iter()
        .fold(None, |greatest, pin| greater_of(greatest, *pin))
}

/// Whether a second is in the window of so many seconds that ends with the second `last`.
pub fn is_in_window(second: u64, last: u64, seconds: u64) -> bool
    ensures { result ≡ in_window second last seconds }
{
    match second.checked_add(seconds) {
        Some(end) => last < end,
        None => true,
    }
}

// The places from `from` on and before `to`, if there are some.
fn until(from: u64, to: u64) -> Option<Places>
    ensures { result ≡ until from to }
{
    if from < to {
        Some(Places { a: from, b: to - 1 })
    } else {
        None
    }
}

// The places from `from` on up to b, if there are some.
fn up_to(from: u64, b: u64) -> Option<Places>
    ensures { result ≡ up_to from b }
{
    if from <= b {
        Some(Places { a: from, b })
    } else {
        None
    }
}

impl Owed {
    // The first place that is owed of those up to this one, before all records that are given.
    fn first(self, pins: &[Places], place: u64) -> u64
        ensures { result ≡ first_owed self pins.now place }
    {
        if self.closed > 1 {
            0
        } else {
            least_of(pins, place)
        }
    }

    // Whether the ring itself may have written over what stood between two segments.
    fn may_go(
        self,
        pins: &[Places],
        before: Before,
        head: Head,
        fault: Option<u32>,
        run: Run,
    ) -> bool
        ensures { result ≡ may_go self pins.now before head fault run }
    {
        before.whole
            && fault.is_none()
            && head.seq.saturating_sub(before.seq) > 1
            && self.closed < 2
            && !is_in_window(before.run.second, self.last_second, self.seconds)
            && !are_touched(pins, before.run.to, run.from)
    }

    // What lacks before the run of a segment. `beside`: the segment that was read before it gave records too.
    fn lacks_before(
        self,
        pins: &[Places],
        before: Option<Before>,
        beside: bool,
        head: Head,
        fault: Option<u32>,
        run: Run,
    ) -> Option<Places>
        ensures { result ≡ lacks_before self pins.now before beside head fault run }
    {
        let Some(before) = before else {
            return until(self.first(pins, run.from), run.from);
        };
        if beside && self.may_go(pins, before, head, fault, run) {
            return None;
        }
        until(before.run.to, run.from)
    }

    fn lacks_at(
        self,
        pins: &[Places],
        before: Option<Before>,
        beside: bool,
        head: Head,
        told: Told,
    ) -> Option<Places>
        ensures { result ≡ lacks_at self pins.now before beside head told.fault told.run }
    {
        let run = told.run?;
        self.lacks_before(pins, before, beside, head, told.fault, run)
    }

    // What lacks behind the last run.
    fn lacks_behind(self, pins: &[Places], before: Option<Before>) -> Option<Places>
        ensures { result ≡ lacks_behind self pins.now before (greatest pins.now) }
    {
        let greatest = greatest_of(pins)?;
        match before {
            Some(before) => up_to(before.run.to, greatest),
            None => up_to(self.first(pins, greatest), greatest),
        }
    }
}

// The segment before the next one, behind this one.
fn before_next(before: Option<Before>, head: Head, told: Told) -> Option<Before>
    ensures { result ≡ before_next before head told.fault told.run }
{
    match told.run {
        Some(run) => Some(Before {
            seq: head.seq,
            whole: told.fault.is_none(),
            run,
        }),
        None => before,
    }
}

fn add(gaps: &mut Vec<Places>, gap: Option<Places>) -> Result<(), AllocError>
    ensures { OnOk result (gaps.new.items ≡ gaps.old.items ++ as_list gap) }
{
    if let Some(gap) = gap {
        gaps.push(gap)?;
    }
    Ok(())
}

/// All places that lack, by rising place, of a medium of which this is told of its segments.
pub(crate) fn missing_of(
    alloc: Global,
    owed: Owed,
    pins: &[Places],
    heads: &[Head],
    told: &[Told],
) -> Result<Vec<Places>, AllocError>
    requires { length told.now ≤ length heads.now }
    ensures { IfOk result (λ gaps. gaps.items ≡ missing owed pins.now None false heads.now told.now) }
{
    let mut gaps = Vec::new(alloc);
    let mut before = None;
    let mut beside = false;
    for i in 0..told.len() {
        let head = heads[i];
        let tale = told[i];
        add(&mut gaps, owed.lacks_at(pins, before, beside, head, tale))?;
        before = before_next(before, head, tale);
        beside = tale.run.is_some();
    }
    add(&mut gaps, owed.lacks_behind(pins, before))?;
    Ok(gaps)
}

fn second_behind(second: u64, told: Told) -> u64
    ensures { result ≡ second_behind second told.run }
{
    match told.run {
        Some(run) => run.second,
        None => second,
    }
}

/// The second of the last record that is given, 0 where there is none.
pub(crate) fn last_second_of(told: &[Told]) -> u64
    ensures { result ≡ last_second told.now }
{
    told.iter()
        .fold(0, |second, told| second_behind(second, *told))
}
