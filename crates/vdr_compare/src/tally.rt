// What a comparison keeps as it goes from place to place.
ghost use Rattle.std.specs.Prelude.{◌≡◌, Some, None, OnOk, IfOk, []};
ghost use Rattle.std.specs.Io.KnownBytes.{Appends};
ghost use Rattle.vdr_outside.specs.Causes.{HasCause};
ghost use Rattle.vdr_outside.specs.Writes.{AppendsFront};
ghost use Rattle.vdr_compare.specs.Differences.{difference_at, lines_of, said, same_with, spanned};
ghost use Rattle.vdr_compare.specs.Tallies.{closed_by, left_text, tally_with, text_at, waiting_with, with_difference, closing_text};

use crate::difference::{print_difference, print_same};
use crate::{Difference, Standing, Verdict, Windows};
use vdr_outside::{Failed, Sink};
use vdr_rescue::{Places, is_in_window};

/// What a comparison keeps as it goes from place to place.
#[derive(Clone, Copy, Drop)]
pub(crate) struct Tally {
    pub(crate) windows: Windows,
    // The difference that is not yet printed: the next one may go on where it ends.
    pub(crate) waiting: Option<Difference>,
    // The least and the greatest place of records that are the same.
    pub(crate) same: Option<Places>,
    pub(crate) verdict: Verdict,
}

// What is said of a place.
fn difference_at(windows: Windows, standing: Standing) -> Option<Difference>
    ensures { result ≡ difference_at windows standing }
{
    let (medium, place, second, seconds) = match standing {
        Standing::Both { same: true, .. } => return None,
        Standing::Both { place, same: false } => return Some(Difference::Differs { place }),
        Standing::Capsule { place, second } => (1, place, second, windows.longterm),
        Standing::LongTerm { place, second } => (0, place, second, windows.capsule),
    };
    if is_in_window(second, windows.last_second, seconds) {
        Some(Difference::Lacks {
            medium,
            a: place,
            b: place,
        })
    } else {
        None
    }
}

fn spanned(span: Option<Places>, place: u64) -> Places
    ensures { result ≡ spanned span place }
{
    match span {
        Some(span) => Places {
            a: span.a.min(place),
            b: span.b.max(place),
        },
        None => Places { a: place, b: place },
    }
}

fn same_with(span: Option<Places>, standing: Standing) -> Option<Places>
    ensures { result ≡ same_with span standing }
{
    match standing {
        Standing::Both { place, same: true } => Some(spanned(span, place)),
        Standing::Both { same: false, .. } | Standing::Capsule { .. } | Standing::LongTerm { .. } =>
            span,
    }
}

fn waiting_with(waiting: Option<Difference>, next: Difference) -> Difference
    ensures { result ≡ waiting_with waiting next }
{
    match waiting {
        Some(run) => {
            if run.goes_on(next) {
                run.with_next(next)
            } else {
                next
            }
        }
        None => next,
    }
}

// Prints the difference that waits, where the next one does not go on where it ends.
fn close<O: Sink>(waiting: Option<Difference>, next: Difference, out: &mut O) -> Result<(), Failed>
    ensures all { OnOk result (Appends (O.taken out.old) (O.taken out.new) (lines_of (closed_by waiting next))) }
    ensures front { AppendsFront (O.taken out.old) (O.taken out.new) (lines_of (closed_by waiting next)) }
    ensures cause { HasCause (O.faults out.old) (O.faults out.new) result }
{
    match waiting {
        Some(run) => {
            if run.goes_on(next) {
                Ok(())
            } else {
                print_difference(run, out)
            }
        }
        None => Ok(()),
    }
}

impl Tally {
    /// Before the first place, where the lines before come to this.
    pub(crate) fn new(windows: Windows, verdict: Verdict) -> Tally
        ensures { result ≡ record { windows = windows; waiting = None; same = None; verdict = verdict } }
    {
        Tally {
            windows,
            waiting: None,
            same: None,
            verdict,
        }
    }

    // With one difference more.
    fn with_difference(self, next: Difference) -> Tally
        ensures { result ≡ with_difference self (Some next) }
    {
        Tally {
            windows: self.windows,
            waiting: Some(waiting_with(self.waiting, next)),
            same: self.same,
            verdict: self.verdict.with(next),
        }
    }

    // Behind one more place.
    fn behind(self, standing: Standing) -> Tally
        ensures { result ≡ tally_with self standing }
    {
        let tally = Tally {
            windows: self.windows,
            waiting: self.waiting,
            same: same_with(self.same, standing),
            verdict: self.verdict,
        };
        match difference_at(self.windows, standing) {
            Some(next) => tally.with_difference(next),
            None => tally,
        }
    }

    // Prints what ends before a place.
    fn close_at<O: Sink>(self, standing: Standing, out: &mut O) -> Result<(), Failed>
        ensures all { OnOk result (Appends (O.taken out.old) (O.taken out.new) (text_at self standing)) }
        ensures front { AppendsFront (O.taken out.old) (O.taken out.new) (text_at self standing) }
        ensures cause { HasCause (O.faults out.old) (O.faults out.new) result }
    {
        match difference_at(self.windows, standing) {
            Some(next) => close(self.waiting, next, out),
            None => Ok(()),
        }
    }

    /// Goes over one more place, and prints the difference that ends before it. Where a write fails a front of it is written.
    pub(crate) fn add<O: Sink>(self, standing: Standing, out: &mut O) -> Result<Tally, Failed>
        ensures tally { IfOk result (λ tally. tally ≡ tally_with self standing) }
        ensures all { OnOk result (Appends (O.taken out.old) (O.taken out.new) (text_at self standing)) }
        ensures front { AppendsFront (O.taken out.old) (O.taken out.new) (text_at self standing) }
        ensures cause { HasCause (O.faults out.old) (O.faults out.new) result }
    {
        self.close_at(standing, out)?;
        Ok(self.behind(standing))
    }

    // Prints the difference that waits, if one does.
    fn print_waiting<O: Sink>(self, out: &mut O) -> Result<(), Failed>
        ensures all { OnOk result (Appends (O.taken out.old) (O.taken out.new) (lines_of (said self.waiting))) }
        ensures front { AppendsFront (O.taken out.old) (O.taken out.new) (lines_of (said self.waiting)) }
        ensures cause { HasCause (O.faults out.old) (O.faults out.new) result }
    {
        match self.waiting {
            Some(run) => print_difference(run, out),
            None => Ok(()),
        }
    }

    /// Prints what is left behind the last place.
    pub(crate) fn finish<O: Sink>(self, out: &mut O) -> Result<(), Failed>
        ensures all { OnOk result (Appends (O.taken out.old) (O.taken out.new) (left_text self [])) }
        ensures front { AppendsFront (O.taken out.old) (O.taken out.new) (left_text self []) }
        ensures cause { HasCause (O.faults out.old) (O.faults out.new) result }
    {
        self.print_waiting(out)?;
        print_same(self.same, out)
    }
}
