// Comparing two media, each of them read alone.
ghost use Rattle.std.specs.Prelude.{◌≡◌, List, IfOk};
ghost use Rattle.vdr_terms.specs.Records.{Record as Entry};
ghost use Rattle.vdr_outside.specs.Disk.{Unchanged, content};
ghost use Rattle.vdr_segment.specs.Areas.{HasRoom};
ghost use Rattle.vdr_compare.specs.declared.standing.Standing.{Standing as AStanding};
ghost use Rattle.vdr_compare.specs.Comparisons.{Compares, HasCompareCause};
ghost use Rattle.vdr_compare.specs.Sides.{AreAhead, Gives, HasReadCause};
ghost use Rattle.vdr_compare.specs.Standings.{standings};
ghost use Rattle.vdr_compare.specs.Surveys.{surveyed_condition, surveyed_windows};
ghost use Rattle.vdr_compare.specs.Tallies.{Tallies, TellsLeft};

use crate::condition::Condition;
use crate::pairing::next_standing;
use crate::side::Side;
use crate::survey::Survey;
use crate::tally::Tally;
use crate::{Verdict, Windows};
use vdr_outside::{Failed, Fault, Media, Sink};
use vdr_rescue::Cursor;

/// Why a comparison ended before its end.
#[derive(Clone, Copy, Drop)]
pub enum CompareRefused {
    /// A read failed.
    Fault,
    /// The output failed.
    Output,
}

impl From<Fault> for CompareRefused {
    ghost use Rattle.std.specs.Prelude.{◌≡◌};
    ghost use Rattle.vdr_compare.specs.declared.comparing.CompareRefused.TheVariants.{Fault as AFault};

    ghost from_gives = { λ _ refused. refused ≡ AFault };

    fn from(_: Fault) -> CompareRefused {
        CompareRefused::Fault
    }
}

impl From<Failed> for CompareRefused {
    ghost use Rattle.std.specs.Prelude.{◌≡◌};
    ghost use Rattle.vdr_compare.specs.declared.comparing.CompareRefused.TheVariants.{Output};

    ghost from_gives = { λ _ refused. refused ≡ Output };

    fn from(_: Failed) -> CompareRefused {
        CompareRefused::Output
    }
}

// Goes over all places that are ahead.
fn compare_places<M: Media, O: Sink>(
    capsule: &mut Side,
    longterm: &mut Side,
    tally: Tally,
    media: &mut M,
    out: &mut O,
) -> Result<Tally, CompareRefused>
    requires capsule { HasRoom capsule.old.cursor.area (M.disk media.old).sizes }
    requires longterm { HasRoom longterm.old.cursor.area (M.disk media.old).sizes }
    ensures tallies { M.tells → (ahead : List AStanding)
        → AreAhead (content (M.disk media.old).reads capsule.old.cursor.area.medium) (content (M.disk media.old).reads longterm.old.cursor.area.medium) capsule.old longterm.old ahead
        → Tallies tally ahead (O.taken out.old) (O.taken out.new) result }
    ensures unchanged { Unchanged (M.disk media.old) (M.disk media.new) }
    ensures cause { HasCompareCause (M.faults media.old) (M.faults media.new) (O.faults out.old) (O.faults out.new) result }
{
    let mut tally = tally;
    while let Some(standing) = next_standing(capsule, longterm, media)? {
        tally = tally.add(standing, out)?;
    }
    Ok(tally)
}

// The same, and what is left to print behind the last one.
fn compare_sides<M: Media, O: Sink>(
    capsule: &mut Side,
    longterm: &mut Side,
    tally: Tally,
    media: &mut M,
    out: &mut O,
) -> Result<Verdict, CompareRefused>
    requires capsule { HasRoom capsule.old.cursor.area (M.disk media.old).sizes }
    requires longterm { HasRoom longterm.old.cursor.area (M.disk media.old).sizes }
    ensures tells { M.tells → (ahead : List AStanding)
        → AreAhead (content (M.disk media.old).reads capsule.old.cursor.area.medium) (content (M.disk media.old).reads longterm.old.cursor.area.medium) capsule.old longterm.old ahead
        → TellsLeft tally ahead (O.taken out.old) (O.taken out.new) result }
    ensures unchanged { Unchanged (M.disk media.old) (M.disk media.new) }
    ensures cause { HasCompareCause (M.faults media.old) (M.faults media.new) (O.faults out.old) (O.faults out.new) result }
{
    let tally = compare_places(capsule, longterm, tally, media, out)?;
    tally.finish(out)?;
    Ok(tally.verdict)
}

// Both readers before the first record.
fn both_fronts<M: Media>(
    capsule: Cursor,
    longterm: Cursor,
    media: &mut M,
) -> Result<(Side, Side), Fault>
    requires capsule { HasRoom capsule.area (M.disk media.old).sizes }
    requires longterm { HasRoom longterm.area (M.disk media.old).sizes }
    ensures areas { IfOk result (λ sides. (sides.0.cursor.area ≡ capsule.area) × (sides.1.cursor.area ≡ longterm.area)) }
    ensures gives { IfOk result (λ sides. M.tells → (rs ss : List Entry) → Gives (content (M.disk media.old).reads capsule.area.medium) capsule rs
        → Gives (content (M.disk media.old).reads longterm.area.medium) longterm ss
        → AreAhead (content (M.disk media.old).reads capsule.area.medium) (content (M.disk media.old).reads longterm.area.medium) sides.0 sides.1 (standings rs ss)) }
    ensures unchanged { Unchanged (M.disk media.old) (M.disk media.new) }
    ensures cause { HasReadCause (M.faults media.old) (M.faults media.new) result }
{
    let first = Side::front(capsule, media)?;
    let second = Side::front(longterm, media)?;
    Ok((first, second))
}

// Prints the comparison, within these windows, behind what is told before the places.
fn print_comparison<M: Media, O: Sink>(
    capsule: Cursor,
    longterm: Cursor,
    windows: Windows,
    condition: &Condition,
    media: &mut M,
    out: &mut O,
) -> Result<Verdict, CompareRefused>
    requires capsule { HasRoom capsule.area (M.disk media.old).sizes }
    requires longterm { HasRoom longterm.area (M.disk media.old).sizes }
    ensures compares { M.tells → (rs ss : List Entry) → Gives (content (M.disk media.old).reads capsule.area.medium) capsule rs
        → Gives (content (M.disk media.old).reads longterm.area.medium) longterm ss
        → Compares condition.now windows (standings rs ss) (O.taken out.old) (O.taken out.new) result }
    ensures unchanged { Unchanged (M.disk media.old) (M.disk media.new) }
    ensures cause { HasCompareCause (M.faults media.old) (M.faults media.new) (O.faults out.old) (O.faults out.new) result }
{
    let (mut first, mut second) = both_fronts(capsule, longterm, media)?;
    condition.print(out)?;
    let tally = Tally::new(windows, condition.verdict());
    compare_sides(&mut first, &mut second, tally, media, out)
}

// The windows of both media, which end with the last record of either one.
fn windows_of(capsule: &Survey, longterm: &Survey) -> Windows
    ensures { result ≡ surveyed_windows capsule.now longterm.now }
{
    Windows {
        capsule: capsule.seconds,
        longterm: longterm.seconds,
        last_second: capsule.last_second.max(longterm.last_second),
    }
}

/// Prints the comparison of the capsule and of the long-term medium, each of them read alone once; `alike`: their configurations have the
/// same text. Answers the first line but the last. Both are read once more, and nothing is written to them; no memory is taken.
///
/// `Fault`: a read failed. `Output`: a write did. Either one's count of faults rose, and a front of the text is written.
pub(crate) fn compare<M: Media, O: Sink>(
    capsule: Survey,
    longterm: Survey,
    alike: bool,
    media: &mut M,
    out: &mut O,
) -> Result<Verdict, CompareRefused>
    requires capsule { HasRoom capsule.cursor.area (M.disk media.old).sizes }
    requires longterm { HasRoom longterm.cursor.area (M.disk media.old).sizes }
    ensures compares { M.tells → (rs ss : List Entry) → Gives (content (M.disk media.old).reads capsule.cursor.area.medium) capsule.cursor rs
        → Gives (content (M.disk media.old).reads longterm.cursor.area.medium) longterm.cursor ss
        → Compares (surveyed_condition alike capsule longterm) (surveyed_windows capsule longterm) (standings rs ss) (O.taken out.old) (O.taken out.new) result }
    ensures unchanged { Unchanged (M.disk media.old) (M.disk media.new) }
    ensures cause { HasCompareCause (M.faults media.old) (M.faults media.new) (O.faults out.old) (O.faults out.new) result }
{
    let windows = windows_of(&capsule, &longterm);
    let condition = Condition {
        alike,
        capsule: capsule.findings,
        longterm: longterm.findings,
    };
    print_comparison(
        capsule.cursor,
        longterm.cursor,
        windows,
        &condition,
        media,
        out,
    )
}
