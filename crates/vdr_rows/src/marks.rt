// The rows of Start, Stop and Gap.
ghost use Rattle.std.specs.Prelude.{◌≡◌, ◌∷◌, [], OnOk, option_map};
ghost use Rattle.std.specs.Io.KnownBytes.{Appends};
ghost use Rattle.vdr_outside.specs.Causes.{HasCause};
ghost use Rattle.vdr_outside.specs.Writes.{AppendsFront};
ghost use Rattle.vdr_rows.specs.Tables.{mark, missed, missed_values, rows_of};
ghost use Rattle.vdr_rows.specs.Texts.{heading_of, rows_text};
ghost use Rattle.vdr_rows.specs.Views.{said_of};

use crate::decimal::of_count;
use crate::heading::Heading;
use crate::row::print_values;
use crate::said::Said;
use vdr_entry::Record;
use vdr_outside::{Failed, Sink};
use vdr_terms::Counts;

fn mark(name: &[u8]) -> Said<'_>
    ensures { said_of result ≡ mark name.now }
{
    Said {
        item: b"",
        name,
        number: None,
        measure: b"",
        valid: None,
        words: b"",
    }
}

fn missed(cause: &[u8], count: u64) -> Option<Said<'_>>
    ensures { option_map said_of result ≡ missed cause.now count }
{
    if count == 0 {
        return None;
    }
    Some(Said {
        item: cause,
        name: b"missed",
        number: Some(of_count(count)),
        measure: b"",
        valid: None,
        words: b"",
    })
}

/// Prints the row of a record that says no more than this.
pub(crate) fn print_mark<O: Sink>(item: &Record, name: &[u8], out: &mut O) -> Result<(), Failed>
    ensures all { OnOk result (Appends (O.taken out.old) (O.taken out.new) (rows_text (rows_of (heading_of item.now [] []) (mark name.now ∷ [])))) }
    ensures front { AppendsFront (O.taken out.old) (O.taken out.new) (rows_text (rows_of (heading_of item.now [] []) (mark name.now ∷ []))) }
    ensures cause { HasCause (O.faults out.old) (O.faults out.new) result }
{
    let heading = Heading::new(item, b"", b"");
    print_values(&heading, &[Some(mark(name))], out)
}

/// Prints a row for each cause by which items were missed.
pub(crate) fn print_missed<O: Sink>(
    item: &Record,
    counts: Counts,
    out: &mut O,
) -> Result<(), Failed>
    ensures all { OnOk result (Appends (O.taken out.old) (O.taken out.new) (rows_text (rows_of (heading_of item.now [] []) (missed_values counts)))) }
    ensures front { AppendsFront (O.taken out.old) (O.taken out.new) (rows_text (rows_of (heading_of item.now [] []) (missed_values counts))) }
    ensures cause { HasCause (O.faults out.old) (O.faults out.new) result }
{
    let heading = Heading::new(item, b"", b"");
    let values = [
        missed(b"full", counts.full),
        missed(b"rate", counts.rate),
        missed(b"bad", counts.bad),
        missed(b"large", counts.large),
    ];
    print_values(&heading, &values, out)
}
