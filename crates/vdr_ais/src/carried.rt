// What the lines of sentence datagrams carry.
ghost use Rattle.std.specs.Prelude.{◌≡◌, ◌≤◌, IfSome, length, option_copied, option_map};
ghost use Rattle.vdr_datagram.specs.Views.{verdict_of};
ghost use Rattle.vdr_ais.specs.Lines.{carries, line_in, line_of, part_from};
ghost use Rattle.vdr_ais.specs.Views.{line_said, part_of};

use crate::line::{Key, Line, Part};
use crate::sixes::are_legal;
use vdr_datagram::LineVerdict;
use vdr_values::{Reading, read_value};

/// An AIS message of another ship, and one of the own ship.
const OTHER: &[u8] = b"VDM";

const OWN: &[u8] = b"VDO";

/// The source of a line that names none.
const NO_SOURCE: &[u8] = b"-";

// The part that these fields make, where all are there and the payload is legal.
fn part_from<'a>(
    total: Option<u32>,
    number: Option<u32>,
    payload: Option<&'a [u8]>,
    fill: Option<u32>,
) -> Option<Part<'a>>
    requires few { IfSome number (λ n. n ≤ 9) }
    requires short { IfSome payload (λ p. length p.now ≤ 76) }
    requires filled { IfSome fill (λ n. n ≤ 5) }
    ensures { option_map part_of result ≡ part_from total number (option_copied payload.entry) fill }
{
    let (Some(total), Some(number), Some(payload), Some(fill)) = (total, number, payload, fill)
    else {
        return None;
    };
    if !are_legal(payload) {
        return None;
    }
    Some(Part {
        total,
        number,
        payload,
        fill: fill as u8,
    })
}

fn carries(formatter: &[u8]) -> bool
    ensures { result ≡ carries formatter.now }
{
    formatter == OTHER || formatter == OWN
}

/// What a sentence that reads so carries.
pub(crate) fn line_of<'a>(group: u8, source: &'a [u8], reading: &Reading<'a>) -> Option<Line<'a>>
    ensures { option_map line_said result ≡ line_of group source.now reading.now }
{
    let formatter = reading.formatter();
    if !carries(formatter) {
        return None;
    }
    let (total, number) = (reading.digits(0), reading.digits(1));
    let part = part_from(total, number, reading.raw(4), reading.digits(5))?;
    let key = Key {
        group,
        source,
        formatter,
        sequence: reading.digits(2),
        channel: reading.raw(3).unwrap_or(b""),
    };
    Some(Line { key, part })
}

/// What a line of a datagram carries.
pub(crate) fn line_in<'a>(group: u8, verdict: &LineVerdict<'a>) -> Option<Line<'a>>
    ensures { option_map line_said result ≡ line_in group (verdict_of verdict.now) }
{
    let LineVerdict::Good { tags, sentence } = verdict else {
        return None;
    };
    match read_value(sentence) {
        Ok(Some(reading)) => line_of(group, tags.source.unwrap_or(NO_SOURCE), &reading),
        Ok(None) | Err(_) => None,
    }
}
