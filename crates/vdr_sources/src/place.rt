// Where the row of a source stands among rows that are sorted.
ghost use Rattle.std.specs.Prelude.{◌≡◌, IfErr, IfOk, length};
ghost use Rattle.vdr_durability.specs.Sources.{AreSorted};
ghost use Rattle.vdr_sources.specs.Rows.{IsAt, IsGap};

use crate::row::Row;
use std::cmp::Ordering;

/// Where the source's row stands, or where it is to be put.
pub(crate) fn place_of(rows: &[Row], group: u8, name: &[u8]) -> Result<usize, usize>
    requires { AreSorted rows.now }
    ensures found { IfOk result (IsAt (record { group = group; name = name.now }) rows.now) }
    ensures absent { IfErr result (IsGap (record { group = group; name = name.now }) rows.now) }
{
    let mut from = 0;
    let mut to = rows.len();
    while from < to {
        let middle = from + (to - from) / 2;
        match rows[middle].order(group, name) {
            Ordering::Less => to = middle,
            Ordering::Equal => return Ok(middle),
            Ordering::Greater => from = middle + 1,
        }
    }
    Err(from)
}
