// What the TAG blocks at the front of a line say.
ghost use Rattle.std.specs.Prelude.{◌≡◌};
ghost use Rattle.vdr_tag.specs.Values.{nothing};
ghost use Rattle.vdr_tag.specs.Views.{values_of};

use crate::grouping::Grouping;

/// What the TAG blocks at the front of a line say. Where a code stands twice the first counts.
#[derive(Clone, Copy, Drop)]
pub struct Tags<'a> {
    /// `s`, where the line comes from: 1 to 15 bytes of 0x21 to 0x7E.
    pub source: Option<&'a [u8]>,
    /// `d`, whom it is for: 1 to 15 bytes of 0x21 to 0x7E.
    pub destination: Option<&'a [u8]>,
    /// `t`, any text.
    pub text: Option<&'a [u8]>,
    /// `n`, the line count, from 0 to 999.
    pub line: Option<u16>,
    /// `g`, the place of the sentence in its group.
    pub group: Option<Grouping>,
    /// `c`, UNIX time, of up to 18 digits.
    pub time: Option<u64>,
    /// `r`, relative time, of up to 18 digits.
    pub relative: Option<u64>,
    /// Items with other codes. It stays at 65,535.
    pub others: u16,
}

/// What no item says.
pub(crate) fn no_tags<'a>() -> Tags<'a>
    ensures { values_of result ≡ nothing }
{
    Tags {
        source: None,
        destination: None,
        text: None,
        line: None,
        group: None,
        time: None,
        relative: None,
        others: 0,
    }
}
