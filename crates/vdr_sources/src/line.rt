// What a line of a datagram counts for.
ghost use Rattle.std.specs.Prelude.{◌≡◌, option_copied};
ghost use Rattle.vdr_datagram.specs.Views.{verdict_of};
ghost use Rattle.vdr_sources.specs.Rows.{reading_told};
ghost use Rattle.vdr_sources.specs.Tables.{named, reading_of};

use vdr_datagram::LineVerdict;
use vdr_tag::Tags;

// The name of a line that names no source.
const NO_SOURCE: &[u8] = b"-";

/// What a line says of its source.
#[derive(Clone, Copy, Drop)]
pub(crate) struct Told<'a> {
    pub(crate) name: &'a [u8],
    // The line count of its TAG blocks.
    pub(crate) count: Option<u16>,
    // It is a sentence, behind TAG blocks that are not refused.
    pub(crate) good: bool,
}

// What a line with these TAG blocks says.
fn tagged<'a>(tags: &Tags<'a>, good: bool) -> Told<'a>
    ensures name { result.name.now ≡ named (option_copied tags.now.source) }
    ensures count { result.count ≡ tags.now.line }
    ensures good { result.good ≡ good }
{
    Told {
        name: tags.source.unwrap_or(NO_SOURCE),
        count: tags.line,
        good,
    }
}

/// What a line says. One whose TAG blocks are refused names no source and has no count.
pub(crate) fn told_by<'a>(verdict: &LineVerdict<'a>) -> Told<'a>
    ensures { reading_told result ≡ reading_of (verdict_of verdict.now) }
{
    match verdict {
        LineVerdict::Good { tags, .. } => tagged(tags, true),
        LineVerdict::Sentence { tags, .. } => tagged(tags, false),
        LineVerdict::Tag(_) => Told {
            name: NO_SOURCE,
            count: None,
            good: false,
        },
    }
}
