// A line of a sentence datagram, and what it reads as: TAG blocks, and the sentence behind them.
ghost use Rattle.std.specs.Prelude.{◌≡◌};
ghost use Rattle.vdr_datagram.specs.Verdicts.{line_reading};
ghost use Rattle.vdr_datagram.specs.Views.{verdict_of};

use vdr_sentence::{Bad, Sentence, read_sentence};
use vdr_tag::{BadTag, Tags, read_tags};

/// A line of a sentence datagram.
#[derive(Clone, Copy, Drop)]
pub struct Line<'a> {
    /// Where it begins in the datagram.
    pub from: usize,
    /// Where it ends: the place behind its last byte.
    pub to: usize,
    /// What it reads as.
    pub verdict: LineVerdict<'a>,
}

/// What a line reads as: TAG blocks at its front (IEC 61162-450), and a sentence of IEC 61162-1 that the rest is.
#[derive(Clone, Copy, Drop)]
pub enum LineVerdict<'a> {
    /// The TAG blocks and the sentence.
    Good {
        /// What the TAG blocks say.
        tags: Tags<'a>,
        /// The sentence behind them.
        sentence: Sentence<'a>,
    },
    /// A TAG block is refused. Nothing is said of the rest.
    Tag(BadTag),
    /// What stands behind the TAG blocks is no sentence.
    Sentence {
        /// What the TAG blocks say.
        tags: Tags<'a>,
        /// Why it is refused.
        bad: Bad,
    },
}

/// What a line reads as.
pub(crate) fn read_line(line: &[u8]) -> LineVerdict<'_>
    ensures { verdict_of result ≡ line_reading line.now }
{
    let (tags, size) = match read_tags(line) {
        Ok(front) => front,
        Err(bad) => return LineVerdict::Tag(bad),
    };
    match read_sentence(&line[size..]) {
        Ok(sentence) => LineVerdict::Good { tags, sentence },
        Err(bad) => LineVerdict::Sentence { tags, bad },
    }
}
