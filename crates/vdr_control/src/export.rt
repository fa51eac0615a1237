// Reading an order for a file of what was recorded: a sound, or an image.
ghost use Rattle.std.specs.Prelude.{◌≡◌, ◌<◌, ◌^◌, ℕ, ℤ, true, List, decimal, length, IfSome, IfNone};
ghost use Rattle.vdr_entry.specs.declared.query.Medium.{Medium as AMedium};
ghost use Rattle.vdr_image.specs.Headers.{is_identifier};
ghost use Rattle.vdr_control.specs.Exports.{HasFileWords, IsExportLine};
ghost use Rattle.vdr_control.specs.Orders.{plain};
ghost use Rattle.vdr_control.specs.Orders.PlainOrder.{Export, Play};
ghost use Rattle.vdr_control.specs.Plays.{SpellsPlay};
ghost use Rattle.vdr_control.specs.declared.export.Exporting.{Exporting as AnExporting};
ghost use Rattle.vdr_control.specs.declared.export.Exporting.TheVariants.{Picture, Sound};

use crate::Order;
use crate::play::read_span;
use crate::word::{behind, five_words, four_words, six_words};
use vdr_bytes::number;
use vdr_entry::Medium;
use vdr_terms::are_graphic;

/// What file is asked for (this project's profile): that of the command of its name.
#[derive(Clone, Copy, Debug, PartialEq, Eq, Drop)]
pub enum Exporting {
    /// The sound of a channel.
    Sound {
        /// Whether its frames stand where their stamps say.
        timed: bool,
    },
    /// The image of a block.
    Picture {
        /// Six bytes of 0x21 to 0x7E.
        source: [u8; 6],
        /// The number by which the source tells its images apart.
        block: u32,
    },
}

/// A file, and what it is to be made of, as in `Order::Export`.
#[derive(Clone, Copy, Drop)]
pub(crate) struct Asked<'a> {
    medium: Medium,
    channel: &'a [u8],
    from: i64,
    to: i64,
    exporting: Exporting,
}

impl<'a> Asked<'a> {
    /// The order for it.
    pub(crate) fn order(self) -> Order<'a>
        ensures { plain result ≡ Export self.entry.medium self.entry.channel.now self.entry.from self.entry.to self.entry.exporting }
    {
        Order::Export {
            medium: self.medium,
            channel: self.channel,
            from: self.from,
            to: self.to,
            exporting: self.exporting,
        }
    }
}

// This file, made of what these words spell.
fn asked_by<'a>(
    medium: &[u8],
    channel: &'a [u8],
    from: &[u8],
    to: &[u8],
    exporting: Exporting,
) -> Option<Asked<'a>>
    ensures found { IfSome result (λ asked. SpellsPlay medium.now channel.now from.now to.now (Play asked.medium asked.channel.now asked.from asked.to)
        × (0 < length asked.channel.now) × (asked.exporting ≡ exporting)) }
    ensures none { IfNone result ((asked : AMedium) (name : List ℕ) (since until : ℤ) → 0 < length name → SpellsPlay medium.now channel.now from.now to.now (Play asked name since until) → ⊥) }
{
    if channel.is_empty() {
        return None;
    }
    let (medium, from, to) = read_span(medium, from, to)?;
    Some(Asked {
        medium,
        channel,
        from,
        to,
        exporting,
    })
}

// The sound that the words of a text ask for.
fn read_sound(text: &[u8]) -> Option<Asked<'_>>
    ensures found { IfSome result (λ asked. (timed : _) × (asked.exporting ≡ Sound timed) × HasFileWords text.now asked.medium asked.channel.now asked.from asked.to (Sound timed)) }
    ensures none { IfNone result ((medium : AMedium) (channel : List ℕ) (from to : ℤ) (timed : _) → HasFileWords text.now medium channel from to (Sound timed) → ⊥) }
{
    if let Some((medium, channel, from, to)) = four_words(text) {
        return asked_by(medium, channel, from, to, Exporting::Sound { timed: false });
    }
    let (medium, channel, from, to, last) = five_words(text)?;
    if last != b"timed".as_slice() {
        return None;
    }
    asked_by(medium, channel, from, to, Exporting::Sound { timed: true })
}

// The source of an image.
fn read_source(word: &[u8]) -> Option<[u8; 6]>
    ensures found { IfSome result (λ source. (word.now ≡ source) × (is_identifier source ≡ true)) }
    ensures none { IfNone result (is_identifier word.now ≡ true → ⊥) }
{
    if word.len() != 6 || !are_graphic(word) {
        return None;
    }
    Some([word[0], word[1], word[2], word[3], word[4], word[5]])
}

// A number of four bytes, in decimal digits without a leading zero.
fn read_number(digits: &[u8]) -> Option<u32>
    ensures found { IfSome result (λ n. digits.now ≡ decimal n) }
    ensures none { IfNone result ((n : ℕ) → n < 2 ^ 32 → digits.now ≡ decimal n → ⊥) }
{
    let number = number(digits, 10)?;
    let begins_so = digits.len() > 1 && digits[0] == b'0';
    if begins_so || number > u64::from(u32::MAX) {
        return None;
    }
    Some(number as u32)
}

// The image that the words of a text ask for.
fn read_picture(text: &[u8]) -> Option<Asked<'_>>
    ensures found { IfSome result (λ asked. (source : _) × (block : ℕ) × (asked.exporting ≡ Picture source block) × HasFileWords text.now asked.medium asked.channel.now asked.from asked.to (Picture source block)) }
    ensures none { IfNone result ((medium : AMedium) (channel : List ℕ) (from to : ℤ) (source : List ℕ) (block : ℕ)
        → HasFileWords text.now medium channel from to (Picture source block) → ⊥) }
{
    let (medium, channel, source, block, from, to) = six_words(text)?;
    let source = read_source(source)?;
    let block = read_number(block)?;
    asked_by(
        medium,
        channel,
        from,
        to,
        Exporting::Picture { source, block },
    )
}

/// The file that a line asks for.
pub(crate) fn read_export_line(line: &[u8]) -> Option<Asked<'_>>
    ensures found { IfSome result (λ asked. IsExportLine line.now asked.medium asked.channel.now asked.from asked.to asked.exporting) }
    ensures none { IfNone result ((medium : AMedium) (channel : List ℕ) (from to : ℤ) (exporting : AnExporting) → IsExportLine line.now medium channel from to exporting → ⊥) }
{
    if let Some(text) = behind(line, b"WAV ") {
        return read_sound(text);
    }
    let text = behind(line, b"PICTURE ")?;
    read_picture(text)
}
