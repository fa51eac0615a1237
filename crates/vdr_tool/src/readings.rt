// The words that ask for a reading.
ghost use Rattle.std.specs.Prelude.{◌≡◌, ◌∷◌, [], ℤ, pos, true, Some, IfSome, codes, decimal, map, option_map, string_bytes};
ghost use Rattle.vdr_terms.specs.Stamps.{last_stamp};
ghost use Rattle.vdr_entry.specs.declared.query.Medium.{Medium as AMedium};
ghost use Rattle.vdr_image.specs.Headers.{is_identifier};
ghost use Rattle.vdr_tag.specs.Values.{is_identifier as names_source};
ghost use Rattle.vdr_control.specs.Orders.PlainOrder.{Play as PlayOrder};
ghost use Rattle.vdr_control.specs.Plays.{IsMedium, SpellsBound, SpellsPlay, medium_word};
ghost use Rattle.vdr_export.specs.declared.block.Block.{Block as ABlock};
ghost use Rattle.vdr_readout.specs.Exports.{IsBlock};
ghost use Rattle.vdr_readout.specs.Readings.{Reading as AReading, SpellsReading, plain_reading};
ghost use Rattle.vdr_readout.specs.Readings.Reading.{Track};
ghost use Rattle.vdr_readout.specs.Reads.{AskedPlay, plain_play};

use crate::numbers::number_of;
use vdr_control::{Order, law_of_plays, read_play};
use vdr_entry::Medium;
use vdr_export::Block;
use vdr_readout::{Reading, Wanted};
use vdr_terms::are_graphic;

// The medium, or the incident, of this name.
fn medium_of(word: &str) -> Option<Medium>
    ensures found { (medium : AMedium) → IsMedium medium → word.now ≡ medium_word medium → result ≡ Some medium }
    ensures only { IfSome result (λ medium. IsMedium medium × (word.now ≡ medium_word medium)) }
{
    law_of_plays();
    match read_play(word.as_bytes(), b"all", b"-", b"-")? {
        Order::Play { medium, .. } => Some(medium),
        _ => None,
    }
}

/// A reading of all records of a medium or of an incident.
pub fn of_medium(word: &str, name: &str) -> Option<Reading<'static>>
    ensures found { (reading : AReading) → SpellsReading (word.now ∷ name.now ∷ []) reading → option_map plain_reading result ≡ Some reading }
    ensures only { IfSome result (λ reading. SpellsReading (word.now ∷ name.now ∷ []) (plain_reading reading)) }
{
    let medium = medium_of(name)?;
    if word == "sources" {
        return Some(Reading::Sources { medium });
    }
    if word == "watch" {
        return Some(Reading::Watch { medium });
    }
    if word == "runs" {
        return Some(Reading::Runs { medium });
    }
    if word == "digest" {
        Some(Reading::Digest { medium })
    } else {
        None
    }
}

// The medium, or the incident, of this name, and the last stamp that is spelled so.
fn last_of(name: &str, bound: &str) -> Option<(Medium, i64)>
    ensures found { (asked : AMedium) (until : ℤ) → IsMedium asked → name.now ≡ medium_word asked → SpellsBound (pos last_stamp) bound.now until → result ≡ Some (asked, until) }
    ensures only { IfSome result (λ last. IsMedium last.0 × (name.now ≡ medium_word last.0) × SpellsBound (pos last_stamp) bound.now last.1) }
{
    law_of_plays();
    match read_play(name.as_bytes(), b"all", b"-", bound.as_bytes())? {
        Order::Play { medium, to, .. } => Some((medium, to)),
        _ => None,
    }
}

/// The table of ships up to a stamp.
pub fn of_ships(word: &str, name: &str, bound: &str) -> Option<Reading<'static>>
    ensures found { (reading : AReading) → SpellsReading (word.now ∷ name.now ∷ bound.now ∷ []) reading → option_map plain_reading result ≡ Some reading }
    ensures only { IfSome result (λ reading. SpellsReading (word.now ∷ name.now ∷ bound.now ∷ []) (plain_reading reading)) }
{
    if word != "targets" {
        return None;
    }
    let (medium, at) = last_of(name, bound)?;
    Some(Reading::Targets { medium, at })
}

/// What these four words ask to be read out.
pub(crate) fn wanted_of<'a>(
    medium: &str,
    channel: &'a str,
    from: &str,
    to: &str,
) -> Option<Wanted<'a>>
    ensures found { (asked : AskedPlay) → SpellsPlay medium.now channel.now from.now to.now (PlayOrder asked.medium asked.channel asked.from asked.to) → option_map plain_play result ≡ Some asked }
    ensures only { IfSome result (λ wanted. SpellsPlay medium.now channel.now from.now to.now (PlayOrder wanted.medium wanted.channel.now wanted.from wanted.to)) }
{
    law_of_plays();
    let order = read_play(
        medium.as_bytes(),
        channel.as_bytes(),
        from.as_bytes(),
        to.as_bytes(),
    )?;
    match order {
        Order::Play {
            medium,
            channel,
            from,
            to,
        } => Some(Wanted {
            medium,
            channel,
            from,
            to,
        }),
        _ => None,
    }
}

// Whether a word is a source: 1 to 15 bytes of 0x21 to 0x7E.
fn names_source(word: &str) -> bool
    ensures { result ≡ names_source word.now }
{
    let text = word.as_bytes();
    !text.is_empty() && text.len() <= 15 && are_graphic(text)
}

// The track of a source.
fn of_source<'a>(medium: &str, source: &'a str, from: &str, to: &str) -> Option<Reading<'a>>
    ensures found { (asked : AskedPlay) → names_source source.now ≡ true → SpellsPlay medium.now (codes "all") from.now to.now (PlayOrder asked.medium asked.channel asked.from asked.to)
        → option_map plain_reading result ≡ Some (Track asked source.now) }
    ensures only { IfSome result (λ reading. (asked : AskedPlay) × (plain_reading reading ≡ Track asked source.now) × (names_source source.now ≡ true)
        × SpellsPlay medium.now (codes "all") from.now to.now (PlayOrder asked.medium asked.channel asked.from asked.to)) }
{
    if !names_source(source) {
        return None;
    }
    let wanted = wanted_of(medium, "all", from, to)?;
    Some(Reading::Track(wanted, source.as_bytes()))
}

/// A reading of a channel, or of a source.
pub fn of_channel<'a>(
    word: &str,
    medium: &str,
    channel: &'a str,
    from: &str,
    to: &str,
) -> Option<Reading<'a>>
    ensures found { (reading : AReading) → SpellsReading (word.now ∷ medium.now ∷ channel.now ∷ from.now ∷ to.now ∷ []) reading → option_map plain_reading result ≡ Some reading }
    ensures only { IfSome result (λ reading. SpellsReading (word.now ∷ medium.now ∷ channel.now ∷ from.now ∷ to.now ∷ []) (plain_reading reading)) }
{
    if word == "play" {
        let wanted = wanted_of(medium, channel, from, to)?;
        return Some(Reading::Play(wanted));
    }
    if word == "values" {
        let wanted = wanted_of(medium, channel, from, to)?;
        return Some(Reading::Values(wanted));
    }
    if word == "track" {
        return of_source(medium, channel, from, to);
    }
    if word == "wav" {
        let wanted = wanted_of(medium, channel, from, to)?;
        return Some(Reading::Wav(wanted));
    }
    if word != "pictures" {
        return None;
    }
    let wanted = wanted_of(medium, channel, from, to)?;
    Some(Reading::Pictures(wanted))
}

/// The sound of a channel on its time line.
pub fn of_time_line<'a>(
    word: &str,
    medium: &str,
    channel: &'a str,
    from: &str,
    to: &str,
    last: &str,
) -> Option<Reading<'a>>
    ensures found { (reading : AReading) → SpellsReading (word.now ∷ medium.now ∷ channel.now ∷ from.now ∷ to.now ∷ last.now ∷ []) reading → option_map plain_reading result ≡ Some reading }
    ensures only { IfSome result (λ reading. SpellsReading (word.now ∷ medium.now ∷ channel.now ∷ from.now ∷ to.now ∷ last.now ∷ []) (plain_reading reading)) }
{
    if word != "wav" {
        return None;
    }
    if last != "timed" {
        return None;
    }
    let wanted = wanted_of(medium, channel, from, to)?;
    Some(Reading::TimedWav(wanted))
}

// The source of an image: six bytes of 0x21 to 0x7E.
fn source_of(word: &str) -> Option<[u8; 6]>
    ensures found { is_identifier word.now ≡ true → result ≡ Some word.now }
    ensures only { IfSome result (λ source. (source ≡ word.now) × (is_identifier source ≡ true)) }
{
    let text = word.as_bytes();
    if text.len() != 6 {
        return None;
    }
    let source = [text[0], text[1], text[2], text[3], text[4], text[5]];
    if are_graphic(&source) {
        Some(source)
    } else {
        None
    }
}

// The block of these words.
fn block_of(source: &str, number: &str) -> Option<Block>
    ensures found { (block : ABlock) → IsBlock block → source.now ≡ block.source → number.now ≡ decimal block.number → result ≡ Some block }
    ensures only { IfSome result (λ block. IsBlock block × (source.now ≡ block.source) × (number.now ≡ decimal block.number)) }
{
    let source = source_of(source)?;
    let number = number_of(number, 0, u32::MAX)?;
    Some(Block { source, number })
}

/// The image of a block.
pub fn of_block<'a>(
    word: &str,
    medium: &str,
    channel: &'a str,
    source: &str,
    number: &str,
    from: &str,
    to: &str,
) -> Option<Reading<'a>>
    ensures found { (reading : AReading) → SpellsReading (word.now ∷ medium.now ∷ channel.now ∷ source.now ∷ number.now ∷ from.now ∷ to.now ∷ []) reading → option_map plain_reading result ≡ Some reading }
    ensures only { IfSome result (λ reading. SpellsReading (word.now ∷ medium.now ∷ channel.now ∷ source.now ∷ number.now ∷ from.now ∷ to.now ∷ []) (plain_reading reading)) }
{
    if word != "picture" {
        return None;
    }
    let block = block_of(source, number)?;
    let wanted = wanted_of(medium, channel, from, to)?;
    Some(Reading::Picture(wanted, block))
}

/// What these words ask to be read out, None where they ask for nothing of the kind.
pub(crate) fn reading_of(words: &[String]) -> Option<Reading<'_>>
    ensures found { (reading : AReading) → SpellsReading (map string_bytes words.now) reading → option_map plain_reading result ≡ Some reading }
    ensures only { IfSome result (λ reading. SpellsReading (map string_bytes words.now) (plain_reading reading)) }
{
    match words {
        [word, medium] => of_medium(word.as_str(), medium.as_str()),
        [word, medium, at] => of_ships(word.as_str(), medium.as_str(), at.as_str()),
        [word, medium, channel, from, to] => of_channel(
            word.as_str(),
            medium.as_str(),
            channel.as_str(),
            from.as_str(),
            to.as_str(),
        ),
        [word, medium, channel, from, to, last] => of_time_line(
            word.as_str(),
            medium.as_str(),
            channel.as_str(),
            from.as_str(),
            to.as_str(),
            last.as_str(),
        ),
        [word, medium, channel, source, number, from, to] => of_block(
            word.as_str(),
            medium.as_str(),
            channel.as_str(),
            source.as_str(),
            number.as_str(),
            from.as_str(),
            to.as_str(),
        ),
        _ => None,
    }
}
