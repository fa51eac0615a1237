// The words that ask for a command.
ghost use Rattle.std.specs.Prelude.{◌≡◌, ◌≤◌, ◌∷◌, [], ℕ, Some, IfSome, codes, decimal, map, option_map, string_bytes};
ghost use Rattle.vdr_terms.specs.declared.rate.Rate.{Rate as RateTold};
ghost use Rattle.vdr_config.specs.Configuration.{IsRate};
ghost use Rattle.vdr_entry.specs.declared.query.Medium.{Medium as AMedium};
ghost use Rattle.vdr_control.specs.Plays.{medium_word};
ghost use Rattle.vdr_readout.specs.Informs.{IsWhole};
ghost use Rattle.vdr_tool.specs.Commands.{Asked, IsOther, IsPlain, plain};
ghost use Rattle.vdr_tool.specs.Commands.Asked.{Trial};
ghost use Rattle.vdr_tool.specs.Runs.{Asks, Spells, page};

use crate::numbers::number_of;
use crate::readings::{reading_of, wanted_of};
use vdr_config::Rate;
use vdr_entry::Medium;
use vdr_page::PageWords;
use vdr_readout::{Reading, Wanted};

/// What the words ask for.
#[derive(Clone, Copy, Drop)]
pub(crate) enum Command<'a> {
    /// A review, in which each group has this rate if there is one.
    Review { rate: Option<Rate> },
    /// What a configuration needs.
    Check,
    /// The media are formatted, also where they are formatted already if it is to be done again.
    Format { again: bool },
    /// A feed is recorded on the media.
    Replay,
    /// What was recorded is read out.
    Read(Reading<'a>),
    /// What was recorded is written as an evidence file.
    Evidence(Wanted<'a>),
    /// What was recorded is written as a page, which is told by these words.
    Page(Wanted<'a>, PageWords<'a>),
    /// The live saves are listed.
    Incidents,
    /// What both media are is told.
    Info,
    /// An incident is saved under this label. What it holds is judged by the save.
    Save { label: &'a [u8] },
    /// The save of this id, 1 to 32, is released.
    Release { id: u32 },
    /// The media are tried with so many generated items, at most 1,000,000, from this seed on, at most 2,147,483,647.
    Trial { seed: u32, count: u64 },
    /// A capture becomes a feed.
    Import,
    /// What became of a capture's packets is told.
    Packets,
    /// What an evidence file holds is told.
    Verify,
    /// One medium alone is read.
    Rescue(Reading<'a>),
    /// What one medium alone is, which is no incident.
    RescueInfo { medium: Medium },
    /// Both media are compared.
    Compare,
}

fn rate_of(datagrams: &str, bytes: &str) -> Option<Rate>
    ensures found { (rate : RateTold) → IsRate rate → datagrams.now ≡ decimal rate.datagrams → bytes.now ≡ decimal rate.bytes → result ≡ Some rate }
    ensures only { IfSome result (λ rate. IsRate rate × (datagrams.now ≡ decimal rate.datagrams) × (bytes.now ≡ decimal rate.bytes)) }
{
    let datagrams = number_of(datagrams, 1, 10_000)?;
    let bytes = number_of(bytes, 6, 10_000_000)?;
    Some(Rate { datagrams, bytes })
}

// A word that asks for a command over media.
fn media_word(word: &str) -> Option<Command<'static>>
    ensures found { (command : Asked) → IsOther command → (page command).uses_media → Spells (word.now ∷ []) command → option_map plain result ≡ Some command }
    ensures only { IfSome result (λ command. Spells (word.now ∷ []) (plain command)) }
{
    if word == "format" {
        return Some(Command::Format { again: false });
    }
    if word == "reformat" {
        return Some(Command::Format { again: true });
    }
    if word == "replay" {
        return Some(Command::Replay);
    }
    if word == "incidents" {
        return Some(Command::Incidents);
    }
    if word == "compare" {
        return Some(Command::Compare);
    }
    if word == "info" {
        Some(Command::Info)
    } else {
        None
    }
}

fn one_word(word: &str) -> Option<Command<'static>>
    ensures found { (command : Asked) → IsOther command → Spells (word.now ∷ []) command → option_map plain result ≡ Some command }
    ensures only { IfSome result (λ command. Spells (word.now ∷ []) (plain command)) }
{
    if word == "review" {
        return Some(Command::Review { rate: None });
    }
    if word == "check" {
        return Some(Command::Check);
    }
    if word == "import" {
        return Some(Command::Import);
    }
    if word == "packets" {
        return Some(Command::Packets);
    }
    if word == "verify" {
        return Some(Command::Verify);
    }
    media_word(word)
}

fn two_words<'a>(word: &str, text: &'a str) -> Option<Command<'a>>
    ensures found { (command : Asked) → IsOther command → Spells (word.now ∷ text.now ∷ []) command → option_map plain result ≡ Some command }
    ensures only { IfSome result (λ command. Spells (word.now ∷ text.now ∷ []) (plain command)) }
{
    if word == "save" {
        return Some(Command::Save {
            label: text.as_bytes(),
        });
    }
    if word != "release" {
        return None;
    }
    let id = number_of(text, 1, 32)?;
    Some(Command::Release { id })
}

// The trial of this seed and this number of items.
fn trial_of(seed: &str, count: &str) -> Option<Command<'static>>
    ensures found { (s n : ℕ) → s ≤ 2_147_483_647 → n ≤ 1_000_000 → seed.now ≡ decimal s → count.now ≡ decimal n → option_map plain result ≡ Some (Trial s n) }
    ensures only { IfSome result (λ command. (s : ℕ) × (n : ℕ) × (plain command ≡ Trial s n) × (s ≤ 2_147_483_647) × (n ≤ 1_000_000) × (seed.now ≡ decimal s) × (count.now ≡ decimal n)) }
{
    let seed = number_of(seed, 0, 2_147_483_647)?;
    let count = number_of(count, 0, 1_000_000)?;
    Some(Command::Trial {
        seed,
        count: count as u64,
    })
}

fn three_words(word: &str, first: &str, second: &str) -> Option<Command<'static>>
    ensures found { (command : Asked) → IsOther command → Spells (word.now ∷ first.now ∷ second.now ∷ []) command → option_map plain result ≡ Some command }
    ensures only { IfSome result (λ command. Spells (word.now ∷ first.now ∷ second.now ∷ []) (plain command)) }
{
    if word == "trial" {
        return trial_of(first, second);
    }
    if word != "review" {
        return None;
    }
    let rate = rate_of(first, second)?;
    Some(Command::Review { rate: Some(rate) })
}

// A page of what the last three words ask for.
fn four_words<'a>(word: &str, medium: &'a str, from: &'a str, to: &'a str) -> Option<Command<'a>>
    ensures found { (command : Asked) → IsOther command → Spells (word.now ∷ medium.now ∷ from.now ∷ to.now ∷ []) command → option_map plain result ≡ Some command }
    ensures only { IfSome result (λ command. Spells (word.now ∷ medium.now ∷ from.now ∷ to.now ∷ []) (plain command)) }
{
    if word != "page" {
        return None;
    }
    let wanted = wanted_of(medium, "all", from, to)?;
    let words = PageWords {
        medium: medium.as_bytes(),
        from: from.as_bytes(),
        to: to.as_bytes(),
    };
    Some(Command::Page(wanted, words))
}

// An evidence file of what the last four words ask for.
fn five_words<'a>(
    word: &str,
    medium: &str,
    channel: &'a str,
    from: &str,
    to: &str,
) -> Option<Command<'a>>
    ensures found { (command : Asked) → IsOther command → Spells (word.now ∷ medium.now ∷ channel.now ∷ from.now ∷ to.now ∷ []) command → option_map plain result ≡ Some command }
    ensures only { IfSome result (λ command. Spells (word.now ∷ medium.now ∷ channel.now ∷ from.now ∷ to.now ∷ []) (plain command)) }
{
    if word != "evidence" {
        return None;
    }
    let wanted = wanted_of(medium, channel, from, to)?;
    Some(Command::Evidence(wanted))
}

// The command that these words ask for, of those that read nothing out, of evidence and of a page.
fn other_of(words: &[String]) -> Option<Command<'_>>
    ensures found { (command : Asked) → IsOther command → Asks words.now command → option_map plain result ≡ Some command }
    ensures only { IfSome result (λ command. Asks words.now (plain command)) }
{
    match words {
        [word] => one_word(word.as_str()),
        [word, text] => two_words(word.as_str(), text.as_str()),
        [word, first, second] => three_words(word.as_str(), first.as_str(), second.as_str()),
        [word, medium, from, to] => {
            four_words(word.as_str(), medium.as_str(), from.as_str(), to.as_str())
        }
        [word, medium, channel, from, to] => five_words(
            word.as_str(),
            medium.as_str(),
            channel.as_str(),
            from.as_str(),
            to.as_str(),
        ),
        _ => None,
    }
}

// The command that these words ask for, of all but a rescue.
fn plain_command_of(words: &[String]) -> Option<Command<'_>>
    ensures found { (command : Asked) → IsPlain command → Asks words.now command → option_map plain result ≡ Some command }
    ensures only { IfSome result (λ command. Asks words.now (plain command)) }
{
    match reading_of(words) {
        Some(reading) => Some(Command::Read(reading)),
        None => other_of(words),
    }
}

// The medium of this name; an incident is none.
fn whole_medium_of(name: &str) -> Option<Medium>
    ensures found { (medium : AMedium) → IsWhole medium → name.now ≡ medium_word medium → result ≡ Some medium }
    ensures only { IfSome result (λ medium. IsWhole medium × (name.now ≡ medium_word medium)) }
{
    if name == "capsule" {
        return Some(Medium::Capsule);
    }
    if name == "longterm" {
        Some(Medium::LongTerm)
    } else {
        None
    }
}

// The medium of this name, where the word before it is `info`.
fn info_words(word: &str, name: &str) -> Option<Medium>
    ensures found { (medium : AMedium) → IsWhole medium → word.now ∷ name.now ∷ [] ≡ codes "info" ∷ medium_word medium ∷ [] → result ≡ Some medium }
    ensures only { IfSome result (λ medium. IsWhole medium × (word.now ∷ name.now ∷ [] ≡ codes "info" ∷ medium_word medium ∷ [])) }
{
    if word == "info" {
        whole_medium_of(name)
    } else {
        None
    }
}

// The medium of which these words ask what it is.
fn info_alone_of(words: &[String]) -> Option<Medium>
    ensures found { (medium : AMedium) → IsWhole medium → map string_bytes words.now ≡ codes "info" ∷ medium_word medium ∷ [] → result ≡ Some medium }
    ensures only { IfSome result (λ medium. IsWhole medium × (map string_bytes words.now ≡ codes "info" ∷ medium_word medium ∷ [])) }
{
    match words {
        [word, name] => info_words(word.as_str(), name.as_str()),
        _ => None,
    }
}

// What is to be read of one medium alone, by the words behind `rescue`.
fn rescue_of(words: &[String]) -> Option<Command<'_>>
    ensures found { (command : Asked) → Spells (codes "rescue" ∷ map string_bytes words.now) command → option_map plain result ≡ Some command }
    ensures only { IfSome result (λ command. Spells (codes "rescue" ∷ map string_bytes words.now) (plain command)) }
{
    if let Some(medium) = info_alone_of(words) {
        return Some(Command::RescueInfo { medium });
    }
    let reading = reading_of(words)?;
    Some(Command::Rescue(reading))
}

/// The command that these words ask for, None where they ask for none.
pub(crate) fn command_of(words: &[String]) -> Option<Command<'_>>
    ensures found { (command : Asked) → Asks words.now command → option_map plain result ≡ Some command }
    ensures only { IfSome result (λ command. Asks words.now (plain command)) }
{
    let Some((word, rest)) = words.split_first() else {
        return None;
    };
    if word.as_str() == "rescue" {
        return rescue_of(rest);
    }
    plain_command_of(words)
}
