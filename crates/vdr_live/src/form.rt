// What each word of a command may be, as its part of `--help` says it.
use itoa::Buffer;
use vdr_control::read_play;

/// The kind of a word behind a command's name.
#[derive(Clone, Copy, PartialEq, Eq, Drop)]
pub(crate) enum Form {
    Medium,
    Channel,
    From,
    To,
    Timed,
    At,
    Named,
    Source,
    Block,
    Label,
    Id,
    Datagrams,
    Bytes,
    Seed,
    Count,
    Turns,
}

// A number within these limits, in decimal digits without a sign and without a leading zero.
fn is_number(word: &str, least: u64, most: u64) -> bool {
    match word.parse::<u64>() {
        Ok(n) => least <= n && n <= most && Buffer::new().format(n) == word,
        Err(_) => false,
    }
}

// Whether all its bytes are 0x21 to 0x7E.
fn is_graphic(word: &str) -> bool {
    word.bytes().all(|byte| 0x21 <= byte && byte <= 0x7E)
}

impl Form {
    /// Its name.
    pub(crate) fn name(self) -> &'static str {
        match self {
            Form::Medium => "MEDIUM",
            Form::Channel => "CHANNEL",
            Form::From => "FROM",
            Form::To => "TO",
            Form::Timed => "timed",
            Form::At => "AT",
            Form::Named | Form::Source => "SOURCE",
            Form::Block => "BLOCK",
            Form::Label => "LABEL",
            Form::Id => "ID",
            Form::Datagrams => "D",
            Form::Bytes => "B",
            Form::Seed => "SEED",
            Form::Count => "COUNT",
            Form::Turns => "TURNS",
        }
    }

    /// What it may be.
    pub(crate) fn meaning(self) -> &'static str {
        match self {
            Form::Medium => "`capsule`, `longterm`, or `incident-` and the ID of a save, 1 to 32",
            Form::Channel => "the name of a configured channel, or `all`",
            Form::From | Form::To | Form::At => {
                "a stamp such as 2024-05-14T06:30:00.000Z, or `-` for no bound"
            }
            Form::Timed => "that word, or left out",
            Form::Named => {
                "1 to 15 bytes of 0x21 to 0x7E, such as GP0001, or `-` for lines that name none"
            }
            Form::Source => "six bytes of 0x21 to 0x7E, such as EI0001",
            Form::Block => "a number of 0 to 4294967295",
            Form::Label => "one word of 1 to 64 characters; one of several is quoted",
            Form::Id => "the ID of a save, 1 to 32",
            Form::Datagrams => "a number of datagrams in a second, 1 to 10000",
            Form::Bytes => "a number of bytes in a second, 6 to 10000000",
            Form::Seed => "a number of 0 to 2147483647",
            Form::Count => "a number of 0 to 1000000",
            Form::Turns => "a number of 1 to 1000000000000",
        }
    }

    /// Whether a word is one of these.
    pub(crate) fn fits(self, word: &str) -> bool {
        match self {
            Form::Channel | Form::Label => true,
            Form::Medium => read_play(word.as_bytes(), b"all", b"-", b"-").is_some(),
            Form::From | Form::To | Form::At => {
                read_play(b"capsule", b"all", word.as_bytes(), b"-").is_some()
            }
            Form::Timed => word == "timed",
            Form::Named => 1 <= word.len() && word.len() <= 15 && is_graphic(word),
            Form::Source => word.len() == 6 && is_graphic(word),
            Form::Block => is_number(word, 0, 4_294_967_295),
            Form::Id => is_number(word, 1, 32),
            Form::Datagrams => is_number(word, 1, 10_000),
            Form::Bytes => is_number(word, 6, 10_000_000),
            Form::Seed => is_number(word, 0, 2_147_483_647),
            Form::Count => is_number(word, 0, 1_000_000),
            Form::Turns => is_number(word, 1, 1_000_000_000_000),
        }
    }
}
