// What is wrong with words that ask for no command.
use crate::form::Form;

/// A command's name and the words behind it.
struct Usage {
    command: &'static str,
    words: &'static [Form],
}

const USAGES: [Usage; 31] = [
    Usage {
        command: "review",
        words: &[],
    },
    Usage {
        command: "review",
        words: &[Form::Datagrams, Form::Bytes],
    },
    Usage {
        command: "import",
        words: &[],
    },
    Usage {
        command: "packets",
        words: &[],
    },
    Usage {
        command: "verify",
        words: &[],
    },
    Usage {
        command: "check",
        words: &[],
    },
    Usage {
        command: "make",
        words: &[],
    },
    Usage {
        command: "format",
        words: &[],
    },
    Usage {
        command: "reformat",
        words: &[],
    },
    Usage {
        command: "replay",
        words: &[],
    },
    Usage {
        command: "record",
        words: &[Form::Turns],
    },
    Usage {
        command: "play",
        words: &[Form::Medium, Form::Channel, Form::From, Form::To],
    },
    Usage {
        command: "values",
        words: &[Form::Medium, Form::Channel, Form::From, Form::To],
    },
    Usage {
        command: "track",
        words: &[Form::Medium, Form::Named, Form::From, Form::To],
    },
    Usage {
        command: "sources",
        words: &[Form::Medium],
    },
    Usage {
        command: "watch",
        words: &[Form::Medium],
    },
    Usage {
        command: "runs",
        words: &[Form::Medium],
    },
    Usage {
        command: "digest",
        words: &[Form::Medium],
    },
    Usage {
        command: "evidence",
        words: &[Form::Medium, Form::Channel, Form::From, Form::To],
    },
    Usage {
        command: "page",
        words: &[Form::Medium, Form::From, Form::To],
    },
    Usage {
        command: "targets",
        words: &[Form::Medium, Form::At],
    },
    Usage {
        command: "wav",
        words: &[
            Form::Medium,
            Form::Channel,
            Form::From,
            Form::To,
            Form::Timed,
        ],
    },
    Usage {
        command: "wav",
        words: &[Form::Medium, Form::Channel, Form::From, Form::To],
    },
    Usage {
        command: "picture",
        words: &[
            Form::Medium,
            Form::Channel,
            Form::Source,
            Form::Block,
            Form::From,
            Form::To,
        ],
    },
    Usage {
        command: "pictures",
        words: &[Form::Medium, Form::Channel, Form::From, Form::To],
    },
    Usage {
        command: "save",
        words: &[Form::Label],
    },
    Usage {
        command: "incidents",
        words: &[],
    },
    Usage {
        command: "info",
        words: &[],
    },
    Usage {
        command: "compare",
        words: &[],
    },
    Usage {
        command: "release",
        words: &[Form::Id],
    },
    Usage {
        command: "trial",
        words: &[Form::Seed, Form::Count],
    },
];

/// What is wrong with words that ask for no command.
#[derive(Clone, Copy, Drop)]
pub(crate) enum Wrong<'a> {
    /// There is no command.
    Nothing,
    /// No command has this name.
    Command(&'a str),
    /// The command of this name has these words behind it, and no others.
    Count(&'static str, &'static [Form]),
    /// This word is not what stands there.
    Word(&'a str, Form),
}

// The first word that is none of its form, None where all are.
fn first_wrong<'a>(words: &'a [String], forms: &'static [Form]) -> Option<(&'a str, Form)> {
    for (word, form) in words.iter().zip(forms) {
        if !form.fits(word.as_str()) {
            return Some((word.as_str(), *form));
        }
    }
    None
}

/// Whether a word is the name of a command.
pub(crate) fn is_command(word: &str) -> bool {
    USAGES.iter().any(|usage| usage.command == word)
}

/// What is wrong with the words of a command that the program has not understood.
pub(crate) fn wrong_in(words: &[String]) -> Wrong<'_> {
    let [name, rest @ ..] = words else {
        return Wrong::Nothing;
    };
    let mut wrong = Wrong::Command(name.as_str());
    for usage in &USAGES {
        if usage.command == name.as_str() {
            if usage.words.len() == rest.len() {
                return match first_wrong(rest, usage.words) {
                    Some((word, form)) => Wrong::Word(word, form),
                    None => wrong,
                };
            }
            wrong = Wrong::Count(usage.command, usage.words);
        }
    }
    wrong
}
