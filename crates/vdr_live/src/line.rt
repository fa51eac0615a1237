// What the words of the program ask for, before any file is opened.
ghost use Rattle.std.specs.Prelude.{◌≡◌, ◌∷◌, [], IfNone, IfSome, codes, true, false};
ghost use Rattle.vdr_live.specs.Lines.{AsksNothingAlone, IsLine, SpellsAlone};

/// What the words of the program ask for.
#[derive(Clone, Copy, Drop)]
pub enum Line<'a> {
    /// What it says of its commands.
    Help,
    /// What it says of this command.
    HelpOf(&'a str),
    /// Its version.
    Version,
    /// An order to the recorder of this host. Its words may be none.
    Order {
        words: &'a [String],
    },
    /// A command over the media of a folder. Its words may ask for none.
    Command {
        folder: &'a str,
        command: &'a [String],
    },
}

// What a word asks for by itself, None where it is a folder.
fn alone(word: &str) -> Option<Line<'static>>
    ensures found { IfSome result (λ line. SpellsAlone (word.now ∷ []) line) }
    ensures none { IfNone result (AsksNothingAlone (word.now ∷ [])) }
{
    if word == "--help" {
        return Some(Line::Help);
    }
    if word == "-h" {
        return Some(Line::Help);
    }
    if word == "--version" {
        return Some(Line::Version);
    }
    None
}

fn is_help(word: &str) -> bool
    ensures is { result ≡ true → word.now ≡ codes "--help" }
    ensures no { result ≡ false → word.now ≡ codes "--help" → ⊥ }
{
    word == "--help"
}

fn is_order(word: &str) -> bool
    ensures is { result ≡ true → word.now ≡ codes "order" }
    ensures no { result ≡ false → word.now ≡ codes "order" → ⊥ }
{
    word == "order"
}

/// What the words of the program ask for: `--help`, `-h` and `--version`, as the only word, what it says of itself; `--help` and one more word,
/// what it says of that command. Else the first word is the folder, and all others are the command's, or those of an order behind `order`. Without
/// a word the folder is `.`, and there is no command.
pub fn line_of(words: &[String]) -> Line<'_>
    ensures { IsLine words.now result }
{
    match words {
        [] => Line::Command {
            folder: ".",
            command: words,
        },
        [word] => match alone(word.as_str()) {
            Some(line) => line,
            None => Line::Command {
                folder: word.as_str(),
                command: &words[1..],
            },
        },
        [word, command] if is_help(word.as_str()) => Line::HelpOf(command.as_str()),
        [_, word, rest @ ..] if is_order(word.as_str()) => Line::Order { words: rest },
        [folder, command @ ..] => Line::Command {
            folder: folder.as_str(),
            command,
        },
    }
}
