// Which media the command uses that words ask for.
ghost use Rattle.std.specs.Prelude.{◌≡◌, ◌⊎◌, ℕ};
ghost use Rattle.vdr_tool.specs.Commands.{Asked, IsPlain, ReadsAlone};
ghost use Rattle.vdr_tool.specs.Runs.{Asks, page};
ghost use Rattle.vdr_tool.specs.declared.using.Uses.TheVariants.{All, Alone, Nothing};
ghost use Rattle.vdr_live.specs.Recordings.{AsksRecord};

use crate::turns::turns_of;
use vdr_tool::Uses;

/// Which media the command reads or writes that the words ask for. Words that ask for no command use none.
pub fn medium_use(words: &[String]) -> Uses
    ensures all { result ≡ All → ((turns : ℕ) × AsksRecord words.now turns) ⊎ ((command : Asked) × Asks words.now command × IsPlain command × (page command).uses_media) }
    ensures alone { (m : ℕ) → result ≡ Alone m → (command : Asked) × Asks words.now command × ReadsAlone m command }
    ensures unrecorded { result ≡ Nothing → (turns : ℕ) → AsksRecord words.now turns → ⊥ }
    ensures nothing { result ≡ Nothing → (command : Asked) → Asks words.now command → (page command).uses_media → ⊥ }
{
    match turns_of(words) {
        Some(_) => Uses::All,
        None => vdr_tool::medium_use(words),
    }
}
