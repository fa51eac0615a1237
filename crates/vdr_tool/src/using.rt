// Which media the command uses that words ask for.
ghost use Rattle.std.specs.Prelude.{◌≡◌, ℕ};
ghost use Rattle.vdr_tool.specs.Commands.{Asked, IsPlain, ReadsAlone};
ghost use Rattle.vdr_tool.specs.Runs.{Asks, page};
ghost use Rattle.vdr_tool.specs.declared.using.Uses.TheVariants.{All, Alone, Nothing};

use crate::words::{Command, command_of};
use vdr_readout::number_of;

/// Which media a command uses.
#[derive(Clone, Copy, Drop)]
pub enum Uses {
    /// None. Words that ask for no command use none.
    Nothing,
    /// Both.
    All,
    /// The one of this number alone, which it reads.
    Alone(u8),
}

/// Which media the command reads or writes that the words ask for.
pub fn medium_use(words: &[String]) -> Uses
    ensures all { result ≡ All → (command : Asked) × Asks words.now command × IsPlain command × (page command).uses_media }
    ensures alone { (m : ℕ) → result ≡ Alone m → (command : Asked) × Asks words.now command × ReadsAlone m command }
    ensures nothing { result ≡ Nothing → (command : Asked) → Asks words.now command → (page command).uses_media → ⊥ }
{
    match command_of(words) {
        None
        | Some(
            Command::Review { .. }
            | Command::Check
            | Command::Import
            | Command::Packets
            | Command::Verify,
        ) => { Uses::Nothing }
        Some(Command::Rescue(reading)) => Uses::Alone(reading.medium_number()),
        Some(Command::RescueInfo { medium }) => Uses::Alone(number_of(medium)),
        Some(
            Command::Format { .. }
            | Command::Replay
            | Command::Read(_)
            | Command::Evidence(_)
            | Command::Page(_, _)
            | Command::Incidents
            | Command::Info
            | Command::Compare
            | Command::Save { .. }
            | Command::Release { .. }
            | Command::Trial { .. },
        ) => Uses::All,
    }
}
