// Why an incident is not saved.
use vdr_incident::TableRefused;
use vdr_ring::ReadRefused;

/// Why an incident is not saved. The cases stand in the order in which they are tested.
#[derive(Clone, Copy, PartialEq, Eq, Drop)]
pub enum SaveRefused {
    /// The label is not 1 to 64 bytes of 0x20 to 0x7E. Nothing is called.
    Label,
    /// Nothing is recorded. Nothing is called.
    Nothing,
    /// No slot is free. Nothing is called.
    TableFull,
    /// A slot of the long-term medium that was read to find where the incident begins is damaged. The medium, and where, as
    /// `vdr_ring::ReadRefused` says. Or, at offset 0, not all records of the incident are there. Nothing is written.
    Damaged { medium: u8, offset: u64 },
    /// A write had failed before, and nothing was called; or a call on the long-term medium failed, and its count of faults rose.
    Fault,
}

impl From<ReadRefused> for SaveRefused {
    ghost use Rattle.std.specs.Prelude.{◌≡◌};
    ghost use Rattle.vdr_vault.specs.Saves.{refusal_by};

    ghost from_gives = { λ read refused. refused ≡ refusal_by read };

    fn from(read: ReadRefused) -> SaveRefused {
        match read {
            ReadRefused::Fault => SaveRefused::Fault,
            ReadRefused::Damaged { medium, offset } => SaveRefused::Damaged { medium, offset },
        }
    }
}

impl From<TableRefused> for SaveRefused {
    ghost use Rattle.std.specs.Prelude.{◌≡◌};
    ghost use Rattle.vdr_vault.specs.Saves.{refusal_of};

    ghost from_gives = { λ refused_by refused. refused ≡ refusal_of refused_by };

    fn from(refused: TableRefused) -> SaveRefused {
        match refused {
            TableRefused::TableFull => SaveRefused::TableFull,
            TableRefused::Fault => SaveRefused::Fault,
        }
    }
}
