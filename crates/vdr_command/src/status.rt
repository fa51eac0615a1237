// How a command ended: the statuses with what they tell.
ghost use Rattle.std.specs.Prelude.{◌≡◌};

use vdr_config::TooSmall;
use vdr_opening::OpenRefused;
use vdr_recorder::SaveRefused;
use vdr_replay::ReplayRefused;
use vdr_review::ReviewRefused;

/// Why an incident is not saved. The cases stand in the order in which they are tested.
#[derive(Clone, Copy, Debug, PartialEq, Eq, Drop)]
pub enum SaveCause {
    /// The label is not 1 to 64 bytes of 0x20 to 0x7E.
    Label,
    /// Nothing is recorded.
    Nothing,
    /// Each incident that the media have room for is live.
    TableFull,
}

/// The first part of a file that is not evidence.
#[derive(Clone, Copy, Debug, PartialEq, Eq, Drop)]
pub enum EvidencePart {
    /// The eight bytes at the front.
    Token,
    /// The text of the configuration.
    Configuration,
    /// The number of the medium.
    Medium,
    /// The id of the incident.
    Incident,
    /// The label of the incident.
    Label,
    /// What was asked of the medium.
    Query,
    /// A record, where another one or the end should stand.
    Record,
    /// The number of records.
    End,
    /// The SHA-256 of all before.
    Digest,
    /// What stands behind the digest.
    Behind,
}

/// How a command ended.
#[derive(Clone, Copy, Debug, PartialEq, Eq, Drop)]
pub enum Status {
    /// All was done, and the input was read to its end.
    Done,
    /// The words ask for nothing that the program does.
    Words,
    /// The configuration is refused by this number: 1 no JSON object, 2 a key is missing, 3 a key is unknown, 4 a value has
    /// another type or is out of its range, 5 a name is given twice, 6 a ship's window is too short, 7 a segment is below
    /// four batches, 8 more than 16,380 bytes. The key stands in the status line.
    Config { number: u8 },
    /// This medium has fewer slots than the configuration needs.
    Small(TooSmall),
    /// The media are not formatted.
    Unformatted,
    /// The media are formatted already.
    Formatted,
    /// A part of this medium is not legal, which begins at this offset in bytes: 0 is the capsule, 1 the long-term medium.
    Damaged { medium: u8, offset: u64 },
    /// The media failed.
    MediaFault,
    /// The port of this transmission group failed, the least where several did.
    PortFault(u8),
    /// This link failed, counted from 0, the least where several did.
    LinkFault(u32),
    /// The input failed.
    InputFault,
    /// The output failed.
    OutputFault,
    /// There was no memory.
    NoMemory,
    /// The feed is refused by this number, at the item that begins at this offset.
    Feed { number: u8, offset: u64 },
    /// No such channel is configured. Its name stands in the status line.
    NoChannel,
    /// No incident is saved under this id.
    NoIncident(u32),
    /// Nothing is saved, and why.
    SaveRefused(SaveCause),
    /// The next place is 2^62 or more.
    Place,
    /// A run would begin at a tick of 2^62 milliseconds or more.
    Tick,
    /// A file is asked for that is not made of such a channel.
    ExportKind,
    /// No record has anything of the file that is asked for.
    ExportNothing,
    /// The record of this place is the first whose rate, or whose number of parts, isn't that of the first one.
    ExportMixed(u64),
    /// The sound has more bytes than a WAVE file can tell.
    ExportLong,
    /// No record has this part of the image, the first that is missing.
    ExportPart(u32),
    /// The capture is refused by this number, at the packet or block that begins at this offset.
    Capture { number: u8, offset: u64 },
    /// The input is not evidence: this part of it is the first that is not legal, and begins at this offset.
    NoEvidence { part: EvidencePart, offset: u64 },
    /// One medium alone lacks records that it owes, from this place on. Nothing of it is damaged.
    Missing(u64),
}

impl Status {
    ghost use Rattle.vdr_command.specs.StatusLine.{code_of};

    /// The number with which the program ends.
    pub fn code(&self) -> u8
        ensures { result ≡ code_of self.now }
    {
        match self {
            Status::Done => 0,
            Status::Words => 2,
            Status::Config { .. } | Status::Small(_) => 3,
            Status::Unformatted | Status::Formatted | Status::Damaged { .. } | Status::Missing(_) =>
                4,
            Status::MediaFault => 5,
            Status::PortFault(_) | Status::LinkFault(_) => 6,
            Status::InputFault => 7,
            Status::OutputFault => 8,
            Status::NoMemory => 9,
            Status::Feed { .. } => 10,
            Status::NoChannel | Status::NoIncident(_) => 11,
            Status::SaveRefused(_) => 12,
            Status::Place | Status::Tick => 13,
            Status::ExportKind
            | Status::ExportNothing
            | Status::ExportMixed(_)
            | Status::ExportLong
            | Status::ExportPart(_) => 14,
            Status::Capture { .. } | Status::NoEvidence { .. } => 16,
        }
    }
}

impl From<ReviewRefused> for Status {
    ghost use Rattle.vdr_command.specs.Statuses.{status_of_review};

    ghost from_gives = { λ stop status. status ≡ status_of_review stop };

    fn from(stop: ReviewRefused) -> Status {
        match stop {
            ReviewRefused::Input => Status::InputFault,
            ReviewRefused::Memory => Status::NoMemory,
            ReviewRefused::Refused { number, offset } => Status::Feed { number, offset },
        }
    }
}

impl From<OpenRefused> for Status {
    ghost use Rattle.vdr_command.specs.Statuses.{status_of_opening};

    ghost from_gives = { λ refused status. status ≡ status_of_opening refused };

    fn from(refused: OpenRefused) -> Status {
        match refused {
            OpenRefused::NoMemory => Status::NoMemory,
            OpenRefused::NotFormatted => Status::Unformatted,
            OpenRefused::Damaged { medium, offset } => Status::Damaged { medium, offset },
            OpenRefused::Fault => Status::MediaFault,
        }
    }
}

impl From<ReplayRefused> for Status {
    ghost use Rattle.vdr_command.specs.Statuses.{status_of_replay};

    ghost from_gives = { λ stop status. status ≡ status_of_replay stop };

    fn from(stop: ReplayRefused) -> Status {
        match stop {
            ReplayRefused::NoMemory => Status::NoMemory,
            ReplayRefused::Input => Status::InputFault,
            ReplayRefused::Refused { number, offset } => Status::Feed { number, offset },
            ReplayRefused::NotFormatted => Status::Unformatted,
            ReplayRefused::Damaged { medium, offset } => Status::Damaged { medium, offset },
            ReplayRefused::Place => Status::Place,
            ReplayRefused::Tick => Status::Tick,
            ReplayRefused::Media => Status::MediaFault,
        }
    }
}

impl From<SaveRefused> for Status {
    ghost use Rattle.vdr_command.specs.Statuses.{status_of_save};

    ghost from_gives = { λ refused status. status ≡ status_of_save refused };

    fn from(refused: SaveRefused) -> Status {
        match refused {
            SaveRefused::Label => Status::SaveRefused(SaveCause::Label),
            SaveRefused::Nothing => Status::SaveRefused(SaveCause::Nothing),
            SaveRefused::TableFull => Status::SaveRefused(SaveCause::TableFull),
            SaveRefused::Damaged { medium, offset } => Status::Damaged { medium, offset },
            SaveRefused::Fault => Status::MediaFault,
        }
    }
}
