// The way on, as a line on the standard error for each status (docs/formats/hints.md lists them).
//
// What the system said of a file, a port or a stream is told elsewhere, as it happens or with the status.
use crate::form::Form;
use crate::wording::{Wrong, is_command, wrong_in};
use vdr_config::TooSmall;
use vdr_tool::{EvidencePart, SaveCause, Status};

/// The most slots that a medium has.
const MOST_SLOTS: u64 = 1_000_000;

// The names of the media's files, by their numbers.
fn file_of(medium: u8) -> &'static str {
    match medium {
        0 => "capsule.vdr",
        _ => "longterm.vdr",
    }
}

/// The words of a command, as `--help` has them.
fn tell_usage(rt: &impl Eprint, command: &str, words: &[Form]) {
    let _ = eprint!(rt; "vdr: the words are: vdr FOLDER {command}");
    for form in words {
        let name = form.name();
        let _ = eprint!(rt; " {name}");
    }
    let _ = eprintln!(rt; "; `vdr --help {command}` teaches them");
}

// Whether what one medium alone is was to be asked for.
fn are_of_info_alone(words: &[String]) -> bool {
    match words {
        [word, next, ..] => word.as_str() == "rescue" && next.as_str() == "info",
        _ => false,
    }
}

/// Which word asks for nothing, and what it may be.
pub(crate) fn hint_words(rt: &impl Eprint, folder: &str, words: &[String]) {
    if folder == "from" {
        let _ = eprintln!(rt;
            "vdr: the evidence file comes first: vdr FILE from COMMAND WORDS; `vdr --help from` teaches them"
        );
        return;
    }
    if are_of_info_alone(words) {
        let _ = eprintln!(rt;
            "vdr: the words are: vdr FOLDER rescue info MEDIUM, and MEDIUM is `capsule` or `longterm`"
        );
        return;
    }
    let words = match words {
        [word, rest @ ..] if word.as_str() == "rescue" => rest,
        _ => words,
    };
    let _ = match wrong_in(words) {
        Wrong::Nothing if is_command(folder) => {
            eprintln!(rt;
                "vdr: the folder of the media comes first, such as `.`: vdr FOLDER {folder}"
            )
        }
        Wrong::Nothing => {
            eprintln!(rt; "vdr: a command follows the folder; `vdr --help` teaches the commands")
        }
        Wrong::Command(name) => {
            eprintln!(rt;
                "vdr: {name}: these words ask for no command; `vdr --help` teaches the commands"
            )
        }
        Wrong::Count(command, forms) => {
            tell_usage(rt, command, forms);
            Ok(())
        }
        Wrong::Word(word, form) => {
            let (name, meaning) = (form.name(), form.meaning());
            eprintln!(rt; "vdr: {word}: {name} is {meaning}")
        }
    };
}

// What each refusal of a configuration means.
fn configuration(number: u8) -> &'static str {
    match number {
        1 => "it is no JSON object; a text in UTF-16 or with a byte order mark is none",
        2 => "this key is missing",
        3 => "no configuration has this key",
        4 => "what this key has is of another type, or out of its range",
        5 => "this name is given twice",
        6 =>
            "profile `ship` asks for a capsule_seconds and a float_seconds of 172800 and a long_seconds of 2592000 at least",
        7 => "segment is four times batch at least",
        _ => "it has more than 16380 bytes",
    }
}

fn hint_small(rt: &impl Eprint, small: TooSmall) {
    let TooSmall { medium, need, have } = small;
    let file = file_of(medium);
    let _ = if MOST_SLOTS < need {
        eprintln!(rt;
            "vdr: {file}: no medium has more than {MOST_SLOTS} slots; a larger `segment` needs fewer"
        )
    } else {
        eprintln!(rt;
            "vdr: {file}: it has room for {have} slots; one of {need} has 32768 bytes and {need} times `segment`"
        )
    };
}

// What each refusal of a feed means.
fn feed(number: u8) -> &'static str {
    match number {
        1 => "a feed begins with VDRFEED1; of a capture `import` makes one",
        2 => "it ends within an item",
        3 => "a time is out of its range",
        4 => "there is no such group, or the media's configuration lacks it",
        5 => "an item was received before the one before it",
        _ => "it has more items than one run takes",
    }
}

// What each refusal of a capture means.
fn capture(number: u8) -> &'static str {
    match number {
        1 => "it is no capture: pcap and pcapng are read, and a compressed one by zcat",
        2 => "it ends within a packet or a block; what stands before it was read",
        3 => "it is of a version, or has an order of bytes, that nobody writes",
        4 => "a length in it can't be",
        5 => "a packet names an interface that was not described",
        6 => "it has more than 256 interfaces",
        _ => "it has more items than a feed takes",
    }
}

// Why a file is not evidence.
fn not_evidence(part: EvidencePart) -> &'static str {
    match part {
        EvidencePart::Token => "its token does not stand",
        EvidencePart::Configuration => "no configuration stands",
        EvidencePart::Medium => "no medium stands, 0 or 1",
        EvidencePart::Incident => "no id of an incident of that medium stands",
        EvidencePart::Label => "no label of the incident stands, or one of none",
        EvidencePart::Query => "no query of a channel and two stamps stands",
        EvidencePart::Record =>
            "neither the next record that the query selects stands, nor the end",
        EvidencePart::End => "the end tells another number of records",
        EvidencePart::Digest => "the SHA-256 is not that of what stands before it",
        EvidencePart::Behind => "something stands behind its end",
    }
}

// Why an incident is not saved.
fn unsaved(cause: SaveCause) -> &'static str {
    match cause {
        SaveCause::Label => "a label has 1 to 64 characters from the space to `~`",
        SaveCause::Nothing => "nothing is recorded yet",
        SaveCause::TableFull => {
            "as many incidents are saved as `incident_slots` says; copy the media, and release one"
        }
    }
}

// The line of a status that tells no number.
fn plain(status: Status) -> Option<&'static str> {
    match status {
        Status::Unformatted => Some(
            "the capsule is not formatted; where longterm.vdr holds a recording: vdr FOLDER rescue play longterm all - -",
        ),
        Status::Formatted => {
            Some("the media are formatted already; `reformat` gives up all that they hold")
        }
        Status::NoMemory => Some(
            "there was not enough memory; of `record`: or the host refused threads, see `ulimit -u` and TasksMax",
        ),
        Status::NoChannel => {
            Some("the configuration names no such channel; `all` is every record")
        }
        Status::SaveRefused(cause) => Some(unsaved(cause)),
        Status::Place | Status::Tick => Some(
            "the media are at the end of their numbers; copy them, and format others for what comes",
        ),
        Status::ExportKind => {
            Some(
                "`wav` takes a channel of kind `pcm`, `picture` and `pictures` one of kind `image`",
            )
        }
        Status::ExportNothing => {
            Some("what is selected has no frame of this sound, or no part of this image")
        }
        Status::ExportLong => Some("a WAVE file has 4294967295 bytes at most; ask for less time"),
        _ => None,
    }
}

/// Tells a technician the way on, where the status is all that is known.
pub(crate) fn hint(rt: &impl Eprint, status: Status) {
    if let Some(text) = plain(status) {
        let _ = eprintln!(rt; "vdr: {text}");
        return;
    }
    let _ = match status {
        Status::Config { number } => {
            let text = configuration(number);
            eprintln!(rt; "vdr: the configuration: {text}")
        }
        Status::Small(small) => {
            hint_small(rt, small);
            Ok(())
        }
        Status::Damaged { medium, offset } => {
            let file = file_of(medium);
            eprintln!(rt;
                "vdr: {file}: what begins at byte {offset} is not legal; copy the media before all else, and see `rescue`"
            )
        }
        Status::Missing(place) => {
            eprintln!(rt;
                "vdr: records lack or differ from place {place} on; `rescue play` lists what one medium lacks, `compare` what both say"
            )
        }
        Status::Feed { number, offset } => {
            let text = feed(number);
            eprintln!(rt; "vdr: the feed, at byte {offset}: {text}")
        }
        Status::Capture { number, offset } => {
            let text = capture(number);
            eprintln!(rt; "vdr: the capture, at byte {offset}: {text}")
        }
        Status::NoEvidence { part, offset } => {
            let text = not_evidence(part);
            eprintln!(rt; "vdr: this is no evidence file: at byte {offset} {text}")
        }
        Status::NoIncident(id) => {
            eprintln!(rt; "vdr: no incident is saved under {id}; `incidents` lists those that are")
        }
        Status::ExportMixed(place) => {
            eprintln!(rt;
                "vdr: from place {place} on the rate, or the number of parts, is another; ask for less time"
            )
        }
        Status::ExportPart(number) => {
            eprintln!(rt; "vdr: no record has part {number} of this image")
        }
        _ => Ok(()),
    };
}

/// Tells what is not legal of the media, and behind it this way on.
pub(crate) fn hint_before(rt: &impl Eprint, status: Status, way: &str) {
    let _ = match status {
        Status::Damaged { medium, offset } => {
            let file = file_of(medium);
            eprintln!(rt; "vdr: {file}: what begins at byte {offset} is not legal; {way}")
        }
        _ => eprintln!(rt; "vdr: {way}"),
    };
}
