// What stood in the way of a command, as a line on the standard error.
use crate::hints::{hint, hint_before, hint_words};
use std::io::{Read, Write};
use std::net::{Net, TcpStream};
use vdr_adapters::{FileMedia, MediumFile, StdIn, StdOut, Trouble};
use vdr_client::{line_of, recorder_listens};
use vdr_tool::{Status, Uses, World};

/// How one medium is read alone.
const CAPSULE_ALONE: &str = "one medium alone: vdr FOLDER rescue play capsule all - -";

const LONG_TERM_ALONE: &str = "one medium alone: vdr FOLDER rescue play longterm all - -";

// The way on where opening was refused for one of two media: the other one, by itself. None where no such command could read it either.
fn way_on(status: Status, uses: Uses, trouble: Option<(&str, &Trouble)>) -> Option<&'static str> {
    if !matches!(uses, Uses::All) {
        return None;
    }
    match (status, trouble) {
        (_, Some((_, Trouble::InUse | Trouble::Left))) => None,
        (Status::Unformatted | Status::Damaged { .. } | Status::MediaFault, Some((name, _)))
            if name == "longterm.vdr" => { Some(CAPSULE_ALONE) }
        (Status::Unformatted | Status::Damaged { .. } | Status::MediaFault, Some((name, _)))
            if name == "capsule.vdr" => { Some(LONG_TERM_ALONE) }
        (Status::Damaged { medium: 0, .. }, None) => Some(LONG_TERM_ALONE),
        (Status::Damaged { .. }, None) => Some(CAPSULE_ALONE),
        _ => None,
    }
}

// Tells what stood in the way of the media, and the way on, where either is known.
fn explain_media(
    rt: &impl Eprint,
    status: Status,
    uses: Uses,
    trouble: Option<(&'static str, &Trouble)>,
) {
    let way = way_on(status, uses, trouble);
    let _ = match (trouble, way) {
        (Some((name, trouble)), Some(way)) => eprintln!(rt; "vdr: {name}: {trouble}; {way}"),
        (Some((name, trouble)), None) => eprintln!(rt; "vdr: {name}: {trouble}"),
        (None, Some(way)) => {
            hint_before(rt, status, way);
            Ok(())
        }
        (None, None) => {
            hint(rt, status);
            Ok(())
        }
    };
}

/// Tells a technician in one line on the standard error what stood in the way, where that is known.
pub(crate) fn explain<R: Read + Drop, W: Write + Drop, F: MediumFile + Drop>(
    rt: &impl Eprint,
    folder: &str,
    command: &[String],
    status: Status,
    uses: Uses,
    world: &World<StdIn<R>, StdOut<W>, FileMedia<'_, F>>,
) {
    let (name, trouble) = match status {
        Status::Done => return,
        Status::Words => {
            hint_words(rt, folder, command);
            return;
        }
        Status::Config { .. } => {
            hint(rt, status);
            return;
        }
        Status::InputFault => ("standard input", world.input.trouble()),
        Status::OutputFault => ("standard output", world.output.trouble()),
        _ => {
            explain_media(rt, status, uses, world.media.trouble());
            return;
        }
    };
    if let Some(trouble) = trouble {
        let _ = eprintln!(rt; "vdr: {name}: {trouble}");
    }
}

// The order for evidence is of an incident, so that other records are saved as one first.
fn advise_evidence(errors: &impl Eprint, folder: &str, command: &[String]) {
    let _ = match command {
        [_, medium, ..] if medium.as_str().starts_with("incident-") => {
            let medium = medium.as_str();
            eprintln!(errors; "vdr: in use by a recorder: vdr {folder} order EVIDENCE {medium}")
        }
        _ => {
            eprintln!(errors;
                "vdr: in use by a recorder: vdr {folder} order SAVE LABEL, and then vdr {folder} order EVIDENCE incident-ID"
            )
        }
    };
}

/// Where a recorder uses the media, tells in a line how it is asked for what these words ask for.
pub(crate) fn advise<R: AllocGlobal + Net<Stream = TcpStream>, E: Eprint, F: MediumFile + Drop>(
    rt: &R,
    errors: &E,
    folder: &str,
    command: &[String],
    media: &FileMedia<'_, F>,
) {
    let Some(word) = command.first() else {
        return;
    };
    let is_order = matches!(
        word.as_str(),
        "play"
            | "save"
            | "release"
            | "incidents"
            | "sources"
            | "watch"
            | "targets"
            | "digest"
            | "wav"
            | "picture"
            | "evidence"
    );
    let is_in_use = matches!(media.trouble(), Some((_, Trouble::InUse)));
    if !is_order || !is_in_use || !recorder_listens(rt) {
        return;
    }
    if word.as_str() == "evidence" {
        advise_evidence(errors, folder, command);
        return;
    }
    if let Ok(line) = line_of(rt.alloc(), command) {
        let _ = eprintln!(errors; "vdr: in use by a recorder: vdr {folder} order {line}");
    }
}
