// `make` over the files of a folder, and a line for a person of what stood in the way.
use crate::hints::hint;
use crate::making::{MakeEnd, make};
use std::io::{Read, Write};
use vdr_adapters::{FileMaker, FileMedia, StdIn, StdOut, SystemFile, SystemFolder, Trouble};
use vdr_tool::{Status, World, report};

/// Prints the line of a status, with which a command ends.
pub(crate) fn ended<O: Write + Drop>(output: O, status: Status) -> Status {
    report(status, &mut StdOut::new(output));
    status
}

// What stood in the way of media: as they were made, or as they were formatted.
fn trouble_of<'a>(
    maker: &'a FileMaker<SystemFolder<'_, HostRuntime>>,
    media: &'a Option<FileMedia<'_, SystemFile<HostRuntime>>>,
) -> Option<(&'static str, &'a Trouble)> {
    if let Some(why) = maker.unmade() {
        return why.trouble();
    }
    match media {
        Some(media) => media.trouble(),
        None => None,
    }
}

/// Makes the media that the configuration which the input is asks for, as the files of this folder, and formats them. A person is told what stood
/// in the way.
pub(crate) fn make_files<I: Read + Drop, O: Write + Drop, E: Eprint>(
    host: &HostRuntime,
    errors: &E,
    folder: &str,
    input: I,
    output: O,
) -> Status {
    let mut world = World {
        input: StdIn::new(input),
        output: StdOut::new(output),
        media: FileMaker::new(SystemFolder::new(*host, folder)),
    };
    let MakeEnd { status, media } = make(host.alloc(), &mut world);
    match status {
        Status::InputFault => {
            if let Some(trouble) = world.input.trouble() {
                let _ = eprintln!(errors; "vdr: standard input: {trouble}");
            }
        }
        Status::MediaFault => {
            if let Some((name, trouble)) = trouble_of(&world.media, &media) {
                let _ = eprintln!(errors; "vdr: {name}: {trouble}");
            }
        }
        _ => hint(errors, status),
    }
    status
}
