// `from` over a file, and a line for a person of what stood in the way.
use crate::hints::hint;
use std::io::Write;
use vdr_adapters::{FileMedia, StdOut, SystemFile, Trouble};
use vdr_from::{PathFile, read_from};
use vdr_tool::Status;

// Tells what stood in the way of this object, where that is known.
fn tell_trouble(errors: &impl Eprint, name: &str, trouble: Option<&Trouble>) {
    if let Some(trouble) = trouble {
        let _ = eprintln!(errors; "vdr: {name}: {trouble}");
    }
}

/// Reads the stored file at this path out, as the words ask. A person is told what stood in the way.
pub(crate) fn read_file<O: Write + Drop, E: Eprint>(
    host: &HostRuntime,
    errors: &E,
    path: &str,
    words: &[String],
    output: O,
) -> Status {
    let mut file = PathFile::new(*host, path);
    let mut media = FileMedia::<SystemFile<HostRuntime>>::unused();
    let mut output = StdOut::new(output);
    let status = read_from(host.alloc(), words, &mut file, &mut media, &mut output);
    match status {
        Status::InputFault => tell_trouble(errors, path, file.trouble()),
        Status::OutputFault => tell_trouble(errors, "standard output", output.trouble()),
        Status::Words => {
            let _ = eprintln!(errors;
                "vdr: the words are: vdr FILE from COMMAND, and those of the command without MEDIUM; `vdr --help from` teaches them"
            );
        }
        _ => hint(errors, status),
    }
    status
}
