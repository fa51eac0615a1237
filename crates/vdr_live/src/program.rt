// The program behind its words: its help, its media, and its command.
ghost use Rattle.std.specs.Prelude.{◌≡◌, ◌<◌, ◌^◌, ℕ, length, slice_index_or};

use crate::explaining::{advise, explain};
use crate::gauging::HostGauge;
use crate::help::{HELP, VERSION};
use crate::helping::tell_command;
use crate::hints::hint;
use crate::making::is_make;
use crate::making_files::{ended, make_files};
use crate::reading_files::read_file;
use crate::{Line, line_of, medium_use, run_watched};
use std::alloc::AllocError;
use std::io;
use std::io::{BufReader, Read, Write};
use std::net::{Net, TcpStream};
use std::sync::Wait;
use std::thread::Threads;
use vdr_adapters::{FileMedia, StandardStreams, StdIn, StdOut, SystemFile};
use vdr_capture::Lane;
use vdr_client::order;
use vdr_from::is_from;
use vdr_outside::{Link, Port, Sink, Source};
use vdr_session::{Desk, Mark};
use vdr_sockets::{Alarm, LastHeard};
use vdr_tool::{Status, Uses, World};

/// How many bytes the input is read ahead.
const READ_AHEAD: usize = 65_536;

/// The streams of a command: what it reads, what it writes, and where one line for a person goes.
pub struct Streams<'a, I: Read + Drop, O: Write + Drop, E: Eprint> {
    pub input: I,
    pub output: O,
    pub errors: &'a E,
}

// Prints a text for a person, and tells whether that could be done.
fn tell<O: Write>(output: &mut O, text: &str) -> Status {
    match output.write_all(text.as_bytes()) {
        Ok(()) => Status::Done,
        Err(_) => Status::OutputFault,
    }
}

/// Prints the line of a program that has no memory, as a command does, and gives its exit status. A person is told too.
pub fn no_memory<O: Write + Drop, E: Eprint>(errors: &E, output: O) -> u8 {
    hint(errors, Status::NoMemory);
    ended(output, Status::NoMemory).code()
}

// Prints what the help says of a command, and tells whether that could be done.
fn tell_of<O: Write, E: Eprint>(output: &mut O, errors: &E, command: &str) -> Status {
    match tell_command(output, command) {
        Ok(true) => Status::Done,
        Ok(false) => {
            let _ = eprintln!(errors;
                "vdr: {command}: no command; `vdr --help` teaches the commands"
            );
            Status::Words
        }
        Err(_) => Status::OutputFault,
    }
}

// The media of a folder, as a command uses them, which raise the alarm where they can't be written. One that uses none opens none, one that
// reads one medium alone opens that one, and none is opened beside a standard stream that could not be filled.
fn media_for<'a, E: Eprint>(
    host: &HostRuntime,
    errors: &E,
    filled: &io::Result<StandardStreams>,
    folder: &str,
    uses: Uses,
    alarm: &'a Alarm,
) -> Result<FileMedia<'a, SystemFile<HostRuntime>>, AllocError> {
    if matches!(uses, Uses::Nothing) {
        return Ok(FileMedia::unused());
    }
    if let Err(error) = filled {
        let _ = eprintln!(errors; "vdr: /dev/null: {error}");
        return Ok(FileMedia::shut());
    }
    let mut media = match uses {
        Uses::Alone(m) => FileMedia::open_alone(*host, folder, m)?,
        Uses::Nothing | Uses::All => FileMedia::open(*host, folder)?,
    };
    media.tell(alarm);
    Ok(media)
}

// Makes media, but beside a standard stream that could not be filled.
fn make_beside<I: Read + Drop, O: Write + Drop, E: Eprint>(
    host: &HostRuntime,
    errors: &E,
    filled: &io::Result<StandardStreams>,
    folder: &str,
    input: I,
    output: O,
) -> Status {
    if let Err(error) = filled {
        let _ = eprintln!(errors; "vdr: /dev/null: {error}");
        return ended(output, Status::MediaFault);
    }
    make_files(host, errors, folder, input, output)
}

// Reads a stored file out, but beside a standard stream that could not be filled.
fn read_beside<O: Write + Drop, E: Eprint>(
    host: &HostRuntime,
    errors: &E,
    filled: &io::Result<StandardStreams>,
    path: &str,
    words: &[String],
    output: O,
) -> Status {
    if let Err(error) = filled {
        let _ = eprintln!(errors; "vdr: /dev/null: {error}");
        return ended(output, Status::InputFault);
    }
    read_file(host, errors, path, words, output)
}

// Runs a command, and gauges the host meanwhile for whoever asks how a recording fares.
fn run_gauged<
    R: Threads + Wait + Sync,
    I: Source + Drop,
    O: Sink + Drop,
    P: Port + Send,
    L: Link + Send,
>(
    rt: &R,
    host: &HostRuntime,
    folder: &str,
    command: &[String],
    world: &mut World<I, O, FileMedia<'_, SystemFile<HostRuntime>>>,
    lanes: &mut [Lane<P>],
    desks: &mut [Desk<L, Mark>],
    heard: &LastHeard,
) -> Status
    requires sixteen { length lanes.old ≡ 16 }
    requires groups { (g : ℕ) (d : _) → g < 16 → (slice_index_or lanes.old g d).group ≡ g }
    requires desks { length desks.old < 2 ^ 32 }
{
    let mut gauge = HostGauge {
        host,
        heard,
        folder,
    };
    let alloc = host.alloc();
    run_watched(rt, alloc, command, world, &mut gauge, lanes, desks)
}

/// Does what the words of the program ask for, over these streams, the media of the folder that the first word names, the ports
/// of these lanes and the links of these desks, and tells the exit status.
///
/// `--help`, `-h` and `--version`, as the only word, print what the program says of itself, and `--help` with a command what it says of that.
/// `make` makes the media and formats them. `from` reads the stored file that the first word names. Where something went wrong, one line for a person says what, or the way on (docs/formats/hints.md). Standard streams that are closed
/// are filled before any medium is opened, and before any port or link is asked. An order goes to the recorder of this host, and its reply to
/// the standard output. The alarm is raised where a medium can't be written or synced; ports and links that were made for it then end, and `heard` is told
/// when the ports were last heard. Files
/// are those of `host`, and threads and waiting those of `rt`: in `main` both are its one parameter.
pub fn command_line<
    R: AllocGlobal + Net<Stream = TcpStream> + Print + Eprint + Threads + Wait + Sync,
    I: Read + Drop,
    O: Write + Drop,
    E: Eprint,
    P: Port + Send,
    L: Link + Send,
>(
    rt: &R,
    host: &HostRuntime,
    words: &[String],
    streams: Streams<'_, I, O, E>,
    lanes: &mut [Lane<P>],
    desks: &mut [Desk<L, Mark>],
    alarm: &Alarm,
    heard: &LastHeard,
) -> u8
    requires sixteen { length lanes.old ≡ 16 }
    requires groups { (g : ℕ) (d : _) → g < 16 → (slice_index_or lanes.old g d).group ≡ g }
    requires desks { length desks.old < 2 ^ 32 }
{
    // Held to the end.
    let filled = StandardStreams::fill(host);
    let Streams {
        input,
        mut output,
        errors,
    } = streams;
    let (folder, command) = match line_of(words) {
        Line::Help => return tell(&mut output, HELP).code(),
        Line::HelpOf(command) => return tell_of(&mut output, errors, command).code(),
        Line::Version => return tell(&mut output, VERSION).code(),
        Line::Order { words } => return order(rt, words),
        Line::Command { folder, command } => (folder, command),
    };
    if is_from(command) {
        return read_beside(host, errors, &filled, folder, command, output).code();
    }
    let Ok(input) = BufReader::with_capacity(host.alloc(), READ_AHEAD, input) else {
        return no_memory(errors, output);
    };
    if is_make(command) {
        return make_beside(host, errors, &filled, folder, input, output).code();
    }
    let uses = medium_use(command);
    let Ok(media) = media_for(host, errors, &filled, folder, uses, alarm) else {
        return no_memory(errors, output);
    };
    let mut world = World {
        input: StdIn::new(input),
        output: StdOut::new(output),
        media,
    };
    let status = run_gauged(rt, host, folder, command, &mut world, lanes, desks, heard);
    explain(errors, folder, command, status, uses, &world);
    advise(rt, errors, folder, command, &world.media);
    status.code()
}
