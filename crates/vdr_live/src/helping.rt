// The part of the help that teaches one command.
use crate::help::HELP;
use std::io;
use std::io::Write;

// Whether a line of the help begins the part of a command: it has two spaces before the command's name, and then a space or nothing.
fn begins(line: &str, command: &str) -> bool {
    match line.strip_prefix("  ") {
        Some(rest) => match rest.strip_prefix(command) {
            Some(behind) => behind.is_empty() || behind.starts_with(' '),
            None => false,
        },
        None => false,
    }
}

// Whether a line goes on with the part that stands above it.
fn goes_on(line: &str) -> bool {
    line.starts_with("   ")
}

/// Prints what the help says of a command, and tells whether it says anything.
pub(crate) fn tell_command<O: Write>(output: &mut O, command: &str) -> io::Result<bool> {
    let mut within = false;
    let mut found = false;
    for line in HELP.lines() {
        within = begins(line, command) || (within && goes_on(line));
        if within {
            writeln!(output, "{line}")?;
            found = true;
        }
    }
    Ok(found)
}
