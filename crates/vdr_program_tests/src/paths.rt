// What is done with the files of a script.
use crate::words::{first_word, number, unescaped};
use anyhow::{Context, Result, bail, ensure};
use std::fs::{File, OpenOptions};
use std::os::unix::fs::{FileExt, PermissionsExt};
use std::{fs, io};

// Writes bytes into a file, from `at` on.
fn poke(rt: &HostRuntime, path: &str, rest: &str) -> Result<()> {
    let (at, text) = first_word(rest);
    let bytes = unescaped(rt.alloc(), text)?;
    let mut file = OpenOptions::new().write(true).open(rt, path)?;
    file.write_all_at(bytes.as_slice(), number(at)?)?;
    Ok(())
}

// Gives a file this length.
fn resize(rt: &HostRuntime, path: &str, word: &str) -> Result<()> {
    let file = OpenOptions::new().write(true).open(rt, path)?;
    file.set_len(number(word)?)?;
    Ok(())
}

// That a file has this length.
fn has_size(rt: &HostRuntime, path: &str, word: &str) -> Result<()> {
    ensure!(
        fs::metadata(rt, path)?.len() == number(word)?,
        "another size"
    );
    Ok(())
}

// That a file has this mode, in octal digits.
fn has_mode(rt: &HostRuntime, path: &str, word: &str) -> Result<()> {
    let mode = u32::from_str_radix(word, 8).ok().context("no mode")?;
    ensure!(
        fs::metadata(rt, path)?.permissions().mode() & 0o777 == mode,
        "another mode"
    );
    Ok(())
}

// A file with these bytes.
fn file(rt: &HostRuntime, path: &str, text: &str) -> Result<()> {
    let bytes = unescaped(rt.alloc(), text)?;
    fs::write(rt, path, bytes.as_slice())?;
    Ok(())
}

// A new file of so many zeros.
fn zeros(rt: &HostRuntime, path: &str, word: &str) -> Result<()> {
    let file = File::create_new(rt, path)?;
    file.set_len(number(word)?)?;
    Ok(())
}

// That nothing is there.
fn is_free(rt: &HostRuntime, path: &str) -> Result<()> {
    ensure!(fs::metadata(rt, path).is_err(), "it is there");
    Ok(())
}

// Makes a folder, removes a file, or copies one, or gives it another name or a second one.
fn change(rt: &HostRuntime, verb: &str, path: &str, other: &str) -> io::Result<()> {
    match verb {
        "folder" => fs::create_dir_all(rt, path),
        "remove" => fs::remove_file(rt, path),
        "rename" => fs::rename(rt, path, other),
        "hard" => fs::hard_link(rt, path, other),
        _ => {
            fs::copy(rt, path, other)?;
            Ok(())
        }
    }
}

/// Follows a line that is about files.
pub(crate) fn follow(rt: &HostRuntime, verb: &str, rest: &str) -> Result<()> {
    let (path, rest) = first_word(rest);
    match verb {
        "folder" | "remove" | "rename" | "hard" | "copy" => { Ok(change(rt, verb, path, rest)?) }
        "file" => file(rt, path, rest),
        "zeros" => zeros(rt, path, rest),
        "length" => resize(rt, path, rest),
        "poke" => poke(rt, path, rest),
        "free" => is_free(rt, path),
        "size" => has_size(rt, path, rest),
        "mode" => has_mode(rt, path, rest),
        _ => bail!("no such line"),
    }
}
