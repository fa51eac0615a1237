// What is done with the files of a script, and what is expected of them.
use crate::words::{count_of, done, expect, first_word, number, run_of_word, unescaped};
use anyhow::{Result, bail};
use std::fs::OpenOptions;
use std::os::unix::fs::symlink;
use std::{fs, io};

// Writes a file of a folder.
fn write_in(rt: &HostRuntime, folder: &str, name: &str, bytes: &[u8]) -> io::Result<()> {
    let path = format!(in rt.alloc(); "{folder}/{name}")?;
    fs::write(rt, path.as_str(), bytes)
}

// A folder with two media, of 10 and of 4 bytes.
fn folder(rt: &HostRuntime, path: &str) -> io::Result<()> {
    fs::create_dir_all(rt, path)?;
    write_in(rt, path, "capsule.vdr", b"0123456789")?;
    write_in(rt, path, "longterm.vdr", b"long")
}

// A file of so many zeros.
fn zeros(rt: &HostRuntime, path: &str, word: &str) -> Result<()> {
    let zeros = run_of_word(rt.alloc(), word, "0")?;
    done(fs::write(rt, path, zeros.as_slice()))
}

// That the text of a file begins so.
fn begins(rt: &HostRuntime, path: &str, words: &str) -> Result<()> {
    let text = fs::read_to_string(rt, path)?;
    expect(text.as_str().starts_with(words), "it begins otherwise")
}

// How many bytes of a file are sevens.
fn sevens_in(rt: &HostRuntime, path: &str) -> Result<u64> {
    let bytes = fs::read(rt, path)?;
    Ok(count_of(bytes.as_slice(), "7"))
}

// That so many bytes of a file are sevens.
fn sevens(rt: &HostRuntime, path: &str, word: &str) -> Result<()> {
    let count = number(word)?;
    expect(sevens_in(rt, path)? == count, "another count")
}

// Takes the right to write a file.
fn forbid_writing(rt: &HostRuntime, path: &str) -> io::Result<()> {
    let mut permissions = fs::metadata(rt, path)?.permissions();
    permissions.set_readonly(true);
    fs::set_permissions(rt, path, permissions)
}

/// Makes a file read-only. Whoever may do everything may write it nonetheless, which is answered.
pub(crate) fn lock_up(rt: &HostRuntime, path: &str) -> io::Result<bool> {
    forbid_writing(rt, path)?;
    Ok(OpenOptions::new().write(true).open(rt, path).is_ok())
}

// A file with this text.
fn file(rt: &HostRuntime, path: &str, text: &str) -> Result<()> {
    let text = unescaped(rt.alloc(), text)?;
    done(fs::write(rt, path, text.as_bytes()))
}

// That nothing is there.
fn is_free(rt: &HostRuntime, path: &str) -> Result<()> {
    expect(fs::metadata(rt, path).is_err(), "it is there")
}

// Follows a line that makes, links or removes a file or a folder, and expects nothing of it.
fn change(rt: &HostRuntime, verb: &str, path: &str, other: &str) -> io::Result<()> {
    match verb {
        "folder" => folder(rt, path),
        "empty" => fs::create_dir_all(rt, path),
        "remove" => fs::remove_file(rt, path),
        "hard" => fs::hard_link(rt, path, other),
        _ => symlink(rt, path, other),
    }
}

/// Follows a line of a script that is about files.
pub(crate) fn follow(rt: &HostRuntime, verb: &str, rest: &str) -> Result<()> {
    let (path, rest) = first_word(rest);
    match verb {
        "folder" | "empty" | "remove" | "hard" | "symbolic" => done(change(rt, verb, path, rest)),
        "file" => file(rt, path, rest),
        "zeros" => zeros(rt, path, rest),
        "begins" => begins(rt, path, rest),
        "sevens" => sevens(rt, path, rest),
        "free" => is_free(rt, path),
        _ => bail!("no such line"),
    }
}
