// The lines of a script, with those that `do` stands for.
use crate::escapes::number;
use anyhow::{Context, Result};
use std::alloc::{AllocError, Global};

/// A line that is followed.
#[derive(Drop)]
pub(crate) struct Line {
    /// Its number in the script, from 1 on. For a line that `do` stands for it is that of the `do`.
    pub(crate) number: usize,
    pub(crate) text: String,
}

// Lines that stand between `to NAME` and `end`.
#[derive(Drop)]
struct Part {
    name: String,
    lines: Vec<Line>,
}

// A line in which the words stand in place of %1, %2 and so on.
fn filled(alloc: Global, line: &str, words: &[String]) -> Result<String, AllocError> {
    let mut text = String::from_str(alloc, line)?;
    for (index, word) in words.iter().enumerate() {
        let place = index.saturating_add(1);
        let mark = format!(in alloc; "%{place}")?;
        text = text.replace(alloc, mark.as_str(), word.as_str())?;
    }
    Ok(text)
}

// The first and the last number of a range `FIRST..LAST` that is the first word of a text, if it is one.
fn range_of(text: &str) -> Result<Option<(u64, u64)>> {
    let word = match text.split_once(' ') {
        Some((word, _)) => word,
        None => text,
    };
    match word.split_once("..") {
        Some((first, last)) => Ok(Some((number(first)?, number(last)?))),
        None => Ok(None),
    }
}

// Appends the lines of a part, with these words.
fn append(
    alloc: Global,
    lines: &mut Vec<Line>,
    number: usize,
    part: &Part,
    words: &[String],
) -> Result<()> {
    for line in part.lines.iter() {
        let text = filled(alloc, line.text.as_str(), words)?;
        lines.push(Line { number, text })?;
    }
    Ok(())
}

// The lines that a `do` with these words stands for: those of its part, once for each number where its first word is
// a range.
fn lines_of_call(alloc: Global, number: usize, parts: &[Part], call: &str) -> Result<Vec<Line>> {
    let mut lines = Vec::new(alloc);
    let (name, rest) = call.split_once(' ').unwrap_or((call, ""));
    let part = parts.iter().find(|part| part.name.as_str() == name);
    let part = part.context("no such part")?;
    let mut words = Vec::new(alloc);
    for word in rest.split(' ') {
        words.push(String::from_str(alloc, word)?)?;
    }
    let Some((first, last)) = range_of(rest)? else {
        append(alloc, &mut lines, number, part, words.as_slice())?;
        return Ok(lines);
    };
    for each in first..=last {
        if let Some(word) = words.first_mut() {
            *word = format!(in alloc; "{each}")?;
        }
        append(alloc, &mut lines, number, part, words.as_slice())?;
    }
    Ok(lines)
}

// The lines that one line of a script stands for.
fn lines_of(alloc: Global, number: usize, parts: &[Part], text: &str) -> Result<Vec<Line>> {
    if let Some(call) = text.strip_prefix("do ") {
        return lines_of_call(alloc, number, parts, call);
    }
    let text = String::from_str(alloc, text)?;
    Ok(vec![in alloc; Line { number, text }]?)
}

/// The lines of a script that are to be followed: without comments and empty lines, and with the lines of its parts
/// where `do` asks for them.
pub(crate) fn expanded(alloc: Global, script: &str) -> Result<Vec<Line>> {
    let mut lines = Vec::new(alloc);
    let mut parts: Vec<Part> = Vec::new(alloc);
    let mut open: Option<Part> = None;
    for (index, text) in script.lines().enumerate() {
        if text.is_empty() || text.starts_with('#') {
            continue;
        }
        if text == "end" {
            parts.push(open.take().context("no part to end")?)?;
            continue;
        }
        if let Some(name) = text.strip_prefix("to ") {
            open = Some(Part {
                name: String::from_str(alloc, name)?,
                lines: Vec::new(alloc),
            });
            continue;
        }
        let number = index.saturating_add(1);
        let found = lines_of(alloc, number, parts.as_slice(), text)?;
        match &mut open {
            Some(part) => part.lines.extend(found)?,
            None => lines.extend(found)?,
        }
    }
    Ok(lines)
}
