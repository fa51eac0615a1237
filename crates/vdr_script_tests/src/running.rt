// A command that is run over media, ports and links in memory.
use crate::escapes::unescaped;
use crate::ran::{Output, Ran};
use crate::setting::Setting;
use anyhow::{Result, ensure};
use std::alloc::Global;
use std::sync::Wait;
use std::thread::Threads;
use vdr_capture::Lane;
use vdr_live::{are_lanes, run};
use vdr_memory::{MemoryLink, MemoryMedia, MemorySink, MemorySource};
use vdr_outside::{Link, Media, Port};
use vdr_session::{Desk, Mark};
use vdr_tool::{Status, World};

/// What a command reads, prints, and records on.
pub(crate) type MemoryWorld = World<MemorySource, MemorySink, MemoryMedia>;

/// The words of a line, each as it is spelled. `""` is an empty word.
pub(crate) fn words_of(alloc: Global, text: &str) -> Result<Vec<String>> {
    let mut words = Vec::new(alloc);
    if text.is_empty() {
        return Ok(words);
    }
    for word in text.split(' ') {
        let word = if word == "\"\"" { "" } else { word };
        let word = unescaped(alloc, word)?;
        words.push(String::from_str(alloc, str::from_utf8(word.as_slice())?)?)?;
    }
    Ok(words)
}

/// Runs a command over this world, these ports and these links.
pub(crate) fn answered<P: Port + Send, L: Link + Send, R: Threads + Wait + Sync>(
    rt: &R,
    alloc: Global,
    words: &[String],
    world: &mut MemoryWorld,
    lanes: &mut [Lane<P>],
    desks: &mut [Desk<L, Mark>],
) -> Result<Status> {
    let count = world.media.count();
    ensure!(count == 2 || count == 3, "two media are needed");
    ensure!(
        are_lanes(lanes) && desks.len() <= 2,
        "the lanes are not those of the groups"
    );
    Ok(run(rt, alloc, words, world, lanes, desks))
}

/// The world of a command, whose calls fail as the setting says.
pub(crate) fn world_of(
    alloc: Global,
    input: &[u8],
    contents: &[Vec<u8>],
    setting: &Setting,
) -> Result<MemoryWorld> {
    let failing = |numbers: &[u64]| numbers.to_vec(alloc);
    let contents = contents.to_vec(alloc)?;
    ensure!(contents.len() <= 3, "too many media");
    let media = MemoryMedia::new(
        alloc,
        contents,
        failing(setting.failing.as_slice())?,
        setting.stop,
    )?;
    let reads = failing(setting.failing_reads.as_slice())?;
    Ok(World {
        input: MemorySource::new(input.to_vec(alloc)?, 4096, reads),
        output: MemorySink::new(alloc, failing(setting.failing_writes.as_slice())?),
        media,
    })
}

/// What was done in a world, and over its first link.
pub(crate) fn ran_in(
    alloc: Global,
    status: Status,
    world: &MemoryWorld,
    desks: &[Desk<MemoryLink, Mark>],
) -> Result<Ran> {
    let mut ran = Ran::none(alloc);
    ran.code = status.code();
    ran.printed = Output::new(world.output.taken().to_vec(alloc)?);
    ran.writes = world.output.calls();
    if let Some(desk) = desks.first() {
        ran.replied = Output::new(desk.link.replied().to_vec(alloc)?);
        ran.asked = desk.link.calls();
    }
    ran.made = world.media.made();
    ran.read = [world.media.bytes_read(0), world.media.bytes_read(1)];
    ran.expect_printed();
    Ok(ran)
}

/// What the media of a world read as.
pub(crate) fn contents_of(alloc: Global, media: &MemoryMedia) -> Result<Vec<Vec<u8>>> {
    let mut contents = Vec::new(alloc);
    for m in 0..media.count() {
        contents.push(media.contents(m).to_vec(alloc)?)?;
    }
    Ok(contents)
}
