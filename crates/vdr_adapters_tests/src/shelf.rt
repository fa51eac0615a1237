// The media that a script opens.
use crate::devices::{WithDevice, fail_when_full, leave_mark};
use crate::media::{self, tells};
use crate::paths::lock_up;
use crate::words::first_word;
use anyhow::Result;
use std::alloc::Global;
use std::mem;
use vdr_adapters::{FileMedia, MediumFile, SystemFile};
use vdr_sockets::Alarm;

/// The media that are open, and others that are kept open beside them.
#[derive(Drop)]
pub(crate) struct Shelf<'a, F: MediumFile + Drop> {
    media: FileMedia<'a, F>,
    kept: FileMedia<'a, F>,
    // Whether a file that is locked up may be written nonetheless.
    may_write: bool,
}

impl<'a, F: MediumFile + Drop> Shelf<'a, F> {
    pub(crate) fn new() -> Shelf<'a, F> {
        Shelf {
            media: FileMedia::unused(),
            kept: FileMedia::unused(),
            may_write: false,
        }
    }

    // Media in the place of those that are open.
    fn put(&mut self, media: FileMedia<'a, F>) {
        self.media = media;
    }

    // Media of which none can be used, and which raise the alarm where they fail.
    fn shut(&mut self, alarm: &'a Alarm) {
        let mut media = FileMedia::shut();
        media.tell(alarm);
        self.put(media);
    }

    // Follows a line about which media are open: `shut`, `close`, `keep` or `let-go`.
    fn change(&mut self, alarm: &'a Alarm, verb: &str) {
        match verb {
            "shut" => self.shut(alarm),
            "close" => self.put(FileMedia::unused()),
            "keep" => self.kept = mem::replace(&mut self.media, FileMedia::unused()),
            _ => self.kept = FileMedia::unused(),
        }
    }

    // That nothing stands in the way of the media where a file that is locked up may be written, and else this does.
    fn tells_locked(&self, alloc: Global, words: &str) -> Result<()> {
        tells(alloc, &self.media, if self.may_write { "" } else { words })
    }

    /// Follows a line about the media that needs no files. None where there is no such line.
    pub(crate) fn follow(
        &mut self,
        alloc: Global,
        alarm: &'a Alarm,
        verb: &str,
        rest: &str,
    ) -> Option<Result<()>> {
        let done = match verb {
            "shut" | "close" | "keep" | "let-go" => {
                self.change(alarm, verb);
                Ok(())
            }
            "tells" => tells(alloc, &self.media, rest),
            "tells-locked" => self.tells_locked(alloc, rest),
            "timed" => media::timed(&self.media, rest),
            _ => return media::follow(alloc, &mut self.media, self.may_write, verb, rest),
        };
        Some(done)
    }
}

// Opens media in which a medium is a device: the words `FOLDER NAME DEVICE`.
fn open_device<'a>(
    rt: &'a HostRuntime,
    shelf: &mut Shelf<'a, SystemFile<&'a HostRuntime>>,
    rest: &str,
) -> Result<()> {
    let (folder, rest) = first_word(rest);
    let (name, device) = first_word(rest);
    shelf.put(FileMedia::open_in(&WithDevice {
        rt,
        folder,
        name,
        device,
    })?);
    Ok(())
}

// Opens the media of a folder.
fn open<'a>(
    rt: &'a HostRuntime,
    shelf: &mut Shelf<'a, SystemFile<&'a HostRuntime>>,
    folder: &str,
) -> Result<()> {
    shelf.put(FileMedia::open(rt, folder)?);
    Ok(())
}

// Makes a file read-only.
fn lock<F: MediumFile + Drop>(
    rt: &HostRuntime,
    shelf: &mut Shelf<'_, F>,
    path: &str,
) -> Result<()> {
    shelf.may_write = lock_up(rt, path)?;
    Ok(())
}

/// Follows a line of a script that opens files. None where there is no such line.
pub(crate) fn follow<'a>(
    rt: &'a HostRuntime,
    shelf: &mut Shelf<'a, SystemFile<&'a HostRuntime>>,
    verb: &str,
    rest: &str,
) -> Option<Result<()>> {
    let done = match verb {
        "open" => open(rt, shelf, rest),
        "device" => open_device(rt, shelf, rest),
        "lock-up" => lock(rt, shelf, rest),
        "full" => fail_when_full(rt, rest),
        "mark" => leave_mark(rt, rest),
        _ => return None,
    };
    Some(done)
}
